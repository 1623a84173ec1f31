// From a plan's text to the printed text.
ghost use Rattle.std.specs.Prelude.{◌≡◌, length};
ghost use Rattle.page.specs.Page.{put_behind};
ghost use Rattle.report.specs.Printed.{printed, answer_of, buffer_of};

use super::TooSmall;
use super::taken::Taken;
use page::fields::Page;
use page::listing::Stocks;
use sets::limits::{CELLS, STATIONS, STOCKS, TURNS};
use text::Refusal;

// Puts the text that is printed of a plan's text.
fn put_printed(text: &[u8], page: &mut Page)
    ensures { page.new ≡ put_behind page.old (printed text.now) }
{
    let mut sets = [0u64; STATIONS];
    let mut cells = [0u8; CELLS];
    let mut lens = [0usize; STOCKS];
    let mut turns = [0u8; TURNS];
    match plan::read_plan(text, &mut sets, &mut cells, &mut lens, &mut turns) {
        Ok(counts) => Taken {
            stations: counts.stations,
            sets,
            stocks: Stocks {
                count: counts.stocks,
                cells: &cells,
                lens: &lens,
            },
            turns: &turns[..counts.turns],
        }
        .put_report(page),
        Err(Refusal { fault, place }) => {
            page.put_refusal(u16::from(u8::from(fault)), place as u16);
        }
    }
}

// A text is handed out whole, or not at all.
fn hand_out(text: &[u8], out: &mut [u8]) -> Result<usize, TooSmall>
    ensures value { result ≡ answer_of text.now (length out.old) }
    ensures out_after { out.new ≡ buffer_of text.now out.old }
{
    if out.len() < text.len() {
        return Err(TooSmall);
    }
    out[..text.len()].copy_from_slice(text);
    Ok(text.len())
}

// Reads a plan, runs it and prints its report into `out`: the text and its length. A buffer that is too small is left untouched.
#[tactic(auto, using(crate::proofs::Sizes::on_new_page))]
pub fn print_plan(text: &[u8], out: &mut [u8]) -> Result<usize, TooSmall>
    ensures value { result ≡ answer_of (printed text.now) (length out.old) }
    ensures out_after { out.new ≡ buffer_of (printed text.now) out.old }
{
    let mut page = Page::new();
    put_printed(text, &mut page);
    hand_out(page.as_bytes(), out)
}
