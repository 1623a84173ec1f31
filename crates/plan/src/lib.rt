// A plan text, read into stations, stocks and turns, or refused at its place.
#![tactic(auto)]

ghost use Rattle.std.specs.Prelude.{◌≡◌, ◌≤◌, IfOk};
ghost use Rattle.text.specs.Limits.{most_stations};
ghost use Rattle.text.specs.Refusal.{told};
ghost use Rattle.text.specs.Text.{lines_of};
ghost use Rattle.text.specs.Plan.{fresh, later_lines, reading};
ghost use Rattle.plan.specs.Outs.{begun};
ghost use Rattle.text.specs.Buffers.{told_of, sets_after, codes_after, lens_after, turns_after};

use hand::Hand;
use line::{first_line, gang};
use sets::limits::{BYTES, CELLS, STATIONS, STOCKS, TURNS};
use text::{Counts, Fault, Refusal};

mod buffers;
mod code;
mod codes;
mod hand;
mod line;
mod stocks;
mod turns;

// The number of stations, which the first line gives, and the text behind that line.
#[tactic(auto, using(crate::proofs::Whole::whole), unfolding(text::specs::Plan::first_line, text::specs::Plan::reading))]
fn begun<'a>(text: &'a [u8]) -> Result<(u8, &'a [u8]), Refusal>
    ensures reading { begun result ≡ reading text.entry.now }
    ensures few { IfOk result (λ start. start.0 ≤ most_stations) }
{
    if text.len() > BYTES {
        return Err(Refusal {
            fault: Fault::LongText,
            place: 0,
        });
    }
    let (first, rest) = first_line(text).map_err(|fault| Refusal { fault, place: 1 })?;
    let Some(stations) = gang(first) else {
        return Err(Refusal {
            fault: Fault::BadFirstLine,
            place: 1,
        });
    };
    Ok((stations, rest))
}

// Reads the lines behind the first, and hands out what they hold. What is in hand has its one place here: it is large, so it is never
// moved, and a text that is refused at its first line does not make it. Not inlined: it is off the stack again while the plan is run.
#[inline(never)]
fn read_later(
    stations: u8,
    text: &[u8],
    sets: &mut [u64; STATIONS],
    codes: &mut [u8; CELLS],
    lens: &mut [usize; STOCKS],
    turns: &mut [u8; TURNS],
) -> Result<Counts, Refusal>
    requires { stations ≤ most_stations }
    ensures answer { told result ≡ told_of (later_lines 2 (fresh stations) (lines_of text.now)) }
    ensures sets { sets.new ≡ sets_after (later_lines 2 (fresh stations) (lines_of text.now)) sets.old }
    ensures codes { codes.new ≡ codes_after (later_lines 2 (fresh stations) (lines_of text.now)) codes.old }
    ensures lens { lens.new ≡ lens_after (later_lines 2 (fresh stations) (lines_of text.now)) lens.old }
    ensures turns { turns.new ≡ turns_after (later_lines 2 (fresh stations) (lines_of text.now)) turns.old }
{
    let mut hand = Hand::new(stations);
    hand.take_lines(text)?;
    hand.hand_out(sets, codes, lens, turns);
    Ok(hand.counts())
}

// Reads the plan. A plan that is taken is handed out whole: the input set of each station, bit b for stock b; the codes, in cells of
// 12 bytes, and their lengths; the turns. Of a plan that is refused nothing is handed out. The buffers are lent as the C interface
// has them.
pub fn read_plan(
    text: &[u8],
    sets: &mut [u64; STATIONS],
    codes: &mut [u8; CELLS],
    lens: &mut [usize; STOCKS],
    turns: &mut [u8; TURNS],
) -> Result<Counts, Refusal>
    ensures answer { told result ≡ told_of (reading text.now) }
    ensures sets { sets.new ≡ sets_after (reading text.now) sets.old }
    ensures codes { codes.new ≡ codes_after (reading text.now) codes.old }
    ensures lens { lens.new ≡ lens_after (reading text.now) lens.old }
    ensures turns { turns.new ≡ turns_after (reading text.now) turns.old }
{
    let (stations, rest) = begun(text)?;
    read_later(stations, rest, sets, codes, lens, turns)
}
