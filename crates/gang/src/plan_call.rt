// The reading of a plan, for a program that keeps stations, stocks and turns in arrays of its own.
ghost use Rattle.std.specs.Prelude.{◌≡◌};
ghost use Rattle.text.specs.Plan.{reading};
ghost use Rattle.text.specs.Refusal.{returned};
ghost use Rattle.text.specs.Buffers.{told_of, counts_after, sets_after, codes_after, lens_after, turns_after};

use plan::read_plan;
use sets::limits::{CELLS, STATIONS, STOCKS, TURNS};
use sets::placed::with_place;
use text::Refusal;

// Returns 0, with n and the numbers of stocks and of turns in `told`, or the refusal plus 100 times its place, and then every array is untouched.
// A place is a line of the text, so it fits. The parameters are those that the header declares.
#[unsafe(no_mangle)]
pub extern "C" fn gang_read_plan(
    text: &[u8],
    sets: &mut [u64; STATIONS],
    codes: &mut [u8; CELLS],
    lens: &mut [usize; STOCKS],
    turns: &mut [u8; TURNS],
    told: &mut [usize; 3],
) -> u32
    ensures number { result ≡ returned (told_of (reading text.now)) }
    ensures counts { told.new ≡ counts_after (told_of (reading text.now)) told.old }
    ensures sets { sets.new ≡ sets_after (reading text.now) sets.old }
    ensures codes { codes.new ≡ codes_after (reading text.now) codes.old }
    ensures lens { lens.new ≡ lens_after (reading text.now) lens.old }
    ensures turns { turns.new ≡ turns_after (reading text.now) turns.old }
{
    match read_plan(text, sets, codes, lens, turns) {
        Ok(counts) => {
            *told = [usize::from(counts.stations), counts.stocks, counts.turns];
            0
        }
        Err(Refusal { fault, place }) => with_place(fault.into(), place as u16),
    }
}
