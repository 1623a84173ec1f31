// The refusals 1 to 5, in the table's order.
ghost use Rattle.std.specs.Prelude.{◌≡◌, ◌&&◌, length, nat_le, nat_lt, if◌then◌else◌};
ghost use Rattle.verdict.specs.Refusals.{first_bad, tests};

use super::Refusal;
use sets::limits::{STATIONS, TURNS};

// n is 64 bits wide, and no From goes from a usize to that, here and below.
const MOST: u64 = STATIONS as u64;

// Whether it is a number from 1 to `last`.
fn is_up_to(last: u64, number: u64) -> bool
    ensures { result ≡ (nat_le 1 number && nat_le number last) }
{
    (1..=last).contains(&number)
}

// The first turn that is 0 or above n, if there is one.
fn first_bad(n: u64, turns: &[u8]) -> Option<usize>
    ensures { let at = first_bad n turns.now in result ≡ (if nat_lt at (length turns.now) then Some at else None) }
{
    turns.iter().position(|turn| !is_up_to(n, u64::from(*turn)))
}

// Whether the call can be made: n stations, so many input bytes, the turns, and so many answer bytes.
#[tactic(auto, using(crate::proofs::Judging::decided))]
pub fn tested(n: u64, input_bytes: usize, turns: &[u8], answer_size: usize) -> Result<(), Refusal>
    ensures { result ≡ tests n input_bytes turns.now answer_size }
{
    if !is_up_to(MOST, n) {
        return Err(Refusal::BadStationCount);
    }
    if input_bytes as u64 != 8 * n {
        return Err(Refusal::BadInputBytes);
    }
    if TURNS < turns.len() {
        return Err(Refusal::TooManyTurns);
    }
    if let Some(at) = first_bad(n, turns) {
        return Err(Refusal::BadTurn { at: at as u16 });
    }
    if (answer_size as u64) < 20 * n {
        return Err(Refusal::ShortAnswer);
    }
    Ok(())
}
