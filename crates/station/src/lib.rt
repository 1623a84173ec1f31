// The private part of a station: its next operation, and its state after what the operation brought. It never touches the board.
#![tactic(auto)]

ghost use Rattle.std.specs.Prelude.{◌≡◌, ◌≤◌, cond, ◌&&◌, leb};
ghost use Rattle.method.specs.Steps.{next_op, absorb};

// Reading an array from a set M.
mod reading;

// The union over two arrays.
mod uniting;

use climbing::{climbed, gathered};
use method::{Op, State};
use sets::mask;
use uniting::Union;

// What station i does next. Here and below a pattern binds the parts of a union one by one.
#[tactic(auto, unfolding(method::specs::Steps::next_op))]
pub fn next_op(i: u8, state: State) -> Op
    ensures { result ≡ next_op i state }
{
    match state {
        State::NotBegun { stocks } => Op::Post { stocks },
        State::Uniting {
            level,
            own,
            other,
            side,
            round,
        } => Union {
            level,
            own,
            other,
            side,
            round,
        }
        .next_op(i),
        State::Gathering { station, .. } => Op::ReadLine { station },
        State::Settled { .. } => Op::Rest,
    }
}

// Station i's state after its operation brought v, with all private work up to its next operation or its settled set. Of n levels.
#[tactic(auto, using(crate::proofs::Ways::brings), unfolding(method::specs::Steps::absorb))]
fn moved(n: u8, i: u8, state: State, v: u64) -> State
    requires first { 1 ≤ i }
    requires last { i ≤ 64 }
    ensures { result ≡ absorb n i state v }
{
    match state {
        State::NotBegun { .. } => climbed(n, 0, mask::alone(i)),
        State::Uniting {
            level,
            own,
            other,
            side,
            round,
        } => Union {
            level,
            own,
            other,
            side,
            round,
        }
        .absorbed(n, v),
        State::Gathering {
            set,
            station,
            stocks,
        } => gathered(set, station, mask::union_of(stocks, v)),
        State::Settled { .. } => state,
    }
}

// The same for every number: one that is not from 1 to 64 is no station, and its state stays.
pub fn absorbed(n: u8, i: u8, state: State, v: u64) -> State
    ensures { result ≡ cond (leb 1 i && leb i 64) (absorb n i state v) state }
{
    match i {
        1..=64 => moved(n, i, state, v),
        _ => state,
    }
}
