// From level to level, and then the gathering: where a station stands once a level gave its set, or a line was read.
#![tactic(auto)]

ghost use Rattle.std.specs.Prelude.{◌≡◌};
ghost use Rattle.method.specs.Steps.{gather, climb};

use method::{Reading, Round, Side, State};
use sets::mask;

// The lines of the stations in S up to i are read, and gave these stocks.
#[tactic(auto, using(crate::proofs::Ways::gathering))]
pub fn gathered(set: u64, i: u8, stocks: u64) -> State
    ensures { result ≡ gather set i stocks }
{
    match mask::member_after(set, i) {
        Some(station) => State::Gathering {
            set,
            station,
            stocks,
        },
        None => State::Settled { set, stocks },
    }
}

// Level k of n gave S: on to the next level, or to the gathering.
#[tactic(auto, using(crate::proofs::Ways::climbing))]
pub fn climbed(n: u8, k: u8, set: u64) -> State
    ensures { result ≡ climb n k set }
{
    if k < n {
        State::Uniting {
            level: k + 1,
            own: Reading { set, known: 0 },
            other: Reading { set: 0, known: 0 },
            side: Side::Own,
            round: Round::First,
        }
    } else {
        gathered(set, 0, 0)
    }
}
