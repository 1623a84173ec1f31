// What is shown of a station's state.
ghost use Rattle.std.specs.Prelude.{◌≡◌};
ghost use Rattle.answer.specs.Answer.{shown_of, state_number, stations_shown, stocks_shown};

use method::State;

// The stations and the stocks of a settled set are shown once it has settled, and nothing of them until then.
#[derive(Clone, Copy, PartialEq, Eq, Debug)]
pub enum Shown {
    NotBegun,
    UnderWay,
    Settled { stations: u64, stocks: u64 },
}

impl Shown {
    // The settled stations and stocks; until then the answer's bytes have empty sets.
    pub(super) fn sets(self) -> (u64, u64)
        ensures stations { result.0 ≡ stations_shown self }
        ensures stocks { result.1 ≡ stocks_shown self }
    {
        match self {
            Shown::Settled { stations, stocks } => (stations, stocks),
            Shown::NotBegun | Shown::UnderWay => (0, 0),
        }
    }
}

impl From<State> for Shown {
    ghost from_gives = { λ state shown. shown ≡ shown_of state };

    fn from(state: State) -> Shown {
        match state {
            State::NotBegun { .. } => Shown::NotBegun,
            State::Uniting { .. } | State::Gathering { .. } => Shown::UnderWay,
            State::Settled { set, stocks } => Shown::Settled {
                stations: set,
                stocks,
            },
        }
    }
}

// The state's number: 0 not begun, 1 under way, 2 settled.
impl From<Shown> for u8 {
    ghost from_gives = { λ shown number. number ≡ state_number shown };

    fn from(shown: Shown) -> u8 {
        match shown {
            Shown::NotBegun => 0,
            Shown::UnderWay => 1,
            Shown::Settled { .. } => 2,
        }
    }
}
