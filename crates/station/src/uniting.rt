// The union over two arrays: own and other are read until two readings of both agree.
ghost use Rattle.std.specs.Prelude.{◌≡◌};
ghost use Rattle.method.specs.Steps.{again, round_over, changed, next_op};

use super::reading::{found, is_pending, is_writing, reach, wrote};
use climbing::climbed;
use method::{Op, Reading, Round, Side, State};
use sets::{arrays, mask};

// The round in which something was found.
fn changed_round(round: Round) -> Round
    ensures { result ≡ changed round }
{
    match round {
        Round::First => Round::First,
        Round::Unchanged | Round::Changed => Round::Changed,
    }
}

// A union that is under way: what a station's state holds of it. The definitions have these as the parts of a state, which a pattern cannot bind
// as one; here they travel together.
#[derive(Clone, Copy)]
pub struct Union {
    pub level: u8,
    pub own: Reading,
    pub other: Reading,
    pub side: Side,
    pub round: Round,
}

impl Union {
    ghost use Rattle.station.specs.Hand.{state_of, in_hand, with_reading, agreed, reading_over, read_on, brought, absorb_union};

    // The state of a station that goes on with this union, at that side.
    fn at(self, side: Side) -> State
        ensures { result ≡ State.Uniting self.level self.own self.other side self.round }
    {
        State::Uniting {
            level: self.level,
            own: self.own,
            other: self.other,
            side,
            round: self.round,
        }
    }

    // The reading in hand.
    fn in_hand(self) -> Reading
        ensures { result ≡ in_hand self }
    {
        match self.side {
            Side::Own => self.own,
            Side::Other => self.other,
        }
    }

    // The union with this reading in hand.
    fn with_reading(self, reading: Reading) -> Union
        ensures { result ≡ with_reading self reading }
    {
        match self.side {
            Side::Own => Union {
                own: reading,
                ..self
            },
            Side::Other => Union {
                other: reading,
                ..self
            },
        }
    }

    // Of n levels: own and other are as they were read, and on goes the climb.
    fn agreed(self, n: u8) -> State
        ensures { result ≡ agreed n self }
    {
        climbed(n, self.level, mask::union_of(self.own.set, self.other.set))
    }

    // Own and other are read again.
    #[tactic(auto, unfolding(method::specs::Steps::again))]
    fn read_again(self, n: u8) -> State
        ensures { result ≡ again n self.level self.own self.other }
    {
        let again = Union {
            round: Round::Unchanged,
            ..self
        };
        if is_pending(self.level, self.own) {
            again.at(Side::Own)
        } else if is_pending(self.level, self.other) {
            again.at(Side::Other)
        } else {
            self.agreed(n)
        }
    }

    // Own and other have been read in this round.
    #[tactic(auto, unfolding(method::specs::Steps::round_over))]
    fn round_over(self, n: u8) -> State
        ensures { result ≡ round_over n self.level self.own self.other self.round }
    {
        match self.round {
            Round::First | Round::Changed => self.read_again(n),
            Round::Unchanged => self.agreed(n),
        }
    }

    // The reading in hand is over: after the own array comes the other, unless it is known in full.
    // Inlined, as a call hands the union over in memory: in a trial the run call of 4,096 turns took 225,943 instructions without, 175,660 with it.
    #[tactic(auto, unfolding(method::specs::Steps::read_other))]
    #[inline]
    fn reading_over(self, n: u8) -> State
        ensures { result ≡ reading_over n self }
    {
        match self.side {
            Side::Own if is_pending(self.level, self.other) => self.at(Side::Other),
            _ => self.round_over(n),
        }
    }

    // The union after its operation brought v; none where the reading in hand is over, as an empty register was read.
    fn brought(self, v: u64) -> Option<Union>
        ensures { result ≡ brought self v }
    {
        let reading = self.in_hand();
        if is_writing(reading) {
            Some(self.with_reading(wrote(reading)))
        } else if v == 0 {
            None
        } else {
            let read = Union {
                round: changed_round(self.round),
                ..self
            };
            Some(read.with_reading(found(reading, v)))
        }
    }

    // The reading in hand goes on, if it has an operation left.
    #[tactic(auto, using(crate::proofs::Ways::goes_on))]
    fn read_on(self, n: u8) -> State
        ensures { result ≡ read_on n self }
    {
        if is_pending(self.level, self.in_hand()) {
            self.at(self.side)
        } else {
            self.reading_over(n)
        }
    }

    // The state after an operation of the union brought v.
    #[tactic(auto, using(crate::proofs::Ways::absorbs))]
    pub fn absorbed(self, n: u8, v: u64) -> State
        ensures { result ≡ absorb_union n self v }
    {
        match self.brought(v) {
            Some(union) => union.read_on(n),
            None => self.reading_over(n),
        }
    }

    // The union's next operation, of station i.
    #[tactic(auto, unfolding(method::specs::Steps::next_op))]
    pub fn next_op(self, i: u8) -> Op
        ensures { result ≡ next_op i (state_of self) }
    {
        match self.side {
            Side::Own => reach(self.level, arrays::own_array(self.level, i), self.own),
            Side::Other => reach(self.level, arrays::other_array(self.level, i), self.other),
        }
    }
}
