// What comes of a run call: a result, or the one refusal that is first in the table's order.
#![tactic(auto)]

ghost use Rattle.std.specs.Prelude.{◌≡◌, Err};
ghost use Rattle.verdict.specs.Refusals.{number_of};

// The refusals before the first turn.
pub mod tests;

use sets::placed::with_place;

// The rows of the table in MODEL 7. A turn is named by its place, counted from 0.
#[derive(Clone, Copy, Debug, PartialEq, Eq)]
pub enum Refusal {
    BadStationCount,
    BadInputBytes,
    TooManyTurns,
    BadTurn { at: u16 },
    ShortAnswer,
    UnwrittenLine { at: u16 },
}

// Its number: the refusal plus 100 times its place.
impl From<Refusal> for u32 {
    ghost from_gives = { λ refusal number. number ≡ number_of (Err refusal) };

    fn from(refusal: Refusal) -> u32 {
        let (number, place) = match refusal {
            Refusal::BadStationCount => (1, 0),
            Refusal::BadInputBytes => (2, 0),
            Refusal::TooManyTurns => (3, 0),
            Refusal::BadTurn { at } => (4, at),
            Refusal::ShortAnswer => (5, 0),
            Refusal::UnwrittenLine { at } => (6, at),
        };
        with_place(number, place)
    }
}

// The number that a call with this outcome returns: 0, or its refusal's.
pub fn number_of(outcome: Result<(), Refusal>) -> u32
    ensures { result ≡ number_of outcome }
{
    match outcome {
        Ok(()) => 0,
        Err(refusal) => refusal.into(),
    }
}
