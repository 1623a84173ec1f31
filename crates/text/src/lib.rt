// The plan text: the types of what is read, and the number of a refusal. The definitions over them are in specs/.
#![tactic(auto)]

ghost use Rattle.std.specs.Prelude.{◌≡◌};
ghost use Rattle.text.specs.Refusal.{number_of};

// The rows of the table in MODEL 8, each with its number there.
#[derive(Clone, Copy, Debug, PartialEq, Eq)]
pub enum Fault {
    // 11: the text has more than 32,768 bytes
    LongText,
    // 12: there is no line 1, or it is not GANG and one number from 1 to 16
    BadFirstLine,
    // 13: a byte of the line is neither a tab nor one from 20 to 7E hex
    StrayByte,
    // 14: a line after the first starts with some other field
    OtherWord,
    // 15: HAS has fewer than two fields behind it, or TURN has none
    FewFields,
    // 16: a station is not a number from 1 to n
    BadStation,
    // 17: without the spaces at its end, a code has more than 12 bytes or none
    BadCode,
    // 18: it would be stock number 65
    MoreStocks,
    // 19: it would be turn number 4,097
    MoreTurns,
}

// A plan that was read, by its counts.
#[derive(Clone, Copy, Debug, PartialEq, Eq)]
pub struct Counts {
    pub stations: u8,
    pub stocks: usize,
    pub turns: usize,
}

// The one refusal of a plan, at its place.
#[derive(Clone, Copy, Debug, PartialEq, Eq)]
pub struct Refusal {
    pub fault: Fault,
    pub place: usize,
}

// The first field of a later line.
#[derive(Clone, Copy, Debug, PartialEq, Eq)]
pub enum Word {
    Has,
    Turn,
    Other,
}

// The number of a refusal in the table of MODEL 8.
impl From<Fault> for u8 {
    ghost from_gives = { λ fault number. number ≡ number_of fault };

    #[tactic(auto, unfolding(crate::specs::Refusal::number_of))]
    fn from(fault: Fault) -> u8 {
        match fault {
            Fault::LongText => 11,
            Fault::BadFirstLine => 12,
            Fault::StrayByte => 13,
            Fault::OtherWord => 14,
            Fault::FewFields => 15,
            Fault::BadStation => 16,
            Fault::BadCode => 17,
            Fault::MoreStocks => 18,
            Fault::MoreTurns => 19,
        }
    }
}
