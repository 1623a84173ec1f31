// The lines of a text, and the fields of a line, from the left.
ghost use Rattle.std.specs.Prelude.{◌≡◌, ◌≤◌, ◌↔◌, IsTrue, IfOk, []};
ghost use Rattle.std.specs.Result.{MatchResult};
ghost use Rattle.std.specs.Iterator.{YieldsFirstRef, item_count};
ghost use Rattle.sets.specs.Absent.{unless_zero};
ghost use Rattle.text.specs.Text.{fields_of};
ghost use Rattle.text.specs.Plan.{word_of, gang_of, station};
ghost use Rattle.plan.specs.Left.{fields_left, Cut, Strayed};
ghost use Rattle.plan.specs.Outs.{gave};

use fields::number::number;
use fields::reader::{field_end, line_end};
use sets::limits::LAST_STATION;
use text::{Fault, Word};

// The first line of the text, and the text behind it. It is refused if it holds a byte that no line may hold.
#[tactic(auto, using(crate::proofs::Cuts::cuts))]
pub(super) fn first_line<'a>(text: &'a [u8]) -> Result<(&'a [u8], &'a [u8]), Fault>
    ensures { MatchResult result (λ cut. Cut text.entry.now cut.0.now cut.1.now) (λ fault. Strayed text.entry.now fault) }
{
    let (line, behind) = text.split_at(line_end(text, 0));
    match behind.split_first() {
        None => Ok((line, behind)),
        Some((b'\n', rest)) => Ok((line, rest)),
        Some(_) => Err(Fault::StrayByte),
    }
}

// The first field of a later line. It is compared word by word: a `match` on the bytes parts into a case for each byte to prove.
#[tactic(auto, using(crate::proofs::Keys::same_bytes), unfolding(text::specs::Plan::word_of))]
pub(super) fn word(field: &[u8]) -> Word
    ensures { result ≡ word_of field.now }
{
    if field == b"HAS".as_slice() {
        Word::Has
    } else if field == b"TURN".as_slice() {
        Word::Turn
    } else {
        Word::Other
    }
}

// n, where the line is `GANG` and one number from 1 to 16.
#[tactic(auto, using(crate::proofs::Keys::same_bytes), unfolding(text::specs::Plan::gang_of))]
pub(super) fn gang(line: &[u8]) -> Option<u8>
    ensures { result ≡ unless_zero (gang_of (fields_of line.now)) }
{
    let mut fields = Fields::new(line);
    let word = fields.next()?;
    let field = fields.next()?;
    if word != b"GANG".as_slice() {
        return None;
    }
    if !fields.is_empty() {
        return None;
    }
    number(field, LAST_STATION)
}

// The station that the field names, of so many.
#[tactic(auto, unfolding(text::specs::Plan::station))]
pub(super) fn station(stations: u8, field: &[u8]) -> Result<u8, Fault>
    ensures gives { gave result ≡ station stations field.now }
    ensures named { IfOk result (λ i. (1 ≤ i) × (i ≤ stations)) }
{
    number(field, stations).ok_or(Fault::BadStation)
}

// The fields of a line that are still to come: they stand in the rest of the line, if it has one.
#[derive(Drop)]
pub(super) struct Fields<'a> {
    rest: Option<&'a [u8]>,
}

impl<'a> Fields<'a> {
    // All fields of the line.
    pub(super) fn new(line: &'a [u8]) -> Self
        ensures { fields_left result ≡ fields_of line.entry.now }
    {
        Fields { rest: Some(line) }
    }

    // Whether no field is left.
    pub(super) fn is_empty(&self) -> bool
        ensures { IsTrue result ↔ (fields_left self.now ≡ []) }
    {
        self.rest.is_none()
    }
}

impl<'a> Iterator for Fields<'a> {
    type Item = &'a [u8];

    ghost next_gives = { YieldsFirstRef fields_left };

    ghost remaining = { item_count fields_left };

    #[tactic(auto, using(crate::proofs::Cuts::cuts))]
    fn next(&mut self) -> Option<&'a [u8]> {
        let rest = self.rest?;
        let (field, behind) = rest.split_at(field_end(rest, 0));
        self.rest = behind.get(1..);
        Some(field)
    }
}
