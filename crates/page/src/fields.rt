// The page, and the fields of a line put on it.
ghost use Rattle.std.specs.Prelude.{◌≡◌, ◌≤◌, [], ◌∷◌, map};
ghost use Rattle.page.specs.Digits.{decimal, hex};
ghost use Rattle.page.specs.Lines.{line};
ghost use Rattle.page.specs.Page.{put_behind, field_shown};

use super::PAGE;
use answer::shown::Shown;
use arrayvec::ArrayVec;
use itoa::Buffer;
use std::io::Write;
use std::marker::Model;

// What is printed so far. There is room for every report, so nothing says how much is left: what has no room is cut off, and in one
// place it is proved that nothing is cut off a new page.
#[derive(Drop)]
pub struct Page {
    text: ArrayVec<u8, PAGE>,
}

// To a contract a page is what stands on it.
impl Model for Page {
    ghost use Rattle.std.specs.Prelude.{List, ℕ};

    ghost Value = { List ℕ };

    ghost view = { λ page. page.text.items };
}

// A field of a line, behind its word. A set is shown once it has settled.
#[derive(Clone, Copy)]
pub(super) enum Field<'a> {
    Code(&'a [u8]),
    Number(u16),
    Stations(Shown),
    Stocks(Shown),
}

impl Page {
    // An empty page.
    pub fn new() -> Page
        ensures { result ≡ [] }
    {
        Page {
            text: ArrayVec::new(),
        }
    }

    // What stands on it.
    pub fn as_bytes(&self) -> &[u8]
        ensures { result.now ≡ self.now }
    {
        self.text.as_slice()
    }

    // Puts these bytes. The library's write takes as many as have room, and never fails.
    #[tactic(auto, using(crate::proofs::Laying::written))]
    fn put(&mut self, bytes: &[u8])
        ensures { self.new ≡ put_behind self.old bytes.now }
    {
        let _count = self.text.write(bytes);
    }

    // Puts one byte, where it has room.
    #[tactic(auto, using(crate::proofs::Laying::pushed))]
    fn put_byte(&mut self, byte: u8)
        ensures { self.new ≡ put_behind self.old (byte ∷ []) }
    {
        let _fits = self.text.try_push(byte);
    }

    // Puts a number in decimal. Not by write!: its contract does not say when it succeeds, and a report cannot fail.
    #[tactic(auto, using(crate::proofs::Numerals::decimal_is))]
    fn put_number(&mut self, x: u16)
        ensures { self.new ≡ put_behind self.old (decimal x) }
    {
        let mut buffer = Buffer::new();
        self.put(buffer.format(x).as_bytes());
    }

    // Puts the last w of a set's sixteen hex digits.
    #[tactic(auto, using(crate::proofs::Numerals::hex_given))]
    fn put_hex(&mut self, w: usize, set: u64)
        requires { w ≤ 16 }
        ensures { self.new ≡ put_behind self.old (hex w set) }
    {
        let mut digits = [0u8; 16];
        let _fits = hex::encode_to_slice(set.to_be_bytes(), &mut digits);
        self.put(&digits[16 - w..]);
    }

    // Puts a field.
    fn put_field(&mut self, field: Field)
        ensures { self.new ≡ put_behind self.old (field_shown field.entry) }
    {
        match field {
            Field::Code(bytes) => self.put(bytes),
            Field::Number(x) => self.put_number(x),
            Field::Stations(Shown::Settled { stations, .. }) => self.put_hex(4, stations),
            Field::Stocks(Shown::Settled { stocks, .. }) => self.put_hex(16, stocks),
            Field::Stations(_) | Field::Stocks(_) => self.put_byte(b'-'),
        }
    }

    // Puts a line: its word, and its fields, each with a tab in front.
    pub(super) fn put_line(&mut self, word: &[u8], fields: &[Field])
        ensures { self.new ≡ put_behind self.old (line (word.now ∷ map field_shown fields.now)) }
    {
        self.put(word);
        for field in fields {
            self.put_byte(b'\t');
            self.put_field(*field);
        }
        self.put_byte(b'\n');
    }
}
