// The reader of a plan: a window on the lent text with a place in it. Few functions go over it, each thin: they make it, move it to
// another place, or leave the work to a scan of the slice from the place. `line_end` and `field_end` go through it from a plain slice
// and a place, so that who cuts lines and fields holds slices alone. The place stands beside the text, not a slice cut there: the
// clauses of these two speak of a place, and the reader is a window with a place in it.
ghost use Rattle.std.specs.Prelude.{◌≡◌, ℕ, Bool};
ghost use Rattle.text.specs.Text as Text;
ghost use Rattle.fields.specs.Window.{no_tab, end_of, Tests};

use super::scan;

#[derive(Clone, Copy)]
pub struct Reader<'a> {
    pub text: &'a [u8],
    pub at: usize,
}

impl<'a> Reader<'a> {
    // A reader at the start of the text.
    fn new(text: &'a [u8]) -> Self
        ensures text { result.text ≡ text.entry }
        ensures at { result.at ≡ 0 }
    {
        Reader { text, at: 0 }
    }

    // The reader at another place of its text.
    fn moved(self, at: usize) -> Self
        ensures text { result.text ≡ self.entry.text }
        ensures at { result.at ≡ at }
    {
        Reader { at, ..self }
    }

    // The reader at the end of the bytes that pass the test.
    fn to_end<F: Fn(u8) -> bool>(self, pass: F) -> Self
        requires { F.IsAlwaysCallable pass }
        ensures text { result.text ≡ self.entry.text }
        ensures at { (test : ℕ → Bool) → Tests (F.post pass) test → result.at ≡ end_of test self.entry.text.now self.entry.at }
    {
        Reader {
            at: scan::end_of(self.text, self.at, pass),
            ..self
        }
    }
}

// Where the bytes that a line may hold end, from `at` on: at the line's end, if the line holds no other.
pub fn line_end(text: &[u8], at: usize) -> usize
    ensures { result ≡ end_of Text.fine text.now at }
{
    Reader::new(text).moved(at).to_end(scan::fine).at
}

// Where the field at `at` ends: at its tab, or at the line's end.
pub fn field_end(line: &[u8], at: usize) -> usize
    ensures { result ≡ end_of no_tab line.now at }
{
    Reader::new(line).moved(at).to_end(|b| b != b'\t').at
}
