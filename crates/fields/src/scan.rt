// A scan over a slice from a place on.
ghost use Rattle.std.specs.Prelude.{◌≡◌, ℕ, Bool};
ghost use Rattle.text.specs.Text as Text;
ghost use Rattle.fields.specs.Window as Window;
ghost use Rattle.fields.specs.Window.{Tests};

// Whether a line may hold the byte.
pub(super) fn fine(b: u8) -> bool
    ensures { result ≡ Text.fine b }
{
    matches!(b, b'\t' | b' '..=b'~')
}

// Where the bytes that pass the test end, from `at` on.
pub(super) fn end_of<F: Fn(u8) -> bool>(text: &[u8], at: usize, pass: F) -> usize
    requires { F.IsAlwaysCallable pass }
    ensures { (test : ℕ → Bool) → Tests (F.post pass) test → result ≡ Window.end_of test text.now at }
{
    let Some(rest) = text.get(at..) else {
        return at;
    };
    at + rest.iter().position(|b| !pass(*b)).unwrap_or(rest.len())
}
