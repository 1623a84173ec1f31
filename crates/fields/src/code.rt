// Codes: what is left of a field, and whether it is a code.
ghost use Rattle.std.specs.Prelude.{◌≡◌};
ghost use Rattle.sets.specs.Absent.{unless_zero};
ghost use Rattle.text.specs.Plan.{code};
ghost use Rattle.fields.specs.Measure.{length_of};

use sets::limits::CODE;

// How many bytes the field's code has, from 1 to 12: what is left without the spaces at the field's end. From its end on, so that
// each byte is looked at once.
pub fn code_len(field: &[u8]) -> Option<usize>
    ensures { result ≡ unless_zero (length_of (code field.now)) }
{
    let spaces = field.iter().rev().position(|b| *b != b' ')?;
    let n = field.len() - spaces;
    if n > CODE {
        return None;
    }
    Some(n)
}
