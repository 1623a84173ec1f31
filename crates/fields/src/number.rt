// Numbers: decimal, without leading zero.
ghost use Rattle.std.specs.Prelude.{◌≡◌};
ghost use Rattle.sets.specs.Absent.{unless_zero};
ghost use Rattle.text.specs.Number.{number_to};

// The number from 1 to `hi` that the field is. Once the value is past `hi` no digit brings it back.
#[tactic(auto, using(crate::proofs::Digits::digits))]
pub fn number(field: &[u8], hi: u8) -> Option<u8>
    ensures { result ≡ unless_zero (number_to hi field.now) }
{
    let (first, rest) = field.split_first()?;
    let mut v = match first {
        b'1'..=b'9' => u32::from(first - b'0'),
        _ => return None,
    };
    let most = u32::from(hi);
    for b in rest {
        if !b.is_ascii_digit() || v > most {
            return None;
        }
        v = v * 10 + u32::from(b - b'0');
    }
    if v > most {
        return None;
    }
    Some(v as u8)
}
