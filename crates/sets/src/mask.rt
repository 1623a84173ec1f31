// Station or stock number i, counted from 1, is the binary digit 2^(i-1).
ghost use Rattle.std.specs.Prelude.{◌≡◌};
ghost use Rattle.sets.specs.Absent.{unless_zero};
ghost use Rattle.sets.specs.Mask.{size, union, alone_in, member_after};

// How many members the set has.
pub fn size_of(s: u64) -> u32
    ensures { result ≡ size s }
{
    s.count_ones()
}

// Those that are in one or in the other.
pub fn union_of(a: u64, b: u64) -> u64
    ensures { result ≡ union a b }
{
    a | b
}

// The set of i alone; the empty set, which is a set too, where i is not from 1 to 64.
pub fn alone(i: u8) -> u64
    ensures { result ≡ alone_in 64 i }
{
    match i {
        1..=64 => 1 << (i - 1),
        _ => 0,
    }
}

// The next member above i.
#[tactic(auto, using(crate::proofs::Absent::after))]
pub fn member_after(s: u64, i: u8) -> Option<u8>
    ensures { result ≡ unless_zero (member_after s i) }
{
    let rest = s.checked_shr(u32::from(i))?;
    if rest == 0 {
        return None;
    }
    let gap = rest.trailing_zeros() as u8;
    Some(i + gap + 1)
}
