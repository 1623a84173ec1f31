// Reading an array from a set M, of which the first `known` registers are known to be filled.
// Functions and not methods: the type stands with the method's definitions, in a crate that holds no code, and a trait of one type's methods
// would be no plainer.
ghost use Rattle.std.specs.Prelude.{◌≡◌, true};
ghost use Rattle.method.specs.Steps.{writing, pending, reach, wrote, found};

use method::{Op, Reading};
use sets::{arrays, mask};

// Whether M is still to be written to a register that is not known to be filled.
#[tactic(auto, unfolding(method::specs::Steps::writing))]
pub fn is_writing(r: Reading) -> bool
    ensures { result ≡ writing r }
{
    r.known < mask::size_of(r.set)
}

// Whether the reading has an operation left: the array has no more registers than M has stations otherwise.
#[tactic(auto, using(crate::proofs::Ways::pends))]
pub fn is_pending(k: u8, r: Reading) -> bool
    ensures { result ≡ pending k r }
{
    is_writing(r) || mask::size_of(r.set) < arrays::array_length(k)
}

// The reading's next operation, on array c of level k.
#[tactic(auto, using(crate::proofs::Ways::reaches))]
pub fn reach(k: u8, c: u32, r: Reading) -> Op
    ensures { result ≡ reach k c r }
{
    if is_writing(r) {
        Op::Write {
            level: k,
            array: c,
            register: r.known + 1,
            set: r.set,
        }
    } else {
        Op::Read {
            level: k,
            array: c,
            register: mask::size_of(r.set) + 1,
        }
    }
}

// The reading after M was written to one more register.
#[tactic(auto, using(crate::proofs::Ways::known_fits))]
pub fn wrote(r: Reading) -> Reading
    requires { writing r ≡ true }
    ensures { result ≡ wrote r }
{
    Reading {
        known: r.known + 1,
        ..r
    }
}

// The reading after T was read.
pub fn found(r: Reading, t: u64) -> Reading
    ensures { result ≡ found r t }
{
    Reading {
        set: t,
        known: mask::size_of(r.set) + 1,
    }
}
