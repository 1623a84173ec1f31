// A code in hand. It stands in a cell, as the C interface hands it out: its bytes in front, and 0 behind them. A cell points nowhere, so a
// table of codes begins as zeros, which is one fill.
ghost use Rattle.std.specs.Prelude.{◌≡◌, ◌≤◌, length};
ghost use Rattle.text.specs.Limits.{most_code};
ghost use Rattle.text.specs.Text as Text;
ghost use Rattle.text.specs.Buffers.{padded};
ghost use Rattle.plan.specs.Key.{key_on};

use crate::buffers::put;
use sets::limits::CODE;
use std::marker::Model;

// A code is seen as its bytes alone.
#[derive(Drop, Default)]
pub(super) struct Code {
    cell: [u8; CODE],
    len: u8,
}

impl Model for Code {
    ghost use Rattle.std.specs.Prelude.{ℕ, List, ◌≡◌, ◌≤◌, take};
    ghost use Rattle.text.specs.Limits.{most_code};
    ghost use Rattle.text.specs.Buffers.{padded};

    ghost Value = { List ℕ };

    ghost view = { λ c. take c.len c.cell };

    ghost invariant = { λ c. (c.len ≤ most_code) × (c.cell ≡ padded most_code (take c.len c.cell)) };
}

// The key of a code, which tells most codes apart: its last eight bytes. Not by from_be_bytes: a code may have fewer.
#[tactic(auto, using(crate::proofs::Keys::keyed))]
pub(super) fn key_of(code: &[u8]) -> u64
    ensures { result ≡ key_on 0 code.now }
{
    let mut key = 0;
    for b in code {
        key = key % 0x100_0000_0000_0000 * 256 + u64::from(*b);
    }
    key
}

impl Code {
    // The code of these bytes.
    #[tactic(auto, using(crate::proofs::Cells::cells))]
    pub(super) fn new(bytes: &[u8]) -> Self
        requires { length bytes.now ≤ most_code }
        ensures { result ≡ bytes.now }
    {
        let mut cell = [0; CODE];
        put(bytes, &mut cell);
        Code {
            cell,
            len: bytes.len() as u8,
        }
    }

    // Its bytes.
    pub(super) fn bytes(&self) -> &[u8]
        ensures value { result.now ≡ self.now }
        ensures short { length result.now ≤ most_code }
    {
        &self.cell[..usize::from(self.len)]
    }

    // Its cell.
    pub(super) fn cell(&self) -> &[u8; CODE]
        ensures { result.now ≡ padded most_code self.now }
    {
        &self.cell
    }

    // Whether it has just these bytes.
    #[tactic(auto, using(crate::proofs::Keys::same_bytes))]
    pub(super) fn is(&self, bytes: &[u8]) -> bool
        ensures { result ≡ Text.same bytes.now self.now }
    {
        bytes == self.bytes()
    }
}
