// The lent buffers: what is handed out fills the front of each, and the rest is 0.
ghost use Rattle.std.specs.Prelude.{◌≡◌, ◌≤◌, ◌*◌, ◌++◌, length, map, drop};
ghost use Rattle.text.specs.Limits.{most_stocks, most_turns, most_code};
ghost use Rattle.text.specs.Buffers.{padded, cells_of};

use crate::code::Code;
use sets::limits::{CELLS, CODE, STOCKS, TURNS};

// The bytes, to the front of the buffer.
pub(super) fn put(bytes: &[u8], buffer: &mut [u8])
    requires { length bytes.now ≤ length buffer.old }
    ensures { buffer.new ≡ bytes.now ++ drop (length bytes.now) buffer.old }
{
    buffer[..bytes.len()].copy_from_slice(bytes);
}

// The codes in their order, each in a cell of 12 bytes, and their lengths. The buffers are lent as the C interface has them. They are
// not gone over with chunks_exact_mut and iter_mut: what is written through those is not known once their loan is over.
pub(super) fn put_codes(codes: &[Code], cells: &mut [u8; CELLS], lens: &mut [usize; STOCKS])
    requires { length codes.now ≤ most_stocks }
    ensures cells { cells.new ≡ padded (most_stocks * most_code) (cells_of codes.now) }
    ensures lens { lens.new ≡ padded most_stocks (map length codes.now) }
{
    *cells = [0; CELLS];
    *lens = [0; STOCKS];
    for (k, code) in codes.iter().enumerate() {
        put(code.cell(), &mut cells[k * CODE..(k + 1) * CODE]);
        lens[k] = code.bytes().len();
    }
}

// The turns.
#[tactic(auto, using(crate::proofs::Handed::turns_put))]
pub(super) fn put_turns(from: &[u8], turns: &mut [u8; TURNS])
    requires { length from.now ≤ most_turns }
    ensures { turns.new ≡ padded most_turns from.now }
{
    *turns = [0; TURNS];
    put(from, turns);
}
