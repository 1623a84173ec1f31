// The registers and the lines of the record. One that is not on the record is empty, or was never written, and stays so.
// A register is named by level, array and register apart, as the definitions name it. How many levels the board has is what the record's type
// says; without the clause the proof does not close where the record has not been read yet.
ghost use Rattle.std.specs.Prelude.{◌≡◌, length, slice_index, slice_set};
ghost use Rattle.method.specs.Board.{levels, line_of, register_of, with_register};

use super::places::index_of;
use method::Run;
use sets::arrays;
use sets::limits::LEVELS;

// What a level's row holds at an index.
#[tactic(auto, using(crate::proofs::Holding::within))]
fn held(sets: &[u64], at: usize) -> u64
    ensures { result ≡ slice_index sets.now at }
{
    sets.get(at).copied().unwrap_or(0)
}

// The set is put at an index of a level's row, if there is one. By a test, as the library's `get_mut` does not say what the row ends as.
#[tactic(auto, using(crate::proofs::Holding::outside))]
fn put(sets: &mut [u64], at: usize, set: u64)
    ensures { sets.new ≡ slice_set sets.old at set }
{
    if at < sets.len() {
        sets[at] = set;
    }
}

// What register j of array c at level k holds.
#[tactic(auto, using(crate::proofs::Holding::reads))]
pub fn register_of(run: &Run, k: u8, c: u32, j: u32) -> u64
    requires { length run.now.board ≡ levels }
    ensures { result ≡ register_of run.now k c j }
{
    let Some(place) = arrays::place_of(k, c, j) else {
        return 0;
    };
    let level = index_of(u64::from(k));
    if level < LEVELS {
        held(&run.board[level].sets, index_of(place))
    } else {
        0
    }
}

// The set is put in register j of array c at level k.
#[tactic(auto, using(crate::proofs::Holding::writes))]
pub fn put_register(run: &mut Run, k: u8, c: u32, j: u32, set: u64)
    requires { length run.old.board ≡ levels }
    ensures { run.new ≡ with_register run.old k c j set }
{
    let Some(place) = arrays::place_of(k, c, j) else {
        return;
    };
    let level = index_of(u64::from(k));
    if level < LEVELS {
        put(&mut run.board[level].sets, index_of(place), set);
    }
}

// Station j's line.
#[tactic(auto, unfolding(method::specs::Board::line_of))]
pub fn line_of(run: &Run, j: u8) -> Option<u64>
    ensures { result ≡ line_of run.now j }
{
    run.lines.get(index_of(u64::from(j))).copied().flatten()
}
