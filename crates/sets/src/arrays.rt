// A level's arrays: MODEL 2 and 3. Levels, arrays and registers are counted from 1.
ghost use Rattle.std.specs.Prelude.{◌≡◌, ◌+◌, ◌-◌, ◌≤◌, min, cond, leb, Some, None};
ghost use Rattle.sets.specs.Arrays.{array_length, own_array, other_array, place};

// The length of level k's arrays. No level from 9 on is on any board, and no station number passes 255, so 256 stands for more. The clause has it
// so: the length is a number of registers for every level.
#[tactic(auto, using(crate::proofs::Spans::lengths), unfolding(crate::specs::Arrays::array_length))]
pub fn array_length(k: u8) -> u32
    ensures { result ≡ min (array_length k) 256 }
{
    match k {
        0 => 1,
        1..=8 => 1 << (k - 1),
        _ => 256,
    }
}

// The array of level k that serves station i.
#[tactic(auto, using(crate::proofs::Spans::rounding))]
pub fn own_array(k: u8, i: u8) -> u32
    ensures { result ≡ own_array k i }
{
    u32::from(i).div_ceil(array_length(k))
}

// The array beside it, over which the two are united; beside 0, which no array is, 0, as the definition has it.
#[tactic(auto, using(crate::proofs::Spans::beside))]
pub fn other_array(k: u8, i: u8) -> u32
    ensures { result ≡ other_array k i }
{
    let own = own_array(k, i);
    if own % 2 == 1 {
        own + 1
    } else {
        own.saturating_sub(1)
    }
}

// Where register j of array c stands in the row of level k, from 1; nowhere on a level from 9 on, which is on no board.
#[tactic(auto, using(crate::proofs::Spans::placed))]
pub fn place_of(k: u8, c: u32, j: u32) -> Option<u64>
    ensures { result ≡ cond (leb k 8) (Some (place k c j)) None }
{
    if 8 < k {
        return None;
    }
    let before = u64::from(c.saturating_sub(1));
    Some(before * u64::from(array_length(k)) + u64::from(j))
}
