// Where on the record a turn reads and writes. Indices are counted from 0.
ghost use Rattle.std.specs.Prelude.{◌≡◌, ◌-◌};
ghost use Rattle.turns.specs.Places.{seat_at};

use sets::limits::STATIONS;

// The last index of a row.
const LAST_SEAT: usize = STATIONS - 1;

// The index of station i's row. A number that is no station has the index of some row.
pub fn seat_of(i: u8) -> usize
    ensures { result ≡ seat_at i }
{
    (usize::from(i) + LAST_SEAT) % STATIONS
}

// The index of what is counted from 1.
pub fn index_of(number: u64) -> usize
    ensures { result ≡ number - 1 }
{
    number.saturating_sub(1) as usize
}
