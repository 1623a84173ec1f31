// The run record before the first turn.
ghost use Rattle.std.specs.Prelude.{◌≡◌};
ghost use Rattle.method.specs.Board.{depth, fresh};

use method::{Level, Row, Run, State};
use sets::limits::{LEVELS, STATIONS};

// N: the least number with 2^N at least n. By doubling, the form that is asked for here; by leading zeros is a request of its own.
pub fn depth_of(n: u8) -> u8
    ensures { result ≡ depth n }
{
    let mut levels = 0;
    let mut reach = 1;
    while reach < u16::from(n) {
        levels += 1;
        reach *= 2;
    }
    levels
}

// The record with n stations and their inputs, nothing posted and every register empty.
pub fn fresh(n: u8, inputs: [u64; STATIONS]) -> Run
    ensures { result ≡ fresh n inputs }
{
    Run {
        stations: n,
        depth: depth_of(n),
        board: [Level {
            sets: [0; STATIONS],
        }; LEVELS],
        lines: [None; STATIONS],
        rows: inputs.map(|stocks| Row {
            state: State::NotBegun { stocks },
            count: 0,
        }),
    }
}
