// The limits: MODEL 1 and 2. The definitions name them in specs/Limits.antt.

// Stations, as a count and as the last station's number. A level has a register for each, and the record a line and a row.
pub const STATIONS: usize = 16;

pub const LAST_STATION: u8 = 16;

// Levels of the board.
pub const LEVELS: usize = 4;

// Stocks of a plan.
pub const STOCKS: usize = 64;

// Turns of a run or a plan.
pub const TURNS: usize = 4096;

// Bytes of a plan text.
pub const BYTES: usize = 32768;

// Bytes of a code, without the spaces at its end.
pub const CODE: usize = 12;

// Bytes of the cells for all codes.
pub const CELLS: usize = STOCKS * CODE;
