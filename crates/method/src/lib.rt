// The types of the model: what a station keeps to itself, what it does next, and the run record with the board.
// The definitions over them are in specs/; there is no code here.
#![tactic(auto)]

use sets::limits::{LEVELS, STATIONS};

// A level of the board: a row of 16 registers that hold sets of stations.
#[derive(Clone, Copy)]
pub struct Level {
    pub sets: [u64; STATIONS],
}

// How far the reading of an array has come: the set M in hand, and how many of the array's first registers are known to be filled.
#[derive(Clone, Copy)]
pub struct Reading {
    pub set: u64,
    pub known: u32,
}

// Which of its two arrays a union is at.
#[derive(Clone, Copy)]
pub enum Side {
    Own,
    Other,
}

// Which reading of the two arrays this is: the first one; one again, in which neither has changed so far; one again in which one has.
#[derive(Clone, Copy)]
pub enum Round {
    First,
    Unchanged,
    Changed,
}

// Where a station is in its steps.
#[derive(Clone, Copy)]
pub enum State {
    NotBegun {
        stocks: u64,
    },
    Uniting {
        level: u8,
        own: Reading,
        other: Reading,
        side: Side,
        round: Round,
    },
    Gathering {
        set: u64,
        station: u8,
        stocks: u64,
    },
    Settled {
        set: u64,
        stocks: u64,
    },
}

// A station's row: where it is, and the number of turns that named it while it had not settled.
#[derive(Clone, Copy)]
pub struct Row {
    pub state: State,
    pub count: u16,
}

// One register operation, in the paper's numbers: levels, arrays, registers and stations from 1.
#[derive(Clone, Copy)]
pub enum Op {
    Post {
        stocks: u64,
    },
    Write {
        level: u8,
        array: u32,
        register: u32,
        set: u64,
    },
    Read {
        level: u8,
        array: u32,
        register: u32,
    },
    ReadLine {
        station: u8,
    },
    Rest,
}

// The run record: the station count n, the number of levels N, the board, the posting lines and the stations' rows. A posting line X is the set of
// stocks that was written to it, which may be empty, or `None` before it is written.
// Lines and rows stand apart: a line is a register that every station may read, a row is its station's own.
#[derive(Drop)]
pub struct Run {
    pub stations: u8,
    pub depth: u8,
    pub board: [Level; LEVELS],
    pub lines: [Option<u64>; STATIONS],
    pub rows: [Row; STATIONS],
}

// What a turn was.
#[derive(Clone, Copy)]
pub enum Did {
    Operation,
    Idle,
    // It would have read a line that was never written, and changed nothing.
    Unwritten,
    // Its number is no station of the run, and it changed nothing.
    Nobody,
}

// A turn's outcome.
#[derive(Drop)]
pub struct Turned {
    pub run: Run,
    pub did: Did,
}
