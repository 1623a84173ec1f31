// Turns on the run record, in place.
#![tactic(auto)]

// Where on the record a turn reads and writes.
mod places;

// The registers and the lines of the record.
mod cells;

// One turn.
mod turning;

// An order of turns.
pub mod playing;
