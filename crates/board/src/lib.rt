// The run record before the first turn.
#![tactic(auto)]

// The number of levels, and the record.
pub mod start;
