// Lines and fields found in a text through a window on it; what a field is: a number, a code.
#![tactic(auto)]

pub mod code;
pub mod number;
pub mod reader;
pub mod scan;
