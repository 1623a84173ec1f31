// The run call: an order of turns on a fresh board, and the answer as bytes.
#![tactic(auto)]

// The inputs, out of their bytes.
mod words;

// The call itself.
pub mod call;
