// Every call for a program in C, each thin over the library's own function. include/gang.h declares them.
#![tactic(auto)]

// A run from bytes.
pub mod run_call;

// A plan text into a caller's arrays.
pub mod plan_call;
