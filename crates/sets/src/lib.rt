// Sets of stations and of stocks as 64-bit masks, and the arrays of a level.

#![tactic(auto)]

// The limits, named once for all code.
pub mod limits;

// A set: its size, its members, a union.
pub mod mask;

// The arrays that a level is cut into.
pub mod arrays;

// What is returned for a refusal.
pub mod placed;
