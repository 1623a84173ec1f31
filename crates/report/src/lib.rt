// What gangrun prints: from a plan's text to the printed text, in a buffer that the caller lends.
#![tactic(auto)]

// The lent buffer has no room for the text.
#[derive(Clone, Copy, Debug, PartialEq, Eq)]
pub struct TooSmall;

mod taken;

// The one call: plan text to report text.
pub mod whole;
