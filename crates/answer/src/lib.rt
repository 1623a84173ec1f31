// The answer: what is shown of a station's state, and its twenty bytes.
#![tactic(auto)]

// A station's state, as it is shown.
pub mod shown;

// The rows as answer bytes.
pub mod told;
