// What gangrun prints, line by line, on a page that has room for the longest report.
#![tactic(auto)]

// Room for the longest report.
pub const PAGE: usize = 2310;

// The page, and the fields of a line.
pub mod fields;

// The lines, and the one of a refusal.
pub mod lines;

// The report.
pub mod listing;
