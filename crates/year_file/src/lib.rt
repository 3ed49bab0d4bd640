// The file of a year: its contents, and the bodies of its months.
#![tactic(auto)]

pub mod body;
pub mod contents;
