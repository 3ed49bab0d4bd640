// The text of terms, as a file holds it.
#![tactic(auto)]

pub mod reading;
pub mod refusals;
