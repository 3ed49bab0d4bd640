// The settlement book of one plant for one contract year.
#![tactic(auto)]

pub mod book;
pub mod compare;
pub mod comparison;
pub mod line;
pub mod refusals;
pub mod refused;
mod settled;
pub mod table;
