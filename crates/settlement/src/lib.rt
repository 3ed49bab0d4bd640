// A contract year settled from its two texts, month by month.
#![tactic(auto)]

pub mod better;
pub mod body;
pub mod fault;
pub mod lines;
pub mod month;
pub mod refused;
pub mod run;
pub mod start;
