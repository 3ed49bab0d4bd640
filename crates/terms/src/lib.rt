// The terms of a contract year, and the same once they are priced.
#![tactic(auto)]

pub mod contract;
pub mod figures;
mod fraction;
pub mod pricing;
pub mod ranges;
pub mod refusals;
pub mod terms;
