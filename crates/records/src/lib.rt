// The half-hour records of a plant.
#![tactic(auto)]

pub mod order;
pub mod slot;
