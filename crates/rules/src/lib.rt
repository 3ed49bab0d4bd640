// Assessment rules: how many units a half hour is short, and what that comes to over a month.
#![tactic(auto)]

pub mod assessed;
pub mod assessment;
pub mod month;
pub mod rule;
pub mod standard;
