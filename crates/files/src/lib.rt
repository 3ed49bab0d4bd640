// Files in and lines out, as the programs share them.
#![tactic(auto)]

pub mod ended;
pub mod folder;
pub mod source;
pub mod year;
