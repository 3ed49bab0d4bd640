// Statement lines: a month, or the totals as month 0, in seven numbers.
#![tactic(auto)]

mod print;
mod statement;

pub use print::print_statement;
pub use statement::{LINE_BYTES, Statement};
