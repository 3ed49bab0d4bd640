// Text files: numbers read from and written into lent bytes, and the shape that the files share.
#![tactic(auto)]

mod reading;
mod writing;

pub use reading::{read_ended, read_number};
pub use writing::{put_byte, put_number};
