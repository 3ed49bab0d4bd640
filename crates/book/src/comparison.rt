// What a comparison of two books answers.
ghost use Rattle.std.specs.Prelude.{Some};
ghost use Rattle.book.specs.Comparing.{sums_text};

use std::fmt;

// What some months were charged, and their net, in yen.
#[derive(Clone, Copy, Debug, PartialEq, Eq)]
pub struct Sums {
    pub charged: u64,
    pub net: i64,
}

impl fmt::Display for Sums {
    ghost output = { λ sums. Some (sums_text sums) };

    fn fmt<W: fmt::Write>(&self, f: &mut fmt::Formatter<W>) -> fmt::Result {
        write!(f, "charged {}, net {}", self.charged, self.net)
    }
}

// How many months both books have settled, and the sums of each over them.
#[derive(Clone, Copy, Debug, PartialEq, Eq)]
pub struct Comparison {
    pub months: u8,
    pub first: Sums,
    pub second: Sums,
}
