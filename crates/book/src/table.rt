// The plain data of a book, which the contracts speak of.
ghost use Rattle.std.specs.Prelude.{◌≡◌, Some};
ghost use Rattle.book.specs.Calls.{notice_of};
ghost use Rattle.book.specs.Notices.{notice_text};

use crate::line::Line;
use std::fmt;
use terms::contract::PricedTerms;

#[derive(Clone, Copy, Debug, PartialEq, Eq)]
pub struct Table {
    pub(crate) terms: PricedTerms,
    // One line for each month, empty unless the month is settled or its notice is out. An array with a count and a flag:
    // all twelve lines are there from the start, without a heap, and a line is read at its month whichever it is.
    pub(crate) lines: [Line; 12],
    // how many months are settled
    pub(crate) settled: u8,
    // whether the notice of the first unsettled month is out
    pub(crate) out: bool,
    // the issue of that month's notice
    pub(crate) issue: u8,
}

impl Table {
    // What the notice of a line says.
    pub(crate) fn numbers_of(&self, line: &Line) -> NoticeNumbers
        ensures { result ≡ (notice_of self.now line.now).numbers }
    {
        let contract = self.terms.contract();
        NoticeNumbers {
            plant: contract.plant,
            year: contract.year,
            month: line.month,
            issue: line.issue,
            net: line.net,
        }
    }
}

// What a notice says.
#[derive(Clone, Copy, Debug, PartialEq, Eq)]
pub struct NoticeNumbers {
    pub plant: u32,
    pub year: u16,
    pub month: u8,
    pub issue: u8,
    pub net: i64,
}

impl fmt::Display for NoticeNumbers {
    ghost output = { λ n. Some (notice_text n) };

    fn fmt<W: fmt::Write>(&self, f: &mut fmt::Formatter<W>) -> fmt::Result {
        write!(
            f,
            "notice of plant {}, year {}, month {}, issue {}, net {} yen",
            self.plant, self.year, self.month, self.issue, self.net
        )
    }
}

// A notice that was given out. It is neither `Drop` nor `Copy`: it has to be settled or objected to.
pub struct Notice {
    pub(crate) numbers: NoticeNumbers,
}

impl Notice {
    pub fn numbers(&self) -> NoticeNumbers
        ensures { result ≡ self.now.numbers }
    {
        self.numbers
    }
}
