// What a book keeps of a month, and of the settled months together.
use rules::assessment::PerRule;

// One month: its number, 1 for April, the issue of its notice, the numbers of the rules that it was closed by, the
// units under each, and its yen. The penalties are those before any cap. The default is the line of a month that is
// not closed.
#[derive(Clone, Copy, Debug, Default, PartialEq, Eq)]
pub struct Line {
    pub month: u8,
    pub issue: u8,
    pub rules: PerRule<u8>,
    pub units: PerRule<u64>,
    pub amount: u64,
    pub penalties: PerRule<u64>,
    pub charged: u64,
    pub net: i64,
}

// The number of the settled months, and their sums in yen. The default is that of none.
#[derive(Clone, Copy, Debug, Default, PartialEq, Eq)]
pub struct Totals {
    pub months: u8,
    pub amount: u64,
    pub penalties: PerRule<u64>,
    pub charged: u64,
    pub net: i64,
}
