// The lines of settled months, and their sums.
ghost use Rattle.std.specs.Prelude.{◌≡◌, ◌≤◌, length, All};
ghost use Rattle.book.specs.Lines.{outage_units_in, charged_in, before_of, totals_of};
ghost use Rattle.book.specs.Comparing.{sums_of};
ghost use Rattle.book.specs.Limits.{Modest, Few};

use crate::comparison::Sums;
use crate::line::{Line, Totals};
use yen::Before;

// The lines of the first settled months. The ghost facts bound their figures and sums, so that no sum overflows.
#[derive(Clone, Copy)]
pub(crate) struct SettledLines<'a> {
    pub(crate) lines: &'a [Line],
    ghost year: { length lines.now ≤ 12 },
    ghost modest: { All Modest lines.now },
    ghost few: { Few 12 (totals_of lines.now) },
}

impl SettledLines<'_> {
    // The units under the outage rule.
    fn outage_units(&self) -> u64
        ensures { result ≡ outage_units_in self.now.lines.now }
    {
        self.lines.iter().map(|line| line.units.outage).sum()
    }

    fn charged(&self) -> u64
        ensures { result ≡ charged_in self.now.lines.now }
    {
        self.lines.iter().map(|line| line.charged).sum()
    }

    // What they add to the month after them.
    pub(crate) fn before(&self) -> Before
        ensures { result ≡ before_of self.now.lines.now }
    {
        Before {
            outage_units: self.outage_units(),
            charged: self.charged(),
        }
    }

    // What the months were charged, and their net.
    pub(crate) fn sums(&self) -> Sums
        ensures { result ≡ sums_of self.now.lines.now }
    {
        let totals = self.totals();
        Sums {
            charged: totals.charged,
            net: totals.net,
        }
    }

    // One loop for all figures: with a chain for each the call took twice the time.
    pub(crate) fn totals(&self) -> Totals
        ensures { result ≡ totals_of self.now.lines.now }
    {
        let mut totals = Totals::default();
        for line in self.lines {
            totals.months += 1;
            totals.amount += line.amount;
            totals.penalties.outage += line.penalties.outage;
            totals.penalties.market += line.penalties.market;
            totals.penalties.dispatch += line.penalties.dispatch;
            totals.charged += line.charged;
            totals.net += line.net;
        }
        totals
    }
}
