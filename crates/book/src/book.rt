// The book and its calls.
#![tactic(auto, using(crate::proofs::Has::year, crate::proofs::Has::month_out))]

ghost use Rattle.std.specs.Prelude.{◌≡◌, ◌<◌, ◌≤◌, take, ◌↔◌, IsTrue};
ghost use Rattle.rules.specs.Counts.{counts_of};
ghost use Rattle.book.specs.Calls.{Opened, settled_lines, open_month, next_line, standard_rules, Awaits, shown};
ghost use Rattle.book.specs.History.{Step, closing, settling, objecting, reading_line, reading_totals, reading_statement, reading_totals_statement, printing_line, HasHistory, ClosedAndSettled};

use crate::line::{Line, Totals};
use crate::refused::{
    CloseRefusal, ObjectRefusal, PrintLineRefusal, ReadLineRefusal, SettleRefusal,
};
use crate::settled::SettledLines;
use crate::table::{Notice, Table};
use records::slot::Slot;
use rules::assessed::{AssessedCapacity, DispatchRule, MarketRule, OutageRule};
use rules::assessment::{Assessment, OpenMonth};
use rules::month::assess;
use rules::rule::Rule;
use statement::{Statement, print_statement};
use terms::contract::PricedTerms;
use terms::figures::Contract;
use yen::{Settlement, month_yen, settle_net};

// Every book has a history: `led` says that calls of a book led to its table.
#[derive(Drop)]
pub struct Book {
    pub(crate) table: Table,
    ghost led: { HasHistory table },
}

impl Book {
    // A book with nothing settled.
    pub fn open(terms: PricedTerms) -> Book
        ensures { Opened terms result.table }
    {
        let table = Table {
            terms,
            lines: [Line::default(); 12],
            settled: 0,
            out: false,
            issue: 1,
        };
        Book { table }
    }

    // The contract that the book settles.
    pub fn contract(&self) -> Contract
        ensures { result ≡ self.now.table.terms.contract }
    {
        self.table.terms.contract()
    }

    // The first unsettled month, 13 where all are settled, and what it is assessed by. A number, 13 too: no month has it,
    // so what reads or assesses it refuses it by itself.
    pub fn open_month(&self) -> OpenMonth
        ensures { result ≡ open_month self.now.table }
    {
        let contract = self.contract();
        OpenMonth {
            year: contract.year,
            month: self.table.settled + 1,
            assessed: contract.assessed,
        }
    }

    // The lines of the first months, which are settled.
    pub(crate) fn first_lines(&self, months: u8) -> SettledLines<'_>
        requires { months ≤ self.now.table.settled }
        ensures { result.lines.now ≡ take months self.now.table.lines }
    {
        SettledLines {
            lines: &self.table.lines[..months as usize],
        }
    }

    // The lines of all settled months.
    fn settled_lines(&self) -> SettledLines<'_>
        ensures { result.lines.now ≡ settled_lines self.now.table }
    {
        self.first_lines(self.table.settled)
    }

    // The line of the first unsettled month, as it was assessed.
    fn next_line(&self, assessment: &Assessment) -> Line
        requires { self.now.table.settled < 12 }
        ensures { result ≡ next_line self.now.table assessment.now.numbers (counts_of assessment.now.units) }
    {
        let before = self.settled_lines().before();
        let month = self.table.settled + 1;
        let yen = month_yen(&self.table.terms, month, &before, assessment);
        Line {
            month,
            issue: self.table.issue,
            rules: assessment.numbers,
            units: assessment.counts(),
            amount: yen.amount,
            penalties: yen.penalties,
            charged: yen.charged,
            net: yen.net,
        }
    }

    // Closes the first unsettled month by three rules, in the places of outage, market and dispatch.
    pub fn close_by<R1: Rule, R2: Rule, R3: Rule>(
        &mut self,
        slots: &[Slot],
        outage: &R1,
        market: &R2,
        dispatch: &R3,
    ) -> Result<Notice, CloseRefusal>
        ensures { Step self.old.table (closing slots.now (record {
          outage = record { number = R1.NUMBER; units = R1.meaning outage.now };
          market = record { number = R2.NUMBER; units = R2.meaning market.now };
          dispatch = record { number = R3.NUMBER; units = R3.meaning dispatch.now };
        }) result) self.new.table }
    {
        if self.table.out {
            return Err(CloseRefusal::NoticeOut);
        }
        if self.table.settled >= 12 {
            return Err(CloseRefusal::YearSettled);
        }
        let open = self.open_month();
        let assessment = assess(&open, slots, outage, market, dispatch)?;
        let line = self.next_line(&assessment);
        self.table.lines[self.table.settled as usize] = line;
        self.table.out = true;
        Ok(Notice {
            numbers: self.table.numbers_of(&line),
        })
    }

    // Closes the first unsettled month by the standard rules.
    pub fn close(&mut self, slots: &[Slot]) -> Result<Notice, CloseRefusal>
        ensures { Step self.old.table (closing slots.now (standard_rules self.old.table.terms.contract.assessed) result) self.new.table }
    {
        let kilowatts = self.contract().assessed;
        let assessed = AssessedCapacity { kilowatts };
        self.close_by(
            slots,
            &OutageRule { assessed },
            &MarketRule { assessed },
            &DispatchRule { assessed },
        )
    }

    // Whether the notice is the one that is out.
    fn awaits(&self, notice: &Notice) -> bool
        ensures { IsTrue result ↔ Awaits self.now.table notice.now }
    {
        if !self.table.out {
            return false;
        }
        let line = &self.table.lines[self.table.settled as usize];
        notice.numbers == self.table.numbers_of(line)
    }

    // Settles the month of the notice, and answers what is paid or claimed for it.
    pub fn settle(&mut self, notice: Notice) -> Result<Settlement, (Notice, SettleRefusal)>
        ensures { Step self.old.table (settling notice result) self.new.table }
    {
        if !self.awaits(&notice) {
            return Err((notice, SettleRefusal::OtherNotice));
        }
        let Notice { numbers } = notice;
        self.table.settled += 1;
        self.table.out = false;
        self.table.issue = 1;
        Ok(settle_net(numbers.net))
    }

    // Objects to the notice: its month can be closed again.
    pub fn object(&mut self, notice: Notice) -> Result<(), (Notice, ObjectRefusal)>
        ensures { Step self.old.table (objecting notice result) self.new.table }
    {
        if !self.awaits(&notice) {
            return Err((notice, ObjectRefusal::OtherNotice));
        }
        if self.table.issue >= 99 {
            return Err((notice, ObjectRefusal::LastIssue));
        }
        let Notice { numbers: _ } = notice;
        self.table.lines[self.table.settled as usize] = Line::default();
        self.table.out = false;
        self.table.issue += 1;
        Ok(())
    }

    // How many months are settled or under notice.
    fn shown(&self) -> u8
        ensures value { result ≡ shown self.now.table }
        ensures year { result ≤ 12 }
    {
        self.table.settled + u8::from(self.table.out)
    }

    // The line of a month that is settled or under notice.
    pub fn read_line(&self, month: u8) -> Result<Line, ReadLineRefusal>
        ensures { Step self.now.table (reading_line month result) self.now.table }
    {
        if month == 0 || month > self.shown() {
            return Err(ReadLineRefusal::NoLine);
        }
        Ok(self.table.lines[month as usize - 1])
    }

    // The number of the settled months, and their sums.
    pub fn read_totals(&self) -> Totals
        ensures { Step self.now.table (reading_totals result) self.now.table }
    {
        self.settled_lines().totals()
    }

    // The statement of the totals, which is that of month 0. Field by field here and below: one function of both would take
    // five figures and ask for all their bounds.
    pub fn totals_statement(&self) -> Statement
        ensures { Step self.now.table (reading_totals_statement result) self.now.table }
    {
        let totals = self.settled_lines().totals();
        Statement {
            month: 0,
            amount: totals.amount,
            penalties: totals.penalties,
            charged: totals.charged,
            net: totals.net,
        }
    }

    // The statement of a month that is settled or under notice, or of the totals as month 0, as print line counts.
    pub fn statement(&self, month: u8) -> Option<Statement>
        ensures { Step self.now.table (reading_statement month result) self.now.table }
    {
        if month == 0 {
            return Some(self.totals_statement());
        }
        let line = self.read_line(month).ok()?;
        Some(Statement {
            month: line.month,
            amount: line.amount,
            penalties: line.penalties,
            charged: line.charged,
            net: line.net,
        })
    }

    // Writes the statement line of a month, or of the totals as month 0, at the start of the buffer, and answers its
    // length. The buffer is the caller's: its rest stays as it was, and one that is too short is refused.
    pub fn print_line(&self, month: u8, out: &mut [u8]) -> Result<usize, PrintLineRefusal>
        ensures { Step self.now.table (printing_line month out.old result out.new) self.now.table }
    {
        let statement = self.statement(month).ok_or(PrintLineRefusal::NoLine)?;
        print_statement(&statement, out).ok_or(PrintLineRefusal::ShortBuffer)
    }

    // Closes the first unsettled month by the standard rules and settles it at once, so that no notice is left.
    pub fn close_and_settle(&mut self, slots: &[Slot]) -> Result<Settlement, CloseRefusal>
        ensures { ClosedAndSettled self.old.table slots.now result self.new.table }
    {
        let notice = self.close(slots)?;
        // A match: the error holds a notice, which may not be let go.
        match self.settle(notice) {
            Ok(settlement) => Ok(settlement),
            Err((_notice, _refusal)) => unreachable!(),
        }
    }
}
