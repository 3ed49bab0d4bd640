// Yen: what a month pays, what it is charged, and what it is answered with.
#![tactic(auto)]

ghost use Rattle.std.specs.Prelude.{◌≡◌, ◌≤◌, pos, ◌-ℤ◌, Some};
ghost use Rattle.rules.specs.Counts.{counts_of};
ghost use Rattle.yen.specs.Yen.{amount_of, excess, outage_penalty, shortfall_penalty, charge, yen_of, settlement_of, settlement_text};

use rules::assessment::{Assessment, PerRule, Units};
use std::fmt;
use terms::contract::PricedTerms;

// What the settled months came to: their units under the outage rule, and what they were charged.
#[derive(Clone, Copy, Debug, PartialEq, Eq)]
pub struct Before {
    pub outage_units: u64,
    pub charged: u64,
}

// The yen of one month: its amount, the three penalties before any cap, what is charged of them, and the net.
#[derive(Clone, Copy, Debug, PartialEq, Eq)]
pub struct MonthYen {
    pub amount: u64,
    pub penalties: PerRule<u64>,
    pub charged: u64,
    pub net: i64,
}

// What a settled month is answered with, in yen.
#[derive(Clone, Copy, Debug, PartialEq, Eq)]
pub enum Settlement {
    Payment(u64),
    Claim(u64),
    Neither,
}

impl fmt::Display for Settlement {
    ghost output = { λ s. Some (settlement_text s) };

    fn fmt<W: fmt::Write>(&self, f: &mut fmt::Formatter<W>) -> fmt::Result {
        match self {
            Settlement::Payment(yen) => write!(f, "a payment of {yen} yen"),
            Settlement::Claim(yen) => write!(f, "a claim of {yen} yen"),
            Settlement::Neither => write!(f, "neither payment nor claim"),
        }
    }
}

// The year of a month's yen: its terms, and what the months before the month came to.
#[derive(Clone, Copy)]
struct YearSoFar<'a> {
    terms: &'a PricedTerms,
    before: &'a Before,
}

impl YearSoFar<'_> {
    // A twelfth of the year's amount, cut; the last month gets the rest.
    fn amount_in(&self, month: u8) -> u64
        ensures { result ≡ amount_of self.now.terms.now.contract month }
    {
        let contract = self.terms.contract();
        let twelfth = contract.amount / 12;
        if month == 12 {
            contract.amount - 11 * twelfth
        } else {
            twelfth
        }
    }

    // The units of the month that go beyond what a year may be out without a penalty.
    fn excess(&self, units: Units) -> Units
        ensures { result.count ≡ excess self.now.terms.now.contract self.now.before.now.outage_units units.count }
    {
        let so_far = u128::from(self.before.outage_units) + u128::from(units.count);
        let free = 8_640 * u128::from(self.terms.contract().assessed);
        Units {
            count: u128::from(units.count).min(so_far.saturating_sub(free)) as u64,
        }
    }

    fn outage_penalty(&self, units: Units) -> u64
        ensures { result ≡ outage_penalty self.now.terms.now.contract self.now.before.now.outage_units units.count }
    {
        let contract = self.terms.contract();
        let excess = self.excess(units);
        let year = 8_000 * u128::from(contract.assessed);
        (u128::from(contract.amount) * u128::from(excess.count) / year) as u64
    }

    // The penalty of the market or the dispatch rule. Two units are a kilowatt-hour.
    fn shortfall_penalty(&self, units: Units) -> u64
        ensures { result ≡ shortfall_penalty self.now.terms.now.contract units.count }
    {
        let contract = self.terms.contract();
        let year = 2 * u128::from(contract.capacity) * u128::from(contract.hours);
        (u128::from(contract.amount) * u128::from(units.count) / year) as u64
    }

    // What is charged of the penalties. The sum saturates: past 64 bits it is above the month's cap anyway.
    fn charged(&self, penalties: &PerRule<u64>) -> u64
        ensures { result ≡ charge self.now.terms.now.contract self.now.before.now.charged penalties.now }
    {
        let contract = self.terms.contract();
        let month_cap = 183 * contract.amount / 1_000;
        let year_cap = 11 * contract.amount / 10;
        penalties
            .outage
            .saturating_add(penalties.market)
            .saturating_add(penalties.dispatch)
            .min(month_cap)
            .min(year_cap.saturating_sub(self.before.charged))
    }
}

fn net_of(amount: u64, charged: u64) -> i64
    requires amount { amount ≤ 2000000000000 }
    requires charged { charged ≤ 2200000000000 }
    ensures { result ≡ pos amount -ℤ pos charged }
{
    amount as i64 - charged as i64
}

// The yen of a month, 1 for April, after what the months before it came to.
pub fn month_yen(
    terms: &PricedTerms,
    month: u8,
    before: &Before,
    assessment: &Assessment,
) -> MonthYen
    ensures { result ≡ yen_of terms.now.contract month before.now (counts_of assessment.now.units) }
{
    let year = YearSoFar { terms, before };
    let units = assessment.units;
    let amount = year.amount_in(month);
    let penalties = PerRule {
        outage: year.outage_penalty(units.outage),
        market: year.shortfall_penalty(units.market),
        dispatch: year.shortfall_penalty(units.dispatch),
    };
    let charged = year.charged(&penalties);
    MonthYen {
        amount,
        penalties,
        charged,
        net: net_of(amount, charged),
    }
}

// A net above zero is a payment, below zero a claim of that size, and at zero neither.
// A function, and no `From<i64>`, which would no longer say that the number is a net.
pub fn settle_net(net: i64) -> Settlement
    ensures { result ≡ settlement_of net }
{
    if net > 0 {
        Settlement::Payment(net.unsigned_abs())
    } else if net < 0 {
        Settlement::Claim(net.unsigned_abs())
    } else {
        Settlement::Neither
    }
}
