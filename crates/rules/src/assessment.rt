// What three rules come to over a month.
ghost use Rattle.std.specs.Prelude.{◌≡◌, ◌≤◌};

// One thing for each place that a rule is asked in.
#[derive(Clone, Copy, Debug, Default, PartialEq, Eq)]
pub struct PerRule<T> {
    pub outage: T,
    pub market: T,
    pub dispatch: T,
}

// The month that is to be assessed, 1 for April, and the capacity that it is assessed by, in kW.
#[derive(Clone, Copy, Debug, PartialEq, Eq)]
pub struct OpenMonth {
    pub year: u16,
    pub month: u8,
    pub assessed: u32,
}

// The units of a month under a rule: at most ten million for each of 1,488 slots. A ghost field and no `Model`: the check
// does not cover a struct that holds a value with a `Model` where it is passed by value and used again.
#[derive(Clone, Copy, Debug, PartialEq, Eq)]
pub struct Units {
    pub count: u64,
    ghost limit: { count ≤ 14880000000 },
}

// The numbers of the three rules, and the units of the month under each.
#[derive(Clone, Copy, Debug, PartialEq, Eq)]
pub struct Assessment {
    pub numbers: PerRule<u8>,
    pub units: PerRule<Units>,
}

impl Assessment {
    // The units as plain numbers, field by field: a `map` of `PerRule` would have to ask that its closure can be called.
    pub fn counts(&self) -> PerRule<u64>
        ensures { result ≡ record {
          outage = self.now.units.outage.count;
          market = self.now.units.market.count;
          dispatch = self.now.units.dispatch.count;
        } }
    {
        let PerRule {
            outage,
            market,
            dispatch,
        } = self.units;
        PerRule {
            outage: outage.count,
            market: market.count,
            dispatch: dispatch.count,
        }
    }
}

// Why a slot list cannot be assessed: it has not the length of the month, or a slot of it, counted from 0, is not fit.
#[derive(Clone, Copy, Debug, PartialEq, Eq)]
pub enum SlotsRefusal {
    WrongSlotCount,
    UnfitSlot(usize),
}
