// What each of the standard rules gives a slot.
ghost use Rattle.rules.specs.Standard.{outage_units, market_units, dispatch_units};
ghost use Rattle.std.proofs.Common.{rules};

use crate::assessed::{DispatchRule, MarketRule, OutageRule};
use crate::rule::Rule;
use records::slot::{Outage, Slot};

impl Rule for OutageRule {
    const NUMBER: u8 = 1;

    ghost NUMBER = { 1 };

    ghost meaning = { λ rule slot. outage_units rule.assessed.kilowatts slot };

    ghost numbered = { Prim.search rules };

    ghost range = { Prim.search rules };

    ghost no_worse = { Prim.search rules };

    fn units(&self, slot: &Slot) -> u32 {
        let missing = self.assessed.kilowatts.saturating_sub(slot.supply);
        match slot.outage {
            Outage::NoOutage => 0,
            Outage::PlannedStop | Outage::PlannedSuppression => missing,
            Outage::UnplannedStop | Outage::UnplannedSuppression => 5 * missing,
        }
    }
}

impl Rule for MarketRule {
    const NUMBER: u8 = 2;

    ghost NUMBER = { 2 };

    ghost meaning = { λ rule slot. market_units rule.assessed.kilowatts slot };

    ghost numbered = { Prim.search rules };

    ghost range = { Prim.search rules };

    ghost no_worse = { Prim.search rules };

    fn units(&self, slot: &Slot) -> u32 {
        if !slot.low_reserve {
            return 0;
        }
        match slot.outage {
            Outage::PlannedStop | Outage::UnplannedStop => 0,
            _ => {
                let assessed = self.assessed.kilowatts;
                let surplus = assessed.min(slot.supply).saturating_sub(slot.plan);
                let offer = if slot.papers { slot.offer } else { 0 };
                surplus.saturating_sub(offer)
            }
        }
    }
}

impl Rule for DispatchRule {
    const NUMBER: u8 = 3;

    ghost NUMBER = { 3 };

    ghost meaning = { λ rule slot. dispatch_units rule.assessed.kilowatts slot };

    ghost numbered = { Prim.search rules };

    ghost range = { Prim.search rules };

    ghost no_worse = { Prim.search rules };

    fn units(&self, slot: &Slot) -> u32 {
        if !slot.low_reserve || !slot.dispatched {
            return 0;
        }
        let basis = match slot.outage {
            Outage::PlannedStop | Outage::UnplannedStop => return 0,
            Outage::PlannedSuppression | Outage::UnplannedSuppression => slot.supply,
            Outage::NoOutage => self.assessed.kilowatts,
        };
        basis.saturating_sub(2 * slot.meter)
    }
}
