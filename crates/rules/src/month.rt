// A month's slots, assessed.
ghost use Rattle.std.specs.Prelude.{◌≡◌, ◌≤◌, length, All, IsTrue, ◌↔◌, MatchOption, MatchResult};
ghost use Rattle.records.specs.Slots.{Within};
ghost use Rattle.rules.specs.Counts.{counts_of};
ghost use Rattle.rules.specs.Months.{Fit, FirstUnfit, FitSlots, Refuses, Assesses, month_units};

use crate::assessment::{Assessment, OpenMonth, PerRule, SlotsRefusal, Units};
use crate::rule::Rule;
use calendar::slots_in;
use records::slot::{Outage, Slot};

// Whether the slot can be assessed at the capacity.
fn is_fit(slot: &Slot, assessed: u32) -> bool
    ensures { IsTrue result ↔ Fit assessed slot.now }
{
    let supplies_too_much = match slot.outage {
        Outage::PlannedSuppression | Outage::UnplannedSuppression => slot.supply > assessed,
        _ => false,
    };
    slot.is_within() && !supplies_too_much
}

fn first_unfit(slots: &[Slot], assessed: u32) -> Option<usize>
    ensures { MatchOption result (All (Fit assessed) slots.now) (FirstUnfit assessed slots.now) }
{
    slots.iter().position(|slot| !is_fit(slot, assessed))
}

// Slots of one month, each within its limits.
#[derive(Clone, Copy)]
struct MonthSlots<'a> {
    slots: &'a [Slot],
    ghost few: { length slots.now ≤ 1488 },
    ghost within: { All Within slots.now },
}

impl MonthSlots<'_> {
    // Their units under any rule.
    fn units_of<R: Rule>(&self, rule: &R) -> Units
        ensures { result.count ≡ month_units (R.meaning rule.now) self.now.slots.now }
    {
        let units = |slot: &Slot| -> u64
            requires { Within slot.now }
        { u64::from(rule.units(slot)) };
        Units {
            count: self.slots.iter().map(units).sum(),
        }
    }
}

// The slots, where there are as many as the month has, and each can be assessed.
fn check_slots<'a>(open: &OpenMonth, slots: &'a [Slot]) -> Result<MonthSlots<'a>, SlotsRefusal>
    ensures { MatchResult result
        (λ checked. (checked.slots.now ≡ slots.now) × FitSlots «open».now slots.now)
        (λ e. Refuses «open».now slots.now e) }
{
    let month_slots = slots_in(open.year, open.month);
    if !month_slots.is_some_and(|count| slots.len() == usize::from(count)) {
        return Err(SlotsRefusal::WrongSlotCount);
    }
    match first_unfit(slots, open.assessed) {
        Some(place) => Err(SlotsRefusal::UnfitSlot(place)),
        None => Ok(MonthSlots { slots }),
    }
}

// The slots of the month under the rules in the places of outage, market and dispatch.
pub fn assess<R1: Rule, R2: Rule, R3: Rule>(
    open: &OpenMonth,
    slots: &[Slot],
    outage: &R1,
    market: &R2,
    dispatch: &R3,
) -> Result<Assessment, SlotsRefusal>
    ensures { MatchResult result
        (λ a. Assesses «open».now slots.now (record {
          outage = record { number = R1.NUMBER; units = R1.meaning outage.now };
          market = record { number = R2.NUMBER; units = R2.meaning market.now };
          dispatch = record { number = R3.NUMBER; units = R3.meaning dispatch.now };
        }) a.numbers (counts_of a.units))
        (λ e. Refuses «open».now slots.now e) }
{
    let checked = check_slots(open, slots)?;
    Ok(Assessment {
        numbers: PerRule {
            outage: R1::NUMBER,
            market: R2::NUMBER,
            dispatch: R3::NUMBER,
        },
        units: PerRule {
            outage: checked.units_of(outage),
            market: checked.units_of(market),
            dispatch: checked.units_of(dispatch),
        },
    })
}
