// When slots are no worse than others.
// Functions, and no `PartialOrd`: a `<=` of slots would hide what is compared.
ghost use Rattle.std.specs.Prelude.{◌↔◌, IsTrue};
ghost use Rattle.std.specs.List.{AllZip};
ghost use Rattle.records.specs.Slots.{NoWorse, NoWorseOutage, NoWorseSupply};

use crate::slot::{Outage, Slot};

fn is_no_worse_outage(b: Outage, a: Outage) -> bool
    ensures { IsTrue result ↔ NoWorseOutage b a }
{
    match (b, a) {
        (Outage::PlannedStop, Outage::UnplannedStop) => true,
        (Outage::PlannedSuppression, Outage::UnplannedSuppression) => true,
        _ => b == a,
    }
}

fn is_supply_no_worse(b: &Slot, a: &Slot) -> bool
    ensures { IsTrue result ↔ NoWorseSupply b.now a.now }
{
    match b.outage {
        Outage::PlannedStop | Outage::UnplannedStop => a.supply <= b.supply,
        _ => a.supply == b.supply,
    }
}

// Whether `b` is true only if `a` is.
fn only_if(b: bool, a: bool) -> bool
    ensures { IsTrue result ↔ (IsTrue b → IsTrue a) }
{
    a || !b
}

// Whether the slot `b` is no worse than the slot `a`.
pub fn is_no_worse(b: &Slot, a: &Slot) -> bool
    ensures { IsTrue result ↔ NoWorse b.now a.now }
{
    is_no_worse_outage(b.outage, a.outage)
        && only_if(b.low_reserve, a.low_reserve)
        && only_if(b.dispatched, a.dispatched)
        && only_if(a.papers, b.papers)
        && a.plan <= b.plan
        && a.offer <= b.offer
        && a.meter <= b.meter
        && is_supply_no_worse(b, a)
}

// Whether there are as many slots, each no worse than the one in its place.
pub fn are_no_worse(better: &[Slot], worse: &[Slot]) -> bool
    ensures { IsTrue result ↔ AllZip NoWorse better.now worse.now }
{
    better.len() == worse.len() && better.iter().zip(worse).all(|(b, a)| is_no_worse(b, a))
}
