// A rule of the tour's own: ten units for each half hour of low reserve.
ghost use Rattle.std.specs.Prelude.{if◌then◌else◌};
ghost use Rattle.std.proofs.Common.{rules};

use records::slot::Slot;
use rules::rule::Rule;

#[derive(Clone, Copy, Debug, PartialEq, Eq)]
pub(crate) struct LowReserveRule;

impl Rule for LowReserveRule {
    const NUMBER: u8 = 7;

    ghost NUMBER = { 7 };

    ghost meaning = { λ _ slot. (if slot.low_reserve then 10 else 0) };

    ghost numbered = { Prim.search rules };

    ghost range = { Prim.search rules };

    ghost no_worse = { Prim.search rules };

    fn units(&self, slot: &Slot) -> u32 {
        if slot.low_reserve { 10 } else { 0 }
    }
}
