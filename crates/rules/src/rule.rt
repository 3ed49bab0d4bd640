// What an assessment rule is.
ghost use Rattle.std.specs.Prelude.{◌≡◌, ℕ, ◌≤◌};
ghost use Rattle.records.specs.declared.slot.Slot.{Slot};
ghost use Rattle.records.specs.Slots.{Within, NoWorse};

use records::slot::Slot;

// A rule gives a slot its units; one unit is one kilowatt that is missing for a half hour. What it answers is its
// meaning at the slot, so the same slot gets the same units again, and a rule that is asked through `&` alters nothing.
pub trait Rule {
    // the rule's own number, from 1 to 255, which month lines record
    const NUMBER: u8;

    // the same, as clauses read it
    ghost NUMBER: { ℕ };

    // the units of a slot within its limits
    ghost meaning: { Self → Slot → ℕ };

    fn units(&self, slot: &Slot) -> u32
        requires { Within slot.now }
        ensures { result ≡ meaning self.now slot.now };

    ghost numbered: { (1 ≤ NUMBER) × (NUMBER ≤ 255) };

    ghost range: { (rule : Self) (slot : Slot) → Within slot → meaning rule slot ≤ 10000000 };

    ghost no_worse: { (rule : Self) (b a : Slot) → Within b → Within a → NoWorse b a → meaning rule b ≤ meaning rule a };
}
