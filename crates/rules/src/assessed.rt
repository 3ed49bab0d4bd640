// The three standard rules, each over the assessed capacity of priced terms. Three types, since each has its own impl of
// the trait.
ghost use Rattle.std.specs.Prelude.{◌≤◌};

// An assessed capacity, in kW.
#[derive(Clone, Copy, Debug, PartialEq, Eq)]
pub struct AssessedCapacity {
    pub kilowatts: u32,
    ghost limit: { kilowatts ≤ 2000000 },
}

// Rule 1: what the supply is short of the assessed capacity under an outage, five times that if it was not planned.
#[derive(Clone, Copy, Debug, PartialEq, Eq)]
pub struct OutageRule {
    pub assessed: AssessedCapacity,
}

// Rule 2: what was neither planned nor offered while the reserve was low.
#[derive(Clone, Copy, Debug, PartialEq, Eq)]
pub struct MarketRule {
    pub assessed: AssessedCapacity,
}

// Rule 3: what was not delivered on a dispatch instruction while the reserve was low.
#[derive(Clone, Copy, Debug, PartialEq, Eq)]
pub struct DispatchRule {
    pub assessed: AssessedCapacity,
}
