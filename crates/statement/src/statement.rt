// What a statement line says.
ghost use Rattle.std.specs.Prelude.{◌^◌, ◌<◌, ◌≤◌, pos, neg_ℤ, ◌<ℤ◌};

use rules::assessment::PerRule;

// A line has at most so many bytes.
pub const LINE_BYTES: usize = 128;

// The month, 0 for the totals as the printed line has it, and its yen. The ghost facts bound the bytes of a line.
#[derive(Clone, Copy, Debug, PartialEq, Eq)]
pub struct Statement {
    pub month: u8,
    pub amount: u64,
    pub penalties: PerRule<u64>,
    pub charged: u64,
    pub net: i64,
    ghost penalty_limits: { (penalties.outage < 10 ^ 17) × (penalties.market < 10 ^ 17) × (penalties.dispatch < 10 ^ 17) },
    ghost limits: { (month ≤ 12) × (amount < 10 ^ 17) × (charged < 10 ^ 17) },
    ghost net_limits: { (neg_ℤ (pos (10 ^ 17)) <ℤ net) × (net <ℤ pos (10 ^ 17)) },
}
