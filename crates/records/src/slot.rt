// One half hour of a plant.
ghost use Rattle.std.specs.Prelude.{◌↔◌, IsTrue};
ghost use Rattle.records.specs.Slots.{Within};

// The most kW of a slot.
const MOST_POWER: u32 = 2_000_000;

// The most kWh of a slot.
const MOST_ENERGY: u32 = 1_000_000;

// What the outage plan says of the half hour.
#[derive(Clone, Copy, Debug, Default, PartialEq, Eq)]
pub enum Outage {
    #[default]
    NoOutage,
    PlannedStop,
    UnplannedStop,
    PlannedSuppression,
    UnplannedSuppression,
}

// Supply, plan and offer are in kW, the meter in kWh. The default, a slot of zeros, makes room for others.
#[derive(Clone, Copy, Debug, Default, PartialEq, Eq)]
pub struct Slot {
    // the highest output on offer
    pub supply: u32,
    // the planned generation
    pub plan: u32,
    // the unsold quantity that is for sale
    pub offer: u32,
    // the energy received
    pub meter: u32,
    pub outage: Outage,
    // the reserve of the grid is low
    pub low_reserve: bool,
    // a dispatch instruction was given
    pub dispatched: bool,
    // papers for the offer were shown
    pub papers: bool,
}

impl Slot {
    // Whether each number is at most its limit.
    pub fn is_within(&self) -> bool
        ensures { IsTrue result ↔ Within self.now }
    {
        self.supply <= MOST_POWER
            && self.plan <= MOST_POWER
            && self.offer <= MOST_POWER
            && self.meter <= MOST_ENERGY
    }
}
