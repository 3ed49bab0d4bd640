// The terms of a contract year, as they are agreed.

// A figure of the year of the bid, and of the settled year. The construction deflator has that of the first year of
// supply in place of the second.
#[derive(Clone, Copy, Debug, PartialEq, Eq)]
pub struct BidAndSettled<T> {
    pub bid: T,
    pub settled: T,
}

// An index, in tenths.
pub type Index = BidAndSettled<u32>;

// Lending rates, in thousandths of a percent.
pub type Rates = BidAndSettled<i32>;

// Which items of the price move: 1 where one does, 0 where it does not.
#[derive(Clone, Copy, Debug, PartialEq, Eq)]
pub struct Choices {
    // the capital, with the deflator
    pub capital: u32,
    // the upkeep, with the corporate price index
    pub upkeep: u32,
    // the return, with the deflator
    pub returns: u32,
    // the return, with the rates
    pub rates: u32,
}

// The numbers as they were sent: nothing is known of them until they are priced. The method and the choices are numbers
// too, since a narrower type would ask more of whoever makes terms.
#[derive(Clone, Copy, Debug, PartialEq, Eq)]
pub struct Terms {
    pub plant: u32,
    // the fiscal year, which begins in April
    pub year: u32,
    // the contract capacity and the assessed one, in kW
    pub capacity: u32,
    pub assessed: u32,
    pub hours: u32,
    // three items, in yen for a kW
    pub capital: u32,
    pub upkeep: u32,
    pub returns: u32,
    // 1: each item moves with an index of its own; 2: all move with the consumer index
    pub method: u32,
    pub choices: Choices,
    pub deflator: Index,
    pub corporate: Index,
    pub consumer: Index,
    pub rates: Rates,
    // yen that the year's amount is less
    pub reduction: u64,
}
