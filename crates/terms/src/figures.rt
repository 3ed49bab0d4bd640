// The figures that a year is settled by.

#[derive(Clone, Copy, Debug, PartialEq, Eq)]
pub struct Contract {
    pub plant: u32,
    // the fiscal year, which begins in April
    pub year: u16,
    // the contract capacity, in kW
    pub capacity: u32,
    // the assessed capacity, in kW
    pub assessed: u32,
    pub hours: u16,
    // yen for a kW
    pub price: u32,
    // yen for the year
    pub amount: u64,
}
