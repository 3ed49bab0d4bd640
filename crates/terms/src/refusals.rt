// Why terms have no price.
ghost use Rattle.std.specs.Prelude.{◌≡◌};
ghost use Rattle.terms.specs.Refusals.{price_refusal};

use refusal::Refusal;

#[derive(Clone, Copy, Debug, PartialEq, Eq)]
pub enum PriceRefusal {
    // the number of the line is out of its range; lines count from 1
    Range(usize),
    // the rates fall so far that the return would be below 0
    RateBelowZero,
    PriceTooHigh,
    // the reduction is above what the year is worth
    ReductionTooHigh,
}

impl From<PriceRefusal> for Refusal {
    ghost from_gives = { λ e r. r ≡ price_refusal e };

    fn from(refused: PriceRefusal) -> Refusal {
        match refused {
            PriceRefusal::Range(line) => Refusal {
                number: 2,
                place: line,
            },
            PriceRefusal::RateBelowZero => Refusal::without_place(3),
            PriceRefusal::PriceTooHigh => Refusal::without_place(4),
            PriceRefusal::ReductionTooHigh => Refusal::without_place(5),
        }
    }
}
