// The price of a contract year: the exact total of its items, cut once.
ghost use Rattle.std.specs.Prelude.{◌≡◌, IfOk};
ghost use Rattle.std.specs.Option.{option_map};
ghost use Rattle.terms.specs.Bounds.{PriceInRange};
ghost use Rattle.terms.specs.Fractions.{of};
ghost use Rattle.terms.specs.Price.{CutOnce, agreed, contract_of, factor, itemised, rate_factor, ratio, together, total};

use crate::contract::PricedTerms;
use crate::figures::Contract;
use crate::fraction::Fraction;
use crate::ranges::first_out;
use crate::refusals::PriceRefusal;
use crate::terms::{Index, Terms};

// The highest price, in yen for a kW.
const MAX_PRICE: u32 = 1_000_000;

// The rates move the return in parts of this number.
const RATE_PARTS: u16 = 5_000;

// How an index has moved since the bid.
fn ratio(index: Index) -> Fraction
    ensures { result ≡ ratio index }
{
    Fraction {
        num: u128::from(index.settled),
        den: u128::from(index.bid),
    }
}

// What an index moves an item by: nothing where the choice, a number as it was sent, is 0.
fn factor(choice: u32, index: Index) -> Fraction
    ensures { result ≡ factor choice index }
{
    if choice == 1 {
        ratio(index)
    } else {
        Fraction::ONE
    }
}

// An item, moved with its index where its choice is 1.
fn item(yen: u32, choice: u32, index: Index) -> Fraction
    ensures { result ≡ of yen (factor choice index) }
{
    yen * factor(choice, index)
}

// Terms whose price is made of numbers in range. The method and the choices stay numbers: tested once or twice each, they
// would have to be made into enums first.
#[derive(Clone, Copy)]
struct InRange<'a> {
    terms: &'a Terms,
    ghost ranges: { PriceInRange terms.now },
}

impl InRange<'_> {
    // What the rates move the return by. None where that would be below 0.
    fn rate_factor(&self) -> Option<Fraction>
        ensures { result ≡ rate_factor self.now.terms.now }
    {
        let terms = self.terms;
        if terms.method != 1 || terms.choices.rates != 1 {
            return Some(Fraction::ONE);
        }
        let parts = i32::from(RATE_PARTS) + (terms.rates.settled - terms.rates.bid);
        Some(Fraction {
            num: u128::try_from(parts).ok()?,
            den: u128::from(RATE_PARTS),
        })
    }

    // Method 1: each item moves with its own index.
    fn itemised(&self, rate: Fraction) -> Fraction
        requires { rate_factor self.now.terms.now ≡ Some rate }
        ensures { result ≡ itemised self.now.terms.now rate }
    {
        let terms = self.terms;
        let capital = item(terms.capital, terms.choices.capital, terms.deflator);
        let upkeep = item(terms.upkeep, terms.choices.upkeep, terms.corporate);
        let returns = item(terms.returns, terms.choices.returns, terms.deflator);
        capital + upkeep + returns * rate
    }

    // Method 2: all items move with the consumer index.
    fn together(&self) -> Fraction
        ensures { result ≡ together self.now.terms.now }
    {
        let terms = self.terms;
        (terms.capital + terms.upkeep + terms.returns) * ratio(terms.consumer)
    }

    // The exact total. None where the rates take the return below 0.
    fn total(&self) -> Option<Fraction>
        ensures { result ≡ option_map (total self.now.terms.now) (rate_factor self.now.terms.now) }
    {
        let rate = self.rate_factor()?;
        Some(if self.terms.method == 1 {
            self.itemised(rate)
        } else {
            self.together()
        })
    }
}

// The terms with their price and the year's amount.
pub fn price(terms: &Terms) -> Result<PricedTerms, PriceRefusal>
    ensures contract { agreed result ≡ contract_of terms.now }
    ensures cut { IfOk result (λ p. CutOnce terms.now p.contract) }
{
    if let Some(line) = first_out(terms) {
        return Err(PriceRefusal::Range(line));
    }
    let known = InRange { terms };
    let total = known.total().ok_or(PriceRefusal::RateBelowZero)?;
    let price = (total.num / total.den) as u32;
    if price > MAX_PRICE {
        return Err(PriceRefusal::PriceTooHigh);
    }
    let full = u64::from(price) * u64::from(terms.capacity);
    let amount = full
        .checked_sub(terms.reduction)
        .ok_or(PriceRefusal::ReductionTooHigh)?;
    Ok(PricedTerms {
        contract: Contract {
            plant: terms.plant,
            year: terms.year as u16,
            capacity: terms.capacity,
            assessed: terms.assessed,
            hours: terms.hours as u16,
            price,
            amount,
        },
    })
}
