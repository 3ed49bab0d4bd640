// The ranges of the terms.
ghost use Rattle.std.specs.Prelude.{◌≡◌, ◌&&◌};
ghost use Rattle.terms.specs.Ranges.{FirstOut, first_out, in_range, numbers, stands};

use crate::terms::Terms;

// As many as there are lines in a file of terms.
pub const COUNT: usize = 22;

// The places of the contract capacity and of the assessed one.
const CAPACITY: usize = 2;

const ASSESSED: usize = 3;

// The lowest and the highest number of each line. A number of either sign and of any width of the terms fits the type.
const RANGES: [(i128, i128); COUNT] = [
    // plant, fiscal year, contract capacity, assessed capacity, hours
    (1, 999_999),
    (2025, 2074),
    (1, 2_000_000),
    (1, 2_000_000),
    (1, 1_000),
    // capital, upkeep, return
    (0, 200_000),
    (0, 200_000),
    (0, 200_000),
    // method and choices
    (1, 2),
    (0, 1),
    (0, 1),
    (0, 1),
    (0, 1),
    // three indices, each of the bid and of the settled year
    (100, 9_999),
    (100, 9_999),
    (100, 9_999),
    (100, 9_999),
    (100, 9_999),
    (100, 9_999),
    // rates and reduction
    (-1_000, 15_000),
    (-1_000, 15_000),
    (0, 2_000_000_000_000),
];

// Whether there is a number at the place `i`, and it is in its range, both looked up at the place: the table has a range
// for each line, whoever has the numbers. The assessed capacity has to be a tenth of the contract capacity at least.
pub fn in_range(numbers: &[i128], i: usize) -> bool
    ensures { result ≡ (stands numbers.now i && in_range numbers.now i) }
{
    let (Some(&(low, high)), Some(&number)) = (RANGES.get(i), numbers.get(i)) else {
        return false;
    };
    (low..=high).contains(&number) && (i != ASSESSED || numbers[CAPACITY] <= 10 * number)
}

// The numbers in the order of a file of terms.
impl From<&Terms> for [i128; COUNT] {
    ghost from_gives = { λ t r. r ≡ numbers t.now };

    fn from(terms: &Terms) -> [i128; COUNT] {
        [
            i128::from(terms.plant),
            i128::from(terms.year),
            i128::from(terms.capacity),
            i128::from(terms.assessed),
            i128::from(terms.hours),
            i128::from(terms.capital),
            i128::from(terms.upkeep),
            i128::from(terms.returns),
            i128::from(terms.method),
            i128::from(terms.choices.capital),
            i128::from(terms.choices.upkeep),
            i128::from(terms.choices.returns),
            i128::from(terms.choices.rates),
            i128::from(terms.deflator.bid),
            i128::from(terms.deflator.settled),
            i128::from(terms.corporate.bid),
            i128::from(terms.corporate.settled),
            i128::from(terms.consumer.bid),
            i128::from(terms.consumer.settled),
            i128::from(terms.rates.bid),
            i128::from(terms.rates.settled),
            i128::from(terms.reduction),
        ]
    }
}

// The first line whose number is out of its range; lines count from 1.
pub fn first_out(terms: &Terms) -> Option<usize>
    ensures value { result ≡ first_out (numbers terms.now) }
    ensures first { FirstOut (numbers terms.now) result }
{
    let numbers: [i128; COUNT] = terms.into();
    (0..COUNT).find(|&i| !in_range(&numbers, i)).map(|i| i + 1)
}
