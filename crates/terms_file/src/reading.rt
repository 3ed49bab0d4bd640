// Reads a text of terms: a number on each of 22 lines.
ghost use Rattle.std.specs.Prelude.{◌≡◌, ◌+◌, ◌<◌, pos, IfOk, None, slice_index_or};
ghost use Rattle.terms.specs.Ranges.{first_out, numbers};
ghost use Rattle.terms_file.specs.TermsFile.{InForm, IsTextOf, OneVerdict, ReadsBack, Verdict, line_text, rate_at};
ghost use Rattle.text.specs.Front.{Begins, Reads};
ghost use Rattle.text.specs.Number.{Short, ended};

use crate::refusals::TermsRefusal;
use terms::ranges::{COUNT, in_range};
use terms::terms::{Choices, Index, Rates, Terms};
use text::read_ended;

// The most digits of a number.
const MOST_DIGITS: usize = 13;

// The places of the rates.
const RATE_BID: usize = 19;

const RATE_SETTLED: usize = 20;

// The number without a sign that begins the text, and what comes after its line's end.
fn read_unsigned(text: &[u8]) -> Option<(u64, &[u8])>
    ensures { Reads (Begins (ended 10) (Short 13)) text.now result }
{
    read_ended(text, MOST_DIGITS, b'\n')
}

fn is_rate(i: usize) -> bool
    ensures { result ≡ rate_at i }
{
    i == RATE_BID || i == RATE_SETTLED
}

// The line at the place `i` of the terms that begins the text, and the rest. A rate alone may be below 0.
fn read_line(text: &[u8], i: usize) -> Option<(i128, &[u8])>
    ensures { Reads (Begins line_text (InForm i)) text.now result }
{
    match text.strip_prefix(b"-") {
        Some(digits) if is_rate(i) => {
            let (number, rest) = read_unsigned(digits)?;
            if number == 0 {
                return None;
            }
            Some((-i128::from(number), rest))
        }
        _ => {
            let (number, rest) = read_unsigned(text)?;
            Some((i128::from(number), rest))
        }
    }
}

// The numbers of terms, none of which is out of its range.
#[derive(Clone, Copy)]
struct Numbers {
    values: [i128; COUNT],
    ghost ranges: { first_out values ≡ None },
}

// A method for each type: that a number fits it follows from the ranges of that method's places, which no type knows.
impl Numbers {
    // The number at a place that is neither a rate nor the reduction.
    fn whole(&self, i: usize) -> u32
        requires { i < 19 }
        ensures { pos result ≡ slice_index_or self.now.values i (pos 0) }
    {
        self.values[i] as u32
    }

    // The two figures of an index that begin at the place.
    fn index(&self, i: usize) -> Index
        requires { i < 18 }
        ensures bid { pos result.bid ≡ slice_index_or self.now.values i (pos 0) }
        ensures settled { pos result.settled ≡ slice_index_or self.now.values (i + 1) (pos 0) }
    {
        Index {
            bid: self.whole(i),
            settled: self.whole(i + 1),
        }
    }

    fn rates(&self) -> Rates
        ensures bid { result.bid ≡ slice_index_or self.now.values 19 (pos 0) }
        ensures settled { result.settled ≡ slice_index_or self.now.values 20 (pos 0) }
    {
        Rates {
            bid: self.values[RATE_BID] as i32,
            settled: self.values[RATE_SETTLED] as i32,
        }
    }

    fn reduction(&self) -> u64
        ensures { pos result ≡ slice_index_or self.now.values 21 (pos 0) }
    {
        self.values[21] as u64
    }
}

// The terms that have these numbers.
impl From<Numbers> for Terms {
    ghost from_gives = { λ ns t. numbers t ≡ ns.values };

    fn from(numbers: Numbers) -> Terms {
        Terms {
            plant: numbers.whole(0),
            year: numbers.whole(1),
            capacity: numbers.whole(2),
            assessed: numbers.whole(3),
            hours: numbers.whole(4),
            capital: numbers.whole(5),
            upkeep: numbers.whole(6),
            returns: numbers.whole(7),
            method: numbers.whole(8),
            choices: Choices {
                capital: numbers.whole(9),
                upkeep: numbers.whole(10),
                returns: numbers.whole(11),
                rates: numbers.whole(12),
            },
            deflator: numbers.index(13),
            corporate: numbers.index(15),
            consumer: numbers.index(17),
            rates: numbers.rates(),
            reduction: numbers.reduction(),
        }
    }
}

// The terms that the text writes out.
pub fn read_terms(text: &[u8]) -> Result<Terms, TermsRefusal>
    ensures verdict { Verdict text.now result }
    ensures accepted { IfOk result (λ t. IsTextOf text.now t) }
    ensures one_verdict { OneVerdict }
    ensures reads_back { ReadsBack }
{
    let mut values = [0; COUNT];
    let mut rest = text;
    // By index: whether a number is in range depends on those before it too.
    for i in 0..COUNT {
        (values[i], rest) = read_line(rest, i).ok_or(TermsRefusal::Form(i + 1))?;
        if !in_range(&values, i) {
            return Err(TermsRefusal::Range(i + 1));
        }
    }
    if !rest.is_empty() {
        return Err(TermsRefusal::Form(COUNT + 1));
    }
    Ok(Numbers { values }.into())
}
