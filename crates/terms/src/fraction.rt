// Fractions of whole numbers, with nothing cut.
ghost use Rattle.std.specs.Prelude.{◌≡◌, ◌+◌, ◌*◌, ◌^◌, ◌<◌};
ghost use Rattle.terms.specs.Fractions.{of, plus, times};

use std::ops::{Add, Mul};

// Two fractions are equal where both their numbers are: none is reduced.
#[derive(Clone, Copy, Debug, PartialEq, Eq)]
pub struct Fraction {
    pub num: u128,
    pub den: u128,
}

impl Fraction {
    pub const ONE: Fraction = Fraction { num: 1, den: 1 };
}

// A number of times the fraction.
impl Mul<Fraction> for u32 {
    type Output = Fraction;

    ghost can_mul = { λ n f. n * f.num < 2 ^ 128 };

    ghost mul_gives = { λ n f r. r ≡ of n f };

    fn mul(self, other: Fraction) -> Fraction {
        Fraction {
            num: u128::from(self) * other.num,
            den: other.den,
        }
    }
}

impl Mul for Fraction {
    type Output = Fraction;

    ghost can_mul = { λ f g. (f.num * g.num < 2 ^ 128) × (f.den * g.den < 2 ^ 128) };

    ghost mul_gives = { λ f g r. r ≡ times f g };

    fn mul(self, other: Fraction) -> Fraction {
        Fraction {
            num: self.num * other.num,
            den: self.den * other.den,
        }
    }
}

impl Add for Fraction {
    type Output = Fraction;

    ghost can_add = { λ f g. (f.num * g.den + g.num * f.den < 2 ^ 128) × (f.den * g.den < 2 ^ 128) };

    ghost add_gives = { λ f g r. r ≡ plus f g };

    fn add(self, other: Fraction) -> Fraction {
        Fraction {
            num: self.num * other.den + other.num * self.den,
            den: self.den * other.den,
        }
    }
}
