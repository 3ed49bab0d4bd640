// What a refused call tells its caller.
#![tactic(auto)]

ghost use Rattle.std.specs.Prelude.{◌≡◌, Some};
ghost use Rattle.refusal.specs.Text.{refusal_text};

use std::fmt;

// The number of the refusal, and the place that it speaks of: a line, a month or a slot, or 0 where it names none. Plain
// numbers, as they are told outside; the enums of the calls say what they mean.
#[derive(Clone, Copy, Debug, PartialEq, Eq)]
pub struct Refusal {
    pub number: u8,
    pub place: usize,
}

impl Refusal {
    pub const fn without_place(number: u8) -> Refusal
        ensures { result ≡ record { number = number; place = 0 } }
    {
        Refusal { number, place: 0 }
    }
}

impl fmt::Display for Refusal {
    ghost output = { λ r. Some (refusal_text r) };

    fn fmt<W: fmt::Write>(&self, f: &mut fmt::Formatter<W>) -> fmt::Result {
        write!(f, "{} at {}", self.number, self.place)
    }
}
