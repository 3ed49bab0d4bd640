// The number, the place and the month of a run's refusal.
ghost use Rattle.std.specs.Prelude.{◌≡◌, Some};
ghost use Rattle.settlement.specs.Refusals.{run_refusal, run_month, run_text};
ghost use Rattle.settlement.specs.declared.refused.RunRefusal.TheVariants.{Terms, Price, Contents};

use crate::refused::RunRefusal;
use refusal::Refusal;
use std::fmt;
use terms::refusals::PriceRefusal;
use terms_file::refusals::TermsRefusal;
use year_file::contents::ContentsRefusal;

impl From<RunRefusal> for Refusal {
    ghost from_gives = { λ e r. r ≡ run_refusal e };

    fn from(refusal: RunRefusal) -> Refusal {
        match refusal {
            RunRefusal::Terms(refusal) => refusal.into(),
            RunRefusal::Price(refusal) => refusal.into(),
            RunRefusal::Contents(refusal) => refusal.into(),
            RunRefusal::Body(_, refusal) => refusal.into(),
            RunRefusal::BytesAfter => Refusal::without_place(11),
            RunRefusal::Close(_, refusal) => refusal.into(),
        }
    }
}

impl RunRefusal {
    // The month that was to be settled, or 0 before the first, as a program prints it.
    pub fn month(&self) -> u8
        ensures { result ≡ run_month self.now }
    {
        match *self {
            RunRefusal::Terms(_) | RunRefusal::Price(_) | RunRefusal::Contents(_) => 0,
            RunRefusal::Body(month, _) | RunRefusal::Close(month, _) => month,
            RunRefusal::BytesAfter => 12,
        }
    }
}

// The line that a program prints of it.
impl fmt::Display for RunRefusal {
    ghost output = { λ e. Some (run_text e) };

    fn fmt<W: fmt::Write>(&self, f: &mut fmt::Formatter<W>) -> fmt::Result {
        let number = Refusal::from(*self).number;
        let month = self.month();
        write!(f, "refused {number} {month}")
    }
}

// These three by hand, as contracts cite what `?` makes of them; a derive has no contract.
impl From<TermsRefusal> for RunRefusal {
    ghost from_gives = { λ e r. r ≡ Terms e };

    fn from(refusal: TermsRefusal) -> RunRefusal {
        RunRefusal::Terms(refusal)
    }
}

impl From<PriceRefusal> for RunRefusal {
    ghost from_gives = { λ e r. r ≡ Price e };

    fn from(refusal: PriceRefusal) -> RunRefusal {
        RunRefusal::Price(refusal)
    }
}

impl From<ContentsRefusal> for RunRefusal {
    ghost from_gives = { λ e r. r ≡ Contents e };

    fn from(refusal: ContentsRefusal) -> RunRefusal {
        RunRefusal::Contents(refusal)
    }
}
