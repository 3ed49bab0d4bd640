// A contract year that has its price.
ghost use Rattle.std.specs.Prelude.{◌≡◌};
ghost use Rattle.terms.specs.Sound.{Named, Sized, Assessed, Worth};

use crate::figures::Contract;

// Terms that have their price. Only pricing makes them, and only they open a book.
#[derive(Clone, Copy, Debug, PartialEq, Eq)]
pub struct PricedTerms {
    pub(crate) contract: Contract,
    ghost named: { Named contract },
    ghost sized: { Sized contract },
    ghost assessed: { Assessed contract },
    ghost worth: { Worth contract },
}

impl PricedTerms {
    pub fn contract(&self) -> Contract
        ensures { result ≡ self.now.contract }
    {
        self.contract
    }
}
