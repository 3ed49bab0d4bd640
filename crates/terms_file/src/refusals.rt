// What is wrong with a text of terms.
ghost use Rattle.std.specs.Prelude.{◌≡◌};
ghost use Rattle.terms_file.specs.Refusals.{terms_refusal};

use refusal::Refusal;

// Lines count from 1.
#[derive(Clone, Copy, Debug, PartialEq, Eq)]
pub enum TermsRefusal {
    // the line is missing or out of form, or nothing should stand there
    Form(usize),
    // the number of the line is out of its range
    Range(usize),
}

impl From<TermsRefusal> for Refusal {
    ghost from_gives = { λ e r. r ≡ terms_refusal e };

    fn from(refused: TermsRefusal) -> Refusal {
        match refused {
            TermsRefusal::Form(line) => Refusal {
                number: 1,
                place: line,
            },
            TermsRefusal::Range(line) => Refusal {
                number: 2,
                place: line,
            },
        }
    }
}
