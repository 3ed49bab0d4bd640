// The start of a run: terms, price and contents.
ghost use Rattle.settlement.specs.Runs.{Started, FirstBytesDecide};

use crate::refused::RunRefusal;
use crate::run::Run;
use book::book::Book;
use terms::pricing::price;
use terms_file::reading::read_terms;
pub use year_file::contents::CONTENTS_BYTES;
use year_file::contents::read_contents;

// So many bytes of the terms are enough to start a run by: 22 lines in form have at most 310. Of the year CONTENTS_BYTES are.
pub const TERMS_BYTES: usize = 1_024;

// Reads the terms, prices them, reads the contents at the start of the year's text, and opens a book.
pub fn start(terms: &[u8], year: &[u8]) -> Result<Run, RunRefusal>
    ensures started { Started terms.now year.now result }
    ensures first_bytes_decide { FirstBytesDecide TERMS_BYTES CONTENTS_BYTES }
{
    let terms = read_terms(terms)?;
    let priced = price(&terms)?;
    let contents = read_contents(year)?;
    Ok(Run {
        book: Book::open(priced),
        contents,
    })
}
