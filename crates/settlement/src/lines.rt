// Statement lines of a run.
ghost use Rattle.std.specs.Prelude.{◌≡◌, Err, MatchResult};
ghost use Rattle.book.specs.Calls.{text_at};
ghost use Rattle.settlement.specs.Runs.{MonthSettled, SettledAndShown};

use crate::body::MonthBody;
use crate::month::settle_month;
use crate::refused::RunRefusal;
use arrayvec::ArrayString;
use book::book::Book;
pub use statement::LINE_BYTES;

// Settles the book's first unsettled month from its body; answers its statement line.
pub fn settle_line(
    book: &mut Book,
    body: MonthBody<'_>,
) -> Result<ArrayString<LINE_BYTES>, RunRefusal>
    ensures { MatchResult result
        (λ line. SettledAndShown book.old.table body.entry.text.now body.entry.bytes_after line.bytes book.new.table)
        (λ refusal. MonthSettled book.old.table body.entry.text.now body.entry.bytes_after (Err refusal) book.new.table) }
{
    let month = book.open_month().month;
    let _settlement = settle_month(book, body)?;
    let Some(statement) = book.statement(month) else {
        unreachable!();
    };
    Ok(statement.line())
}

// The statement line of the settled months together.
pub fn totals_line(book: &Book) -> ArrayString<LINE_BYTES>
    ensures { result.bytes ≡ text_at book.now.table 0 }
{
    book.totals_statement().line()
}
