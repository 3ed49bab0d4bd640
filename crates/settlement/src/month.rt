// One month of a run.
ghost use Rattle.settlement.specs.Runs.{MonthSettled};

use crate::body::{MonthBody, read_slots};
use crate::refused::RunRefusal;
use book::book::Book;
use calendar::MOST_SLOTS;
use records::slot::Slot;
use yen::Settlement;

// Reads the body of the book's first unsettled month, closes the month by the standard rules and settles it at once.
pub fn settle_month(book: &mut Book, body: MonthBody<'_>) -> Result<Settlement, RunRefusal>
    ensures { MonthSettled book.old.table body.entry.text.now body.entry.bytes_after result book.new.table }
{
    let open = book.open_month();
    let mut room = [Slot::default(); MOST_SLOTS];
    let read = read_slots(&open, body.text, &mut room);
    let slots = read.map_err(|refusal| RunRefusal::Body(open.month, refusal))?;
    if open.month == 12 && body.bytes_after {
        return Err(RunRefusal::BytesAfter);
    }
    book.close_and_settle(slots)
        .map_err(|refusal| RunRefusal::Close(open.month, refusal))
}
