// Acts with notices. None is left when an act ends, and what it answers can be told in peace. The slots go beside the book
// and not into a struct with it: they change from call to call.
use book::book::Book;
use book::refused::{CloseRefusal, ObjectRefusal, SettleRefusal};
use book::table::NoticeNumbers;
use records::slot::Slot;
use rules::rule::Rule;
use yen::Settlement;

// Why an objection was refused, and what its notice came to, which was settled after all.
#[derive(Clone, Copy, Debug, PartialEq, Eq)]
pub(crate) struct SettledAfterAll {
    pub refusal: ObjectRefusal,
    pub settlement: Settlement,
}

// Closes a month by one rule in all three places, and objects to the notice.
pub(crate) fn close_and_object<R: Rule>(
    book: &mut Book,
    slots: &[Slot],
    rule: &R,
) -> Result<(NoticeNumbers, Result<(), SettledAfterAll>), CloseRefusal> {
    let notice = book.close_by(slots, rule, rule, rule)?;
    let numbers = notice.numbers();
    let objected = match book.object(notice) {
        Ok(()) => Ok(()),
        Err((notice, refusal)) => match book.settle(notice) {
            Ok(settlement) => Err(SettledAfterAll {
                refusal,
                settlement,
            }),
            Err((_notice, _refusal)) => unreachable!(),
        },
    };
    Ok((numbers, objected))
}

// Closes a month of the second book and offers its notice to the first one, which has another plant and hands it back.
// `None` where both have one plant or the month cannot be closed.
pub(crate) fn offer_foreign(
    first: &mut Book,
    second: &mut Book,
    slots: &[Slot],
) -> Option<(NoticeNumbers, SettleRefusal, Settlement)> {
    if first.contract().plant == second.contract().plant {
        return None;
    }
    let Ok(notice) = second.close(slots) else {
        return None;
    };
    let numbers = notice.numbers();
    match first.settle(notice) {
        Ok(_settlement) => unreachable!(),
        Err((back, refusal)) => match second.settle(back) {
            Ok(settlement) => Some((numbers, refusal, settlement)),
            Err((_notice, _refusal)) => unreachable!(),
        },
    }
}

// Closes a month twice: the second close is refused, since the notice of the first is out.
pub(crate) fn close_twice(
    book: &mut Book,
    slots: &[Slot],
) -> Result<(CloseRefusal, Settlement), CloseRefusal> {
    let notice = book.close(slots)?;
    match book.close(slots) {
        Ok(_second) => unreachable!(),
        Err(refusal) => match book.settle(notice) {
            Ok(settlement) => Ok((refusal, settlement)),
            Err((_notice, _refusal)) => unreachable!(),
        },
    }
}
