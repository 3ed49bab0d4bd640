// The bodies of months.
ghost use Rattle.std.specs.Prelude.{Ok, Err, MatchResult};
ghost use Rattle.settlement.specs.Runs.{BodySays};

use calendar::{MOST_SLOTS, slots_in};
use records::slot::Slot;
use rules::assessment::OpenMonth;
use year_file::body::{BodyRefusal, read_body};

// The body of a month as it stands in the file of its year.
#[derive(Clone, Copy, Debug, PartialEq, Eq)]
pub struct MonthBody<'a> {
    pub text: &'a [u8],
    // Bytes stand after the body of the last month. They are looked at between that body and its close, so no caller can
    // judge them alone.
    pub bytes_after: bool,
}

// The slots of a body of the month, which are read into the front of the room: the reader fills a lent list, and there is
// no heap.
pub(crate) fn read_slots<'a>(
    open: &OpenMonth,
    text: &[u8],
    room: &'a mut [Slot; MOST_SLOTS],
) -> Result<&'a [Slot], BodyRefusal>
    ensures { MatchResult result (λ slots. BodySays «open».now text.now (Ok slots.now)) (λ refusal. BodySays «open».now text.now (Err refusal)) }
{
    let count = slots_in(open.year, open.month).ok_or(BodyRefusal::WrongSlotCount)?;
    let slots = &mut room[..count as usize];
    read_body(open.year, open.month, text, slots)?;
    Ok(slots)
}
