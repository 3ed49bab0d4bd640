// The body reader, for a benchmark in another language to link.
#![tactic(auto)]

ghost use Rattle.bench_body.specs.Answer.{Answered};

use calendar::MOST_SLOTS;
use records::slot::Slot;
use refusal::Refusal;
use year_file::body::read_body;

// The number of the refusal of a body of May 2025, or 0 where it is read: C has no `Result`.
#[unsafe(no_mangle)]
pub extern "C" fn read_may(text: &[u8]) -> u8
    ensures { Answered text.now result }
{
    let mut slots = [Slot::default(); MOST_SLOTS];
    match read_body(2025, 2, text, &mut slots) {
        Ok(()) => 0,
        Err(refused) => Refusal::from(refused).number,
    }
}
