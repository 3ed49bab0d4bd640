// Whether a month is better kept in one body than in another.
ghost use Rattle.std.specs.Prelude.{◌↔◌, IsTrue};
ghost use Rattle.settlement.specs.Runs.{BetterBody};

use crate::body::read_slots;
use calendar::MOST_SLOTS;
use records::order::are_no_worse;
use records::slot::Slot;
use rules::assessment::OpenMonth;

// Whether both texts are bodies of the month, and each slot of the first is no worse than the one in its place.
pub fn is_better_kept(open: &OpenMonth, better: &[u8], worse: &[u8]) -> bool
    ensures { IsTrue result ↔ BetterBody «open».now better.now worse.now }
{
    let mut better_room = [Slot::default(); MOST_SLOTS];
    let mut worse_room = [Slot::default(); MOST_SLOTS];
    let Ok(better_slots) = read_slots(open, better, &mut better_room) else {
        return false;
    };
    let Ok(worse_slots) = read_slots(open, worse, &mut worse_room) else {
        return false;
    };
    are_no_worse(better_slots, worse_slots)
}
