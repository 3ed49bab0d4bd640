// The numbers and places of refusals.
ghost use Rattle.std.specs.Prelude.{◌≡◌};
ghost use Rattle.book.specs.Refusals.{close_refusal, settle_refusal, object_refusal, read_line_refusal, print_line_refusal, from_slots};

use crate::refused::{
    CloseRefusal, ObjectRefusal, PrintLineRefusal, ReadLineRefusal, SettleRefusal,
};
use refusal::Refusal;
use rules::assessment::SlotsRefusal;

impl From<CloseRefusal> for Refusal {
    ghost from_gives = { λ e r. r ≡ close_refusal e };

    fn from(refusal: CloseRefusal) -> Refusal {
        match refusal {
            CloseRefusal::NoticeOut => Refusal::without_place(12),
            CloseRefusal::YearSettled => Refusal::without_place(13),
            CloseRefusal::WrongSlotCount => Refusal::without_place(14),
            CloseRefusal::UnfitSlot(place) => Refusal { number: 15, place },
        }
    }
}

// By hand, as contracts cite what `?` makes of it; a derive has no contract.
impl From<SlotsRefusal> for CloseRefusal {
    ghost from_gives = { λ s r. r ≡ from_slots s };

    fn from(refusal: SlotsRefusal) -> CloseRefusal {
        match refusal {
            SlotsRefusal::WrongSlotCount => CloseRefusal::WrongSlotCount,
            SlotsRefusal::UnfitSlot(place) => CloseRefusal::UnfitSlot(place),
        }
    }
}

impl From<SettleRefusal> for Refusal {
    ghost from_gives = { λ e r. r ≡ settle_refusal e };

    fn from(refusal: SettleRefusal) -> Refusal {
        match refusal {
            SettleRefusal::OtherNotice => Refusal::without_place(16),
        }
    }
}

impl From<ObjectRefusal> for Refusal {
    ghost from_gives = { λ e r. r ≡ object_refusal e };

    fn from(refusal: ObjectRefusal) -> Refusal {
        match refusal {
            ObjectRefusal::OtherNotice => Refusal::without_place(16),
            ObjectRefusal::LastIssue => Refusal::without_place(17),
        }
    }
}

impl From<ReadLineRefusal> for Refusal {
    ghost from_gives = { λ e r. r ≡ read_line_refusal e };

    fn from(refusal: ReadLineRefusal) -> Refusal {
        match refusal {
            ReadLineRefusal::NoLine => Refusal::without_place(18),
        }
    }
}

impl From<PrintLineRefusal> for Refusal {
    ghost from_gives = { λ e r. r ≡ print_line_refusal e };

    fn from(refusal: PrintLineRefusal) -> Refusal {
        match refusal {
            PrintLineRefusal::NoLine => Refusal::without_place(18),
            PrintLineRefusal::ShortBuffer => Refusal::without_place(19),
        }
    }
}
