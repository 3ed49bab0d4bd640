// The calendar of fiscal years: the first day of each month, and the slots of a month.
#![tactic(auto)]

mod table;

ghost use Rattle.std.specs.Prelude.{◌≡◌};
ghost use Rattle.calendar.specs.Calendar.{first_day_of, slots_in};

use table::FIRST_DAYS;

const FIRST_YEAR: u16 = 2025;

const LAST_YEAR: u16 = 2074;

const SLOTS_IN_DAY: u32 = 48;

// The slots of the longest month, which has 31 days.
pub const MOST_SLOTS: usize = 1488;

// The first day of the month that comes `k` months after April 2025, as far as the table goes.
pub fn first_day(k: usize) -> Option<u32>
    ensures { result ≡ first_day_of k }
{
    FIRST_DAYS.get(k).copied()
}

// The half-hour slots of a month of a fiscal year: month 1 is April.
pub fn slots_in(year: u16, month: u8) -> Option<u16>
    ensures { result ≡ slots_in year month }
{
    if year < FIRST_YEAR || year > LAST_YEAR || month < 1 || month > 12 {
        return None;
    }
    let k = usize::from(year - FIRST_YEAR) * 12 + (usize::from(month) - 1);
    let days = first_day(k + 1)? - first_day(k)?;
    Some((days * SLOTS_IN_DAY) as u16)
}
