// Two books beside each other.
ghost use Rattle.book.specs.Comparing.{Compares};
ghost use Rattle.book.specs.History.{HasHistory};
ghost use Rattle.book.specs.Promise.{NoBetterKeptYearCostsMore};

use crate::book::Book;
use crate::comparison::Comparison;

// Compares two books over the months that both have settled. No better-kept year costs its plant more: whatever calls
// led to the two books, and whatever rules they were closed by.
pub fn compare(first: &Book, second: &Book) -> Comparison
    ensures answer { Compares first.now.table second.now.table result }
    ensures histories { HasHistory first.now.table × HasHistory second.now.table }
    ensures no_better_kept_year_costs_more { NoBetterKeptYearCostsMore first.now.table second.now.table }
{
    let months = first.table.settled.min(second.table.settled);
    Comparison {
        months,
        first: first.first_lines(months).sums(),
        second: second.first_lines(months).sums(),
    }
}
