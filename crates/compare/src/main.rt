// Settles two years of one plant on the same terms, `year.txt` and `other.txt` of a folder, and compares them.
#![tactic(auto)]

use book::book::Book;
use book::compare::compare;
use files::ended::{Ended, status, told, write_line};
use files::folder::BODY_BYTES;
use files::year::Year;
use settlement::better::is_better_kept;
use settlement::body::MonthBody;
use settlement::lines::{settle_line, totals_line};
use std::env;
use std::process::ExitCode;

// How many of the first months are better kept in each of the two books.
#[derive(Clone, Copy, Debug, Default, PartialEq, Eq)]
struct BetterKept {
    first: u8,
    second: u8,
}

// One month more that is better kept, if those before it are.
fn counted(before: u8, month: u8, better: bool) -> u8 {
    if better && before.saturating_add(1) == month {
        month
    } else {
        before
    }
}

// Settles the next month of a book from its body, and prints its line.
fn settle_body(
    rt: &HostRuntime,
    name: &str,
    book: &mut Book,
    body: MonthBody<'_>,
) -> Result<(), Ended> {
    print!(rt; "{name} ")?;
    let line = settle_line(book, body)?;
    write_line(rt, line.as_str().as_bytes())
}

// Settles the months of both years one by one, and counts those that are better kept in one of them.
fn settle_years(
    rt: &HostRuntime,
    first: &mut Year,
    second: &mut Year,
) -> Result<BetterKept, Ended> {
    let mut room = [0u8; BODY_BYTES];
    let mut other_room = [0u8; BODY_BYTES];
    let mut kept = BetterKept::default();
    let spans = first.run.contents.spans;
    let other_spans = second.run.contents.spans;
    for (span, other_span) in spans.into_iter().zip(other_spans) {
        let body = first.next_body(span, &mut room)?;
        let other = second.next_body(other_span, &mut other_room)?;
        let open = first.run.book.open_month();
        let better = is_better_kept(&open, body.text, other.text);
        kept.first = counted(kept.first, open.month, better);
        let better = is_better_kept(&open, other.text, body.text);
        kept.second = counted(kept.second, open.month, better);
        settle_body(rt, "first", &mut first.run.book, body)?;
        settle_body(rt, "second", &mut second.run.book, other)?;
    }
    Ok(kept)
}

fn print_totals(rt: &HostRuntime, name: &str, book: &Book) -> Result<(), Ended> {
    print!(rt; "{name} ")?;
    write_line(rt, totals_line(book).as_str().as_bytes())
}

fn print_comparison(
    rt: &HostRuntime,
    first: &Book,
    second: &Book,
    kept: BetterKept,
) -> Result<(), Ended> {
    print_totals(rt, "first", first)?;
    print_totals(rt, "second", second)?;
    println!(rt; "months better kept in the second: {}", kept.second)?;
    println!(rt; "months better kept in the first: {}", kept.first)?;
    let compared = compare(first, second);
    println!(rt; "months settled in both: {}", compared.months)?;
    println!(rt; "first: {}", compared.first)?;
    println!(rt; "second: {}", compared.second)?;
    Ok(())
}

fn compare_folder(rt: &HostRuntime, folder: &str) -> Result<(), Ended> {
    let mut first = Year::start(rt, folder, "year.txt")?;
    let mut second = Year::start(rt, folder, "other.txt")?;
    let kept = settle_years(rt, &mut first, &mut second)?;
    print_comparison(rt, &first.run.book, &second.run.book, kept)
}

// The folder that the first argument names, or the current one. Not shared between programs: a shared one would take
// the function as a closure, and ask that it can be called, for these two lines.
fn run(rt: &HostRuntime) -> Result<(), Ended> {
    let folder = env::args(rt)?.nth(1);
    compare_folder(rt, folder.as_deref().unwrap_or("."))
}

fn main(rt: HostRuntime) -> anyhow::Result<ExitCode> {
    status(told(&rt, run(&rt)))
}
