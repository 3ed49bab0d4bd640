// A tour of the calls, for whoever joins the module into a system: one plant from its terms to its totals.
#![tactic(auto)]

mod acts;
mod reading;
mod rule;
mod telling;

use acts::{close_and_object, close_twice, offer_foreign};
use book::book::Book;
use calendar::MOST_SLOTS;
use records::slot::{Outage, Slot};
use rule::LowReserveRule;
use statement::LINE_BYTES;
use std::io;
use std::io::Write;
use telling::{refused, told};
use terms::contract::PricedTerms;
use terms::pricing::price;
use terms::terms::{Choices, Index, Rates, Terms};

const KEPT: Slot = Slot {
    supply: 100,
    plan: 100,
    offer: 0,
    meter: 50,
    outage: Outage::NoOutage,
    low_reserve: false,
    dispatched: false,
    papers: false,
};

// Nothing was delivered on an instruction.
const SHORT: Slot = Slot {
    meter: 0,
    low_reserve: true,
    dispatched: true,
    ..KEPT
};

const STEADY: Index = Index {
    bid: 1_000,
    settled: 1_000,
};

const TERMS: Terms = Terms {
    plant: 1,
    year: 2025,
    capacity: 100,
    assessed: 100,
    hours: 30,
    capital: 12_345,
    upkeep: 0,
    returns: 0,
    method: 1,
    choices: Choices {
        capital: 0,
        upkeep: 0,
        returns: 0,
        rates: 0,
    },
    deflator: STEADY,
    corporate: STEADY,
    consumer: STEADY,
    rates: Rates { bid: 0, settled: 0 },
    reduction: 1,
};

// Prices the terms, or tells why not.
fn priced(rt: &HostRuntime, act: &str, terms: &Terms) -> io::Result<Option<PricedTerms>> {
    match price(terms) {
        Ok(terms) => {
            let contract = terms.contract();
            println!(rt;
                "{act}: {} yen for a kW, {} yen for the year",
                contract.price, contract.amount
            )?;
            Ok(Some(terms))
        }
        Err(refusal) => {
            refused(rt, act, refusal)?;
            Ok(None)
        }
    }
}

fn show_prices(rt: &HostRuntime) -> io::Result<Option<PricedTerms>> {
    let _ = priced(
        rt,
        "price of a plant assessed too low",
        &Terms {
            assessed: 9,
            ..TERMS
        },
    )?;
    let rates = Rates {
        bid: 6_000,
        settled: 999,
    };
    let choices = Choices {
        rates: 1,
        ..TERMS.choices
    };
    let _ = priced(
        rt,
        "price under falling rates",
        &Terms {
            rates,
            choices,
            ..TERMS
        },
    )?;
    let deflator = Index {
        bid: 100,
        settled: 9_999,
    };
    let choices = Choices {
        capital: 1,
        ..TERMS.choices
    };
    let _ = priced(
        rt,
        "price under a tall deflator",
        &Terms {
            deflator,
            choices,
            ..TERMS
        },
    )?;
    let _ = priced(
        rt,
        "price under a tall reduction",
        &Terms {
            reduction: 1_234_501,
            ..TERMS
        },
    )?;
    priced(rt, "price", &TERMS)
}

// Closes by the tour's own rule and objects.
fn show_objection(rt: &HostRuntime, book: &mut Book, slots: &[Slot]) -> io::Result<()> {
    match close_and_object(book, slots, &LowReserveRule) {
        Ok((notice, objected)) => {
            println!(rt; "close by the rule 7: {notice}")?;
            match objected {
                Ok(()) => println!(rt; "object: accepted"),
                Err(after_all) => {
                    refused(rt, "object", after_all.refusal)?;
                    println!(rt; "settle: {}", after_all.settlement)
                }
            }
        }
        Err(refusal) => refused(rt, "close", refusal),
    }
}

// Objects until no issue is left: the last notice can only be settled.
fn exhaust_issues(rt: &HostRuntime, book: &mut Book, slots: &[Slot]) -> io::Result<()> {
    for _ in 0..98 {
        let _ = close_and_object(book, slots, &LowReserveRule);
    }
    show_objection(rt, book, slots)
}

fn show_second_close(rt: &HostRuntime, book: &mut Book, slots: &[Slot]) -> io::Result<()> {
    match close_twice(book, slots) {
        Ok((refusal, answer)) => {
            refused(rt, "close April once more", refusal)?;
            println!(rt; "settle the second issue: {answer}")
        }
        Err(refusal) => refused(rt, "close April again", refusal),
    }
}

fn show_foreign(
    rt: &HostRuntime,
    book: &mut Book,
    other: &mut Book,
    slots: &[Slot],
) -> io::Result<()> {
    match offer_foreign(book, other, slots) {
        Some((notice, refusal, answer)) => {
            println!(rt; "close the other book: {notice}")?;
            refused(rt, "settle its notice in the first book", refusal)?;
            println!(rt; "settle it in its own: {answer}")
        }
        None => println!(rt; "no other book"),
    }
}

// What cannot be read or printed, and the totals.
fn show_lines(rt: &HostRuntime, book: &Book) -> io::Result<()> {
    match book.read_line(2) {
        Ok(line) => println!(rt;
            "read line 2: {} units by the rule {}, {} yen charged",
            line.units.dispatch, line.rules.dispatch, line.charged
        )?,
        Err(refusal) => refused(rt, "read line 2", refusal)?,
    }
    told(rt, "read line 0", book.read_line(0).map(|_| "a line"))?;
    let mut short = [0u8; 127];
    told(
        rt,
        "print line 0 into 127 bytes",
        book.print_line(0, &mut short).map(|_| "a line"),
    )?;
    let totals = book.read_totals();
    println!(rt;
        "totals: {} months, {} yen charged, net {} yen",
        totals.months, totals.charged, totals.net
    )
}

// The first months, one call after the other. April has 1,440 slots, and May 1,488: parts of one list serve both.
fn show_months(
    rt: &HostRuntime,
    book: &mut Book,
    other: &mut Book,
    slots: &mut [Slot],
) -> io::Result<()> {
    if slots.len() < MOST_SLOTS {
        return Ok(());
    }
    told(
        rt,
        "close April on May's slots",
        book.close_and_settle(slots),
    )?;
    slots[7].supply = 2_000_001;
    told(
        rt,
        "close April with too much supply",
        book.close_and_settle(&slots[0..1440]),
    )?;
    slots[7] = SHORT;
    show_objection(rt, book, &slots[0..1440])?;
    show_second_close(rt, book, &slots[0..1440])?;
    show_foreign(rt, book, other, &slots[0..1440])?;
    slots.fill(SHORT);
    told(
        rt,
        "close May, never delivered, and settle",
        book.close_and_settle(slots),
    )?;
    show_lines(rt, book)
}

// The months that are left, and a month too many. The totals go into a buffer of the size that print line asks for.
fn show_end(rt: &HostRuntime, book: &mut Book, slots: &[Slot]) -> io::Result<()> {
    if slots.len() < MOST_SLOTS {
        return Ok(());
    }
    exhaust_issues(rt, book, &slots[0..1440])?;
    for days in [31usize, 31, 30, 31, 30, 31, 31, 28, 31] {
        let _ = book.close_and_settle(&slots[..48 * days]);
    }
    told(rt, "close a thirteenth month", book.close_and_settle(slots))?;
    let mut out = [0u8; LINE_BYTES];
    match book.print_line(0, &mut out) {
        Ok(n) => rt.stdout().write_all(&out[..n]),
        Err(refusal) => refused(rt, "print the totals", refusal),
    }
}

fn run(rt: &HostRuntime) -> anyhow::Result<()> {
    let heap = rt.alloc();
    let mut slots = vec![in heap; KEPT; MOST_SLOTS]?;
    reading::show(rt, &mut slots[0..1440])?;
    let Some(terms) = show_prices(rt)? else {
        return Ok(());
    };
    let Some(others) = priced(rt, "price of another plant", &Terms { plant: 2, ..TERMS })? else {
        return Ok(());
    };
    let mut book = Book::open(terms);
    let mut other = Book::open(others);
    show_months(rt, &mut book, &mut other, slots.as_mut_slice())?;
    show_end(rt, &mut book, slots.as_slice())?;
    Ok(())
}

fn main(rt: HostRuntime) -> anyhow::Result<()> {
    run(&rt)
}
