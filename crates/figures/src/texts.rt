// A table of texts, good and damaged, each with the answer of its reader.
use records::slot::Slot;
use refusal::Refusal;
use std::alloc::{AllocError, Global};
use std::io;
use terms_file::reading::read_terms;
use year_file::body::read_body;
use year_file::contents::read_contents;

// What a text shows, the bytes of a good text that are exchanged for it, and what stands in their place.
struct Change(&'static str, &'static str, &'static str);

// What a body shows, its line 1,000, and what follows its last line.
struct Body(&'static str, &'static str, &'static str);

const TERMS: &str =
    "1\n2025\n100\n100\n30\n12345\n0\n0\n1\n0\n0\n0\n0\n1000\n1000\n1000\n1000\n1000\n1000\n0\n0\n1\n";

const TERMS_CHANGES: [Change; 15] = [
    Change("the terms of the sample", "", ""),
    Change("no plant", "1\n2025", "\n2025"),
    Change("a leading zero", "2025", "02025"),
    Change("a year too early", "2025", "2024"),
    Change("a minus before the hours", "\n30\n", "\n-30\n"),
    Change("a blank after the hours", "\n30\n", "\n30 \n"),
    Change("fourteen digits", "12345", "12345000000000"),
    Change("thirteen digits", "12345", "1234500000000"),
    Change(
        "a capacity above ten times the assessed one",
        "\n100\n100\n",
        "\n1001\n100\n",
    ),
    Change("an index too low", "1000\n1000\n0\n", "1000\n99\n0\n"),
    Change(
        "a rate below zero",
        "1000\n0\n0\n1\n",
        "1000\n-1000\n0\n1\n",
    ),
    Change("a rate too low", "1000\n0\n0\n1\n", "1000\n-1001\n0\n1\n"),
    Change(
        "a minus before a zero rate",
        "1000\n0\n0\n1\n",
        "1000\n0\n-0\n1\n",
    ),
    Change("no last line end", "1000\n0\n0\n1\n", "1000\n0\n0\n1"),
    Change(
        "a byte after the last line",
        "1000\n0\n0\n1\n",
        "1000\n0\n0\n1\n\n",
    ),
];

// Twelve bodies that are as long as a body may be.
const CONTENTS: &str = "\
    01 00000252 00060000\n\
    02 00060252 00060000\n\
    03 00120252 00060000\n\
    04 00180252 00060000\n\
    05 00240252 00060000\n\
    06 00300252 00060000\n\
    07 00360252 00060000\n\
    08 00420252 00060000\n\
    09 00480252 00060000\n\
    10 00540252 00060000\n\
    11 00600252 00060000\n\
    12 00660252 00060000\n\
    ";

const CONTENTS_CHANGES: [Change; 8] = [
    Change("contents of twelve full bodies", "", ""),
    Change("a first body at 253", "00000252", "00000253"),
    Change("a gap before the fifth body", "05 00240252", "05 00240253"),
    Change(
        "a body too long",
        "03 00120252 00060000",
        "03 00120252 00060001",
    ),
    Change("a month twice", "04 ", "03 "),
    Change("a month of one digit", "07 ", " 7 "),
    Change(
        "no line end after the last entry",
        "12 00660252 00060000\n",
        "12 00660252 00060000",
    ),
    Change(
        "bytes after the contents",
        "12 00660252 00060000\n",
        "12 00660252 00060000\nmore",
    ),
];

const LINE: &str = "100 100 0 50 ----\n";

// Bodies of February in a common year, which has 1,344 lines.
const BODIES: [Body; 14] = [
    Body("a body of 1,344 lines", LINE, ""),
    Body(
        "the longest line",
        "2000000 2000000 2000000 1000000 uLDE\n",
        "",
    ),
    Body("a supply above its limit", "2000001 0 0 0 ----\n", ""),
    Body("a meter above its limit", "0 0 0 1000001 ----\n", ""),
    Body("a limit and a wrong letter", "2000001 0 0 0 -D--\n", ""),
    Body("a leading zero in a line", "0100 100 0 50 ----\n", ""),
    Body("an eighth digit", "10000000 0 0 0 ----\n", ""),
    Body("two blanks", "100  100 0 50 ----\n", ""),
    Body("three letters", "100 100 0 50 ---\n", ""),
    Body("five letters", "100 100 0 50 -----\n", ""),
    Body("a line without its end", "100 100 0 50 ----", ""),
    Body("a line too few", "", ""),
    Body("a line too many", LINE, LINE),
    Body("a damaged line too many", LINE, "x"),
];

fn tell<T: Drop, E: Into<Refusal> + Drop>(
    rt: &HostRuntime,
    what: &str,
    answer: Result<T, E>,
) -> io::Result<()> {
    match answer {
        Ok(_) => println!(rt; "{what}: read"),
        Err(refusal) => {
            let refusal: Refusal = refusal.into();
            println!(rt; "{what}: {refusal}")
        }
    }
}

// A text with some bytes of it exchanged for others.
fn changed(heap: Global, text: &str, from: &str, to: &str) -> Result<String, AllocError> {
    match text.split_once(from) {
        Some((before, after)) => format!(in heap; "{before}{to}{after}"),
        None => String::from_str(heap, text),
    }
}

fn show_changes<T: Drop, E: Into<Refusal> + Drop, F: Fn(&[u8]) -> Result<T, E>>(
    rt: &HostRuntime,
    text: &str,
    changes: &[Change],
    read: F,
) -> anyhow::Result<()>
    requires { F.IsAlwaysCallable read }
{
    for Change(what, from, to) in changes {
        let text = changed(rt.alloc(), text, from, to)?;
        tell(rt, what, read(text.as_bytes()))?;
    }
    Ok(())
}

fn show_bodies(rt: &HostRuntime) -> anyhow::Result<()> {
    let heap = rt.alloc();
    let before = LINE.repeat(heap, 999)?;
    let after = LINE.repeat(heap, 344)?;
    let mut slots = vec![in heap; Slot::default(); 1344]?;
    for Body(what, line, rest) in &BODIES {
        let text = format!(in heap; "{before}{line}{after}{rest}")?;
        tell(
            rt,
            what,
            read_body(2025, 11, text.as_bytes(), slots.as_mut_slice()),
        )?;
    }
    Ok(())
}

pub(crate) fn show(rt: &HostRuntime) -> anyhow::Result<()> {
    show_changes(rt, TERMS, &TERMS_CHANGES, read_terms)?;
    show_changes(rt, CONTENTS, &CONTENTS_CHANGES, read_contents)?;
    show_bodies(rt)
}
