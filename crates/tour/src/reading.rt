// Texts that the readers refuse.
use crate::telling::told;
use records::slot::Slot;
use std::io;
use terms_file::reading::read_terms;
use year_file::body::read_body;
use year_file::contents::read_contents;

fn april(rt: &HostRuntime, act: &str, text: &[u8], slots: &mut [Slot]) -> io::Result<()> {
    told(rt, act, read_body(2025, 1, text, slots).map(|()| "read"))
}

pub(crate) fn show(rt: &HostRuntime, slots: &mut [Slot]) -> io::Result<()> {
    let read = read_terms(b"\n").map(|_| "read");
    told(rt, "terms with no plant", read)?;
    let read = read_terms(b"1\n2024\n").map(|_| "read");
    told(rt, "terms of another year", read)?;
    let read = read_contents(b"02 00000252 00000018\n").map(|_| "read");
    told(rt, "contents that begin with May", read)?;
    let read = read_contents(b"01 00000253 00000018\n").map(|_| "read");
    told(rt, "contents that begin late", read)?;
    april(rt, "a body with a comma", b"100,100 0 50 ----\n", slots)?;
    april(
        rt,
        "a body with too much plan",
        b"100 2000001 0 50 ----\n",
        slots,
    )?;
    april(rt, "a body of one line", b"100 100 0 50 ----\n", slots)?;
    april(
        rt,
        "a body for too short a list",
        b"100 100 0 50 ----\n",
        &mut [],
    )
}
