// Settles the contract year of a folder: the one that the first argument names, or the current one.
#![tactic(auto)]

use files::ended::{Ended, status, told, write_line};
use files::folder::BODY_BYTES;
use files::year::Year;
use settlement::lines::{settle_line, totals_line};
use std::env;
use std::process::ExitCode;

fn settle_folder(rt: &HostRuntime, folder: &str) -> Result<(), Ended> {
    let mut year = Year::start(rt, folder, "year.txt")?;
    let mut room = [0u8; BODY_BYTES];
    for span in year.run.contents.spans {
        let body = year.next_body(span, &mut room)?;
        let line = settle_line(&mut year.run.book, body)?;
        write_line(rt, line.as_str().as_bytes())?;
    }
    write_line(rt, totals_line(&year.run.book).as_str().as_bytes())
}

// The folder that the first argument names, or the current one. Not shared between programs: a shared one would take
// the function as a closure, and ask that it can be called, for these two lines.
fn run(rt: &HostRuntime) -> Result<(), Ended> {
    let folder = env::args(rt)?.nth(1);
    settle_folder(rt, folder.as_deref().unwrap_or("."))
}

fn main(rt: HostRuntime) -> anyhow::Result<ExitCode> {
    status(told(&rt, run(&rt)))
}
