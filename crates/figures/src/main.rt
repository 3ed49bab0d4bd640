// Worked figures, executed: each line has what was asked and what came.
#![tactic(auto)]

mod texts;
mod year;

use calendar::{first_day, slots_in};
use std::io;

fn show_calendar(rt: &HostRuntime) -> io::Result<()> {
    let february = slots_in(2027, 11);
    println!(rt; "February 2028 has {february:?} slots")?;
    let last = first_day(600);
    println!(rt;
        "the last entry of the table is {last:?}, and none follows: {:?}",
        first_day(601)
    )
}

fn run(rt: &HostRuntime) -> anyhow::Result<()> {
    show_calendar(rt)?;
    texts::show(rt)?;
    year::show(rt)
}

fn main(rt: HostRuntime) -> anyhow::Result<()> {
    run(&rt)
}
