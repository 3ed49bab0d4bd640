// Answers in words.
use refusal::Refusal;
use std::fmt::Display;
use std::io;

pub(crate) fn refused<E: Into<Refusal> + Drop>(
    rt: &HostRuntime,
    act: &str,
    refusal: E,
) -> io::Result<()> {
    let refusal: Refusal = refusal.into();
    println!(rt; "{act}: refused with {refusal}")
}

// What an act was answered with, or why it was refused.
pub(crate) fn told<T: Display + Drop, E: Into<Refusal> + Drop>(
    rt: &HostRuntime,
    act: &str,
    answer: Result<T, E>,
) -> io::Result<()> {
    match answer {
        Ok(answer) => println!(rt; "{act}: {answer}"),
        Err(refusal) => refused(rt, act, refusal),
    }
}
