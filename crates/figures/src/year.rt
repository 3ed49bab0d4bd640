// A leap year of 17,568 longest lines, settled from its texts.
use anyhow::bail;
use settlement::body::MonthBody;
use settlement::lines::{settle_line, totals_line};
use settlement::start::{CONTENTS_BYTES, start};
use std::io::Write;

const TERMS: &[u8] =
    b"999999\n2027\n2000000\n2000000\n1000\n200000\n200000\n200000\n2\n0\n0\n0\n0\n1000\n1000\n1000\n1000\n1000\n1000\n0\n0\n0\n";

pub(crate) const LONGEST: &str = "2000000 2000000 2000000 1000000 uLDE\n";

const DAYS: [usize; 12] = [30, 31, 30, 31, 31, 30, 31, 30, 31, 31, 29, 31];

pub(crate) fn show(rt: &HostRuntime) -> anyhow::Result<()> {
    let heap = rt.alloc();
    let mut contents = String::new(heap);
    let mut at = CONTENTS_BYTES;
    for (month, days) in (1..13u8).zip(DAYS) {
        let length = days.saturating_mul(48).saturating_mul(LONGEST.len());
        contents.push_str(format!(in heap; "{month:02} {at:08} {length:08}\n")?.as_str())?;
        at = at.saturating_add(length);
    }
    let Ok(mut run) = start(TERMS, contents.as_bytes()) else {
        bail!("the year was not started");
    };
    for days in DAYS {
        let text = LONGEST.repeat(heap, days.saturating_mul(48))?;
        let body = MonthBody {
            text: text.as_bytes(),
            bytes_after: false,
        };
        let Ok(line) = settle_line(&mut run.book, body) else {
            bail!("a month was not settled");
        };
        rt.stdout().write_all(line.as_str().as_bytes())?;
    }
    rt.stdout()
        .write_all(totals_line(&run.book).as_str().as_bytes())?;
    Ok(())
}
