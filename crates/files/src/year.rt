// A year that is settled from the files of a folder.
ghost use Rattle.std.specs.Prelude.{◌≡◌, ◌≤◌, false, [], length, Ok, IfOk, IsOkAnd, IsTrue, MatchResult};
ghost use Rattle.book.specs.Calls.{open_month};
ghost use Rattle.files.specs.Sources.{is_missing};
ghost use Rattle.files.specs.Starts.{StartsFromFronts, EndsStart};

use crate::ended::Ended;
use crate::folder::{open_file, start_run};
use crate::source::Source;
use settlement::body::MonthBody;
use settlement::run::Run;
use settlement::start::{CONTENTS_BYTES, TERMS_BYTES};
use std::io;
use year_file::contents::Span;

// The run, and the file that its bodies are read from.
#[derive(Drop)]
pub struct Year {
    source: Source,
    pub run: Run,
}

impl Year {
    pub fn start(rt: &HostRuntime, folder: &str, name: &str) -> Result<Year, Ended>
        ensures { MatchResult result (λ year. StartsFromFronts TERMS_BYTES CONTENTS_BYTES (Ok year.run)) (EndsStart TERMS_BYTES CONTENTS_BYTES) }
    {
        let mut source = open_file(rt, folder, name)?;
        let run = start_run(rt, folder, &mut source)?;
        Ok(Year { source, run })
    }

    // Reads the next body into the front of the room: one buffer of the caller's serves all bodies. Bodies follow one
    // another, so of the span only the length is asked for.
    pub fn next_body<'a>(&mut self, span: Span, room: &'a mut [u8]) -> io::Result<MonthBody<'a>>
        ensures unchanged { self.new.run ≡ self.old.run }
        ensures within { IfOk result (λ body. (length body.text.now ≤ span.length) × (length body.text.now ≤ length room.old)) }
        ensures missing { IsTrue (is_missing self.old.source) → IsOkAnd result (λ body. (body.text.now ≡ []) × (body.bytes_after ≡ false)) }
        ensures after_last { IfOk result (λ body. IsTrue body.bytes_after → (open_month self.old.run.book.table).month ≡ 12) }
    {
        let got = self.source.fill_front(room, span.length as usize)?;
        let bytes_after = self.run.book.open_month().month == 12 && !self.source.is_at_end()?;
        Ok(MonthBody {
            text: &room[..got],
            bytes_after,
        })
    }
}
