// The files of a folder.
ghost use Rattle.std.specs.Prelude.{IfErr, IsTrue, Ok, MatchResult};
ghost use Rattle.files.specs.Ends.{is_error};
ghost use Rattle.files.specs.Starts.{StartsFromFronts, EndsStart};

use crate::ended::Ended;
use crate::source::Source;
use settlement::run::Run;
use settlement::start::{CONTENTS_BYTES, TERMS_BYTES, start};
use year_file::contents::MOST_BODY_BYTES;

// The bytes of the longest body, as the length of a buffer. One buffer serves all bodies of a year.
pub const BODY_BYTES: usize = MOST_BODY_BYTES as usize;

pub fn open_file(rt: &HostRuntime, folder: &str, name: &str) -> Result<Source, Ended>
    ensures { IfErr result (λ ended. IsTrue (is_error ended)) }
{
    let path = format!(in rt.alloc(); "{folder}/{name}")?;
    Ok(Source::open(rt, path.as_str())?)
}

// Starts a run from the terms of a folder and the contents at the start of a year's file. Buffers of fixed size, cut to
// what came: the first bytes of the two texts decide how a run starts, and no memory is taken for them.
pub fn start_run(rt: &HostRuntime, folder: &str, year: &mut Source) -> Result<Run, Ended>
    ensures { MatchResult result (λ run. StartsFromFronts TERMS_BYTES CONTENTS_BYTES (Ok run)) (EndsStart TERMS_BYTES CONTENTS_BYTES) }
{
    let mut terms = [0u8; TERMS_BYTES];
    let terms_bytes = open_file(rt, folder, "terms.txt")?.fill(&mut terms)?;
    let mut contents = [0u8; CONTENTS_BYTES];
    let contents_bytes = year.fill(&mut contents)?;
    Ok(start(&terms[..terms_bytes], &contents[..contents_bytes])?)
}
