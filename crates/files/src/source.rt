// A file that is read piece by piece. One that is missing counts as empty.
ghost use Rattle.std.specs.Prelude.{◌≡◌, ◌≢◌, ◌≤◌, true, length, IfErr, IfOk, IsTrue};
ghost use Rattle.std.specs.IoError.{error_kind};
ghost use Rattle.files.specs.Sources.{is_missing};

use std::fs::File;
use std::io;
use std::io::{ErrorKind, Read};

#[derive(Drop)]
pub struct Source {
    file: Option<File>,
}

impl Source {
    // A file that is not there is no error.
    pub fn open(rt: &HostRuntime, path: &str) -> io::Result<Source>
        ensures { IfErr result (λ error. error_kind error ≢ ErrorKind.NotFound) }
    {
        let file = match File::open(rt, path) {
            Err(error) if error.kind() == ErrorKind::NotFound => None,
            opened => Some(opened?),
        };
        Ok(Source { file })
    }

    // Reads until the buffer is full or the file ends, and answers how many bytes came, as `read` does. The bytes as the
    // answer would borrow the buffer, and then no clause could say that a missing file leaves it as it was.
    pub fn fill(&mut self, buf: &mut [u8]) -> io::Result<usize>
        ensures within { IfOk result (λ n. n ≤ length buf.new) }
        ensures missing { IsTrue (is_missing self.old) → (result ≡ Ok 0) × (buf.new ≡ buf.old) }
        ensures same_file { is_missing self.new ≡ is_missing self.old }
    {
        match &mut self.file {
            Some(file) => fill_from(file, buf),
            None => Ok(0),
        }
    }

    // The same for the first bytes of the buffer, at most as many as it has: one buffer serves bodies of any length.
    pub fn fill_front(&mut self, buf: &mut [u8], bytes: usize) -> io::Result<usize>
        ensures within { IfOk result (λ n. n ≤ length buf.new) }
        ensures few { IfOk result (λ n. n ≤ bytes) }
        ensures missing { IsTrue (is_missing self.old) → (result ≡ Ok 0) × (buf.new ≡ buf.old) }
        ensures same_file { is_missing self.new ≡ is_missing self.old }
    {
        let end = bytes.min(buf.len());
        self.fill(&mut buf[..end])
    }

    pub fn is_at_end(&mut self) -> io::Result<bool>
        ensures missing { IsTrue (is_missing self.old) → result ≡ Ok true }
    {
        let mut next = [0u8; 1];
        Ok(self.fill(&mut next)? == 0)
    }
}

// A loop: the library's `read_exact` does not say how many bytes came before the end, and
// `read_to_end` takes memory for them.
fn fill_from(file: &mut File, buf: &mut [u8]) -> io::Result<usize>
    ensures { IfOk result (λ n. n ≤ length buf.new) }
{
    let mut got = 0;
    while got < buf.len() {
        let n = file.read(&mut buf[got..])?;
        if n == 0 {
            break;
        }
        got += n;
    }
    Ok(got)
}
