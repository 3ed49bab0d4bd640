// Statement lines, as texts and in a lent buffer.
ghost use Rattle.std.specs.Prelude.{◌≡◌};
ghost use Rattle.statement.specs.Text.{statement_text, Printed};

use crate::statement::{LINE_BYTES, Statement};
use arrayvec::ArrayString;
use itoa::Buffer;

impl Statement {
    // The whole line. Not by `Display` and `write!`, whose contracts tell what is written but not that there was room.
    pub fn line(&self) -> ArrayString<LINE_BYTES>
        ensures { result.bytes ≡ statement_text self.now }
    {
        let fields = [
            self.month as u64,
            self.amount,
            self.penalties.outage,
            self.penalties.market,
            self.penalties.dispatch,
            self.charged,
        ];
        let mut digits = Buffer::new();
        let mut line = ArrayString::new();
        for field in fields {
            line.push_str(digits.format(field));
            line.push(' ');
        }
        line.push_str(digits.format(self.net));
        line.push('\n');
        line
    }
}

// Writes the line at the start of a lent buffer and answers its length, as the call of a book has it. `None` for a buffer
// under 128 bytes, which is then left alone; 128 bytes are enough for any line.
pub fn print_statement(statement: &Statement, out: &mut [u8]) -> Option<usize>
    ensures { Printed (statement_text statement.now) out.old result out.new }
{
    if out.len() < LINE_BYTES {
        return None;
    }
    let line = statement.line();
    out[..line.len()].copy_from_slice(line.as_str().as_bytes());
    Some(line.len())
}
