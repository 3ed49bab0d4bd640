// Reads numbers from lent bytes.
ghost use Rattle.std.specs.Prelude.{min};
ghost use Rattle.text.specs.Front.{Reads};
ghost use Rattle.text.specs.Number.{NumberFirst, EndedFirst};

// Every number of so many digits fits 64 bits.
const MOST_DIGITS: usize = 19;

// The number that begins the text, and the rest. It has no leading zero and at most `most` digits.
pub fn read_number(text: &[u8], most: usize) -> Option<(u64, &[u8])>
    ensures { Reads (NumberFirst (min most 19)) text.now result }
{
    let limit = most.min(MOST_DIGITS);
    // One pass: to count the digits first, by `take_while`, took about a quarter more time.
    let mut n: u64 = 0;
    let mut rest = text;
    while let Some((digit, more)) = rest.split_first() {
        if !digit.is_ascii_digit() {
            break;
        }
        if text.len() - rest.len() == limit {
            return None;
        }
        n = n * 10 + (*digit - b'0') as u64;
        rest = more;
    }
    let digits = text.len() - rest.len();
    if digits == 0 {
        return None;
    }
    let first = text[0];
    if first == b'0' && digits > 1 {
        return None;
    }
    Some((n, rest))
}

// The same number, where the byte `end` comes after it, and the rest after that byte.
pub fn read_ended(text: &[u8], most: usize, end: u8) -> Option<(u64, &[u8])>
    ensures { Reads (EndedFirst (min most 19) end) text.now result }
{
    let (n, rest) = read_number(text, most)?;
    let rest = rest.strip_prefix(&[end])?;
    Some((n, rest))
}
