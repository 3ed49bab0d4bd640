// Writes into lent bytes: what does not fit is not written. At a place, since what stands around it is to stay, which a
// text that only grows cannot say. For callers outside: nothing here calls them.
ghost use Rattle.std.specs.Prelude.{[], ◌∷◌};
ghost use Rattle.text.specs.Puts.{PutsIfFit};

use itoa::{Buffer, Integer};

// Puts the bytes at a place, and says where they end.
fn put(out: &mut [u8], at: usize, bytes: &[u8]) -> Option<usize>
    ensures { PutsIfFit out.old at bytes.now result out.new }
{
    let end = at.checked_add(bytes.len())?;
    if end > out.len() {
        return None;
    }
    out[at..end].copy_from_slice(bytes);
    Some(end)
}

pub fn put_byte(out: &mut [u8], at: usize, b: u8) -> Option<usize>
    ensures { PutsIfFit out.old at (b ∷ []) result out.new }
{
    put(out, at, &[b])
}

// Puts a number of any of the integer types, with its sign where it is below zero.
pub fn put_number<I: Integer>(out: &mut [u8], at: usize, n: I) -> Option<usize>
    ensures { PutsIfFit out.old at (I.text n) result out.new }
{
    let mut digits = Buffer::new();
    put(out, at, digits.format(n).as_bytes())
}
