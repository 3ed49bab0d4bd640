// Reads the contents of a year's file: an entry of fixed width for each month.
ghost use Rattle.std.specs.Prelude.{◌≡◌, ◌<◌, ◌≤◌};
ghost use Rattle.text.specs.Front.{Begins, Reads};
ghost use Rattle.text.specs.Number.{Short};
ghost use Rattle.year_file.specs.Contents.{InEntry, ContentsVerdict, OneContents, TwelveFill, column, entry_text, spans_of};
ghost use Rattle.year_file.specs.Refusals.{contents_refusal};

use refusal::Refusal;

const MONTHS: usize = 12;

// The bytes of twelve entries, after which the first body starts.
pub const CONTENTS_BYTES: usize = 252;

// The most bytes of a body.
pub const MOST_BODY_BYTES: u32 = 60_000;

const MONTH_DIGITS: usize = 2;

const BYTE_DIGITS: usize = 8;

// Where a body starts in the file, and its bytes.
#[derive(Clone, Copy, Debug, Default, PartialEq, Eq)]
pub struct Span {
    pub start: u32,
    pub length: u32,
}

// The bodies of the twelve months.
#[derive(Clone, Copy, Debug, PartialEq, Eq)]
pub struct Contents {
    pub spans: [Span; MONTHS],
}

// Why the contents are refused, with the month from 1.
#[derive(Clone, Copy, Debug, PartialEq, Eq)]
pub enum ContentsRefusal {
    // the entry is out of form, of another month, or of a body that is too long
    Form(usize),
    // the body does not start where the one before ends
    Start(usize),
}

impl From<ContentsRefusal> for Refusal {
    ghost from_gives = { λ e r. r ≡ contents_refusal e };

    fn from(refused: ContentsRefusal) -> Refusal {
        match refused {
            ContentsRefusal::Form(place) => Refusal { number: 6, place },
            ContentsRefusal::Start(place) => Refusal { number: 7, place },
        }
    }
}

// The number of so many digits that begins the text, with the byte `end` after it, and the rest.
fn read_column(text: &[u8], width: usize, end: u8) -> Option<(u32, &[u8])>
    requires { (0 < width) × (width ≤ 8) }
    ensures { Reads (Begins (column width end) (Short width)) text.now result }
{
    let (digits, rest) = text.split_at_checked(width)?;
    let rest = rest.strip_prefix(&[end])?;
    let mut n: u32 = 0;
    for b in digits {
        if !b.is_ascii_digit() {
            return None;
        }
        n = n * 10 + (*b - b'0') as u32;
    }
    Some((n, rest))
}

// The entry that begins the text, for the month at a place from 0, and the rest.
fn read_entry(text: &[u8], place: u32) -> Option<(Span, &[u8])>
    requires { place < 12 }
    ensures { Reads (Begins (entry_text place) InEntry) text.now result }
{
    let (month, rest) = read_column(text, MONTH_DIGITS, b' ')?;
    let (start, rest) = read_column(rest, BYTE_DIGITS, b' ')?;
    let (length, rest) = read_column(rest, BYTE_DIGITS, b'\n')?;
    if month == place + 1 && length <= MOST_BODY_BYTES {
        Some((Span { start, length }, rest))
    } else {
        None
    }
}

// Reads the contents at the start of a year's file. What comes after them is not looked at.
#[tactic(auto, using(crate::proofs::Entries::twelve_fill))]
pub fn read_contents(text: &[u8]) -> Result<Contents, ContentsRefusal>
    ensures verdict { ContentsVerdict text.now (spans_of result) }
    ensures one_verdict { OneContents }
    ensures twelve_fill { TwelveFill }
{
    let mut spans = [Span::default(); MONTHS];
    let mut rest = text;
    let mut end = CONTENTS_BYTES as u32;
    for (i, span) in spans.iter_mut().enumerate() {
        let Some((read, more)) = read_entry(rest, i as u32) else {
            return Err(ContentsRefusal::Form(i + 1));
        };
        if read.start != end {
            return Err(ContentsRefusal::Start(i + 1));
        }
        end = read.start + read.length;
        *span = read;
        rest = more;
    }
    Ok(Contents { spans })
}
