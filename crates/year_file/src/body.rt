// Reads the body of a month: a line for each slot, just as it is written.
ghost use Rattle.std.specs.Prelude.{◌≡◌, true, length, is_err};
ghost use Rattle.calendar.specs.Calendar.{slots_in};
ghost use Rattle.text.specs.Front.{Begins, Reads};
ghost use Rattle.text.specs.Number.{Short};
ghost use Rattle.year_file.specs.Lines.{InForm, ReadsLetter, WordFirst, outage_letter, flag_letter, field, slot_text};
ghost use Rattle.year_file.specs.Bodies.{Judged, Verdict, OneVerdict, ReadsBack, ShortLines, outcome};
ghost use Rattle.year_file.specs.Refusals.{body_refusal};

use calendar::{MOST_SLOTS, slots_in};
use records::slot::{Outage, Slot};
use refusal::Refusal;
use text::read_ended;

// The most digits that a number may have.
const MOST_DIGITS: usize = 7;

// Why a body is refused. A line has its number, from 1.
#[derive(Clone, Copy, Debug, PartialEq, Eq)]
pub enum BodyRefusal {
    // the slot list is not as long as the month
    WrongSlotCount,
    // the line is out of form
    Form(usize),
    // a number of the line is above its limit
    Limit(usize),
    // there are too few lines or too many
    LineCount,
}

impl From<BodyRefusal> for Refusal {
    ghost from_gives = { λ e r. r ≡ body_refusal e };

    fn from(refused: BodyRefusal) -> Refusal {
        match refused {
            BodyRefusal::WrongSlotCount => Refusal::without_place(8),
            BodyRefusal::Form(place) => Refusal { number: 9, place },
            BodyRefusal::Limit(place) => Refusal { number: 10, place },
            BodyRefusal::LineCount => Refusal::without_place(11),
        }
    }
}

// The outage that a letter stands for. A function of the format: the type knows of no letters.
fn read_outage(b: u8) -> Option<Outage>
    ensures { ReadsLetter outage_letter b result }
{
    match b as char {
        '-' => Some(Outage::NoOutage),
        'P' => Some(Outage::PlannedStop),
        'U' => Some(Outage::UnplannedStop),
        'p' => Some(Outage::PlannedSuppression),
        'u' => Some(Outage::UnplannedSuppression),
        _ => None,
    }
}

// Whether the letter stands there, or a dash in its place. Of the format too: a `bool` knows of no letter.
fn read_flag(b: u8, letter: char) -> Option<bool>
    ensures { ReadsLetter (flag_letter letter) b result }
{
    match b as char {
        '-' => Some(false),
        c if c == letter => Some(true),
        _ => None,
    }
}

// The four letters of a line.
#[derive(Clone, Copy, Debug, PartialEq, Eq)]
struct Letters {
    outage: Outage,
    low_reserve: bool,
    dispatched: bool,
    papers: bool,
}

// The number that begins the text, with the blank after it, and the rest.
fn read_field(text: &[u8]) -> Option<(u32, &[u8])>
    ensures { Reads (Begins field (Short 7)) text.now result }
{
    let (n, rest) = read_ended(text, MOST_DIGITS, b' ')?;
    Some((n as u32, rest))
}

// The four letters that begin the text, with the line's end after them, and the rest.
fn read_word(text: &[u8]) -> Option<(Letters, &[u8])>
    ensures { Reads WordFirst text.now result }
{
    let [outage, low_reserve, dispatched, papers, b'\n', rest @ ..] = text else {
        return None;
    };
    let letters = Letters {
        outage: read_outage(*outage)?,
        low_reserve: read_flag(*low_reserve, 'L')?,
        dispatched: read_flag(*dispatched, 'D')?,
        papers: read_flag(*papers, 'E')?,
    };
    Some((letters, rest))
}

// The line that begins the text, and the rest.
fn read_line(text: &[u8]) -> Option<(Slot, &[u8])>
    ensures { Reads (Begins slot_text InForm) text.now result }
{
    let (supply, rest) = read_field(text)?;
    let (plan, rest) = read_field(rest)?;
    let (offer, rest) = read_field(rest)?;
    let (meter, rest) = read_field(rest)?;
    let (letters, rest) = read_word(rest)?;
    let Letters {
        outage,
        low_reserve,
        dispatched,
        papers,
    } = letters;
    let slot = Slot {
        supply,
        plan,
        offer,
        meter,
        outage,
        low_reserve,
        dispatched,
        papers,
    };
    Some((slot, rest))
}

// Reads as many lines as there are slots. After a refusal some slots may be new.
fn read_lines(text: &[u8], slots: &mut [Slot]) -> Result<(), BodyRefusal>
    ensures { Judged (length slots.old) text.now (outcome result slots.new) }
{
    let mut rest = text;
    for (i, slot) in slots.iter_mut().enumerate() {
        if rest.is_empty() {
            return Err(BodyRefusal::LineCount);
        }
        let Some((read, more)) = read_line(rest) else {
            return Err(BodyRefusal::Form(i + 1));
        };
        if !read.is_within() {
            return Err(BodyRefusal::Limit(i + 1));
        }
        *slot = read;
        rest = more;
    }
    if rest.is_empty() {
        Ok(())
    } else {
        Err(BodyRefusal::LineCount)
    }
}

// Reads the slots of a month of a fiscal year. A refusal leaves them as they were.
#[tactic(auto, using(crate::proofs::Bodies::body_laws))]
pub fn read_body(year: u16, month: u8, text: &[u8], slots: &mut [Slot]) -> Result<(), BodyRefusal>
    ensures verdict { Verdict (slots_in year month) (length slots.old) text.now (outcome result slots.new) }
    ensures unchanged { is_err result ≡ true → slots.new ≡ slots.old }
    ensures one_verdict { OneVerdict }
    ensures reads_back { ReadsBack }
    ensures short_lines { ShortLines }
{
    let Some(count) = slots_in(year, month) else {
        return Err(BodyRefusal::WrongSlotCount);
    };
    let count = count as usize;
    if slots.len() != count {
        return Err(BodyRefusal::WrongSlotCount);
    }
    // An array with room for the longest month, cut to this one: there is no heap, and a refusal leaves the slots alone.
    let mut room = [Slot::default(); MOST_SLOTS];
    let read = &mut room[..count];
    read_lines(text, read)?;
    slots.copy_from_slice(read);
    Ok(())
}
