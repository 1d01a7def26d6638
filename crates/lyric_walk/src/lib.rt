// What is sung to a note, read from scratch: one walk along the rows of its chain finds the row of each verse.
#![tactic(auto)]

ghost use Rattle.std.specs.Prelude.{◌+◌, ◌*◌, ◌≤◌, ◌<◌, ◌≡◌, cond, ltb, length};
ghost use Rattle.lyrics.specs.Sheet.{lyric_row_width};
ghost use Rattle.lyric_walk.specs.Walks.{Tables, HeadIs, LinkIs, first_place, held_since, Wide, Clear, TakesRow, Gathered, row_of_link, found_of, found_at, InText, SoleIs, sung_byte};

use lyric_words::Syllabic;

// The verses that one walk finds: a window of them, which holds all that a tune has (0 to 32).
pub const WINDOW: usize = 33;

// Past every verse: a whole number of windows.
pub const VERSES: usize = 264;

// A syllable: its verse, where it stands in its word, whether a later note holds it, and its place in the text.
#[derive(Clone, Copy, Debug, PartialEq, Eq)]
pub struct Found {
    pub verse: u8,
    pub syllabic: Syllabic,
    pub extend: bool,
    pub at: usize,
    pub end: usize,
}

// The least and the greatest verse in a chain.
#[derive(Clone, Copy, Debug, PartialEq, Eq)]
pub struct Span {
    pub least: usize,
    pub most: usize,
}

// What is sung to a note, if its chain has no more than one row.
#[derive(Clone, Copy, Debug, PartialEq, Eq)]
pub enum Sole {
    Nothing,
    One(Found),
    Several,
}

// A row of a chain, which has no syllabic if it is a hold, and the place, from 1, of the row below it, 0 for none.
#[derive(Clone, Copy, Debug, PartialEq, Eq)]
struct Link {
    verse: u8,
    syllabic: Option<Syllabic>,
    at: usize,
    end: usize,
    next: usize,
}

// A place of a row below k; 0 for one that is not.
fn below(k: usize, place: usize) -> usize
    ensures { result ≡ cond (ltb place k) place 0 }
{
    if place < k { place } else { 0 }
}

// Where the chain of a note begins; 0 if it has none.
pub fn head(scratch: &[u8], sheet: lyrics::Sheet, note: usize) -> usize
    requires { (Tables scratch.now sheet) × (note < sheet.sounded) × (sheet.count + 1 < 18446744073709551616) }
    ensures { HeadIs scratch.now sheet note result }
{
    let place = store::get_u32(scratch, sheet.heads + lyrics::HEAD * note);
    below(sheet.count + 1, place as usize)
}

// Row k of the log, from 1.
fn get_link(scratch: &[u8], log: usize, k: usize) -> Link
    requires { (1 ≤ k) × (log + lyric_row_width * k ≤ length scratch.now) }
    ensures { LinkIs scratch.now log k result }
{
    let from = log + lyrics::ROW * (k - 1);
    let at = store::get_u32(scratch, from + lyrics::AT);
    let end = store::get_u32(scratch, from + lyrics::END);
    let place = store::get_u32(scratch, from + lyrics::NEXT);
    let next = below(k, place as usize);
    Link {
        verse: scratch[from],
        syllabic: lyrics::syllabic_in(scratch[from + lyrics::CODE]),
        at: at as usize,
        end: end as usize,
        next,
    }
}

// The place, from 1, of the first row so far that sings a verse, after a row of that verse at `place`; 0 for none.
fn first_place(found: usize, syllabic: Option<Syllabic>, place: usize) -> usize
    ensures { result ≡ first_place found syllabic place }
{
    if found != 0 {
        return found;
    }
    match syllabic {
        Some(_) => place,
        None => 0,
    }
}

// A hold of the verse stands before that row, after a row of that verse.
fn is_held(found: usize, held: bool, syllabic: Option<Syllabic>) -> bool
    ensures { result ≡ held_since found held syllabic }
{
    if found != 0 {
        return held;
    }
    match syllabic {
        Some(_) => held,
        None => true,
    }
}

// Takes the row at `place` into the window of verses from `from` on. No row is place 0, as in the rows' bytes, where an Option would only be turned into it.
fn take_row(
    places: &mut [usize; 33],
    held: &mut [bool; 33],
    from: usize,
    verse: usize,
    syllabic: Option<Syllabic>,
    place: usize,
)
    requires { Wide places.old held.old }
    ensures { TakesRow from verse syllabic place places.old held.old places.new held.new }
{
    if verse < from {
        return;
    }
    let i = verse - from;
    if WINDOW <= i {
        return;
    }
    let found = places[i];
    let extend = held[i];
    places[i] = first_place(found, syllabic, place);
    held[i] = is_held(found, extend, syllabic);
}

// Walks along the chain from row k on: for each verse of the window from `from` on the place of its row, 0 for none, and whether it is held.
pub fn gather(
    scratch: &[u8],
    log: usize,
    k: usize,
    from: usize,
    places: &mut [usize; 33],
    held: &mut [bool; 33],
) -> Span
    requires { (log + lyric_row_width * k ≤ length scratch.now) × Clear places.old held.old }
    ensures { Gathered scratch.now log k from places.new held.new result }
{
    let mut least = VERSES;
    let mut most = 0;
    let mut place = k;
    while 0 < place {
        let row = get_link(scratch, log, place);
        let verse = row.verse as usize;
        take_row(places, held, from, verse, row.syllabic, place);
        least = least.min(verse);
        most = most.max(verse);
        place = row.next;
    }
    Span { least, most }
}

// The same syllable, its place cut to a text of `len` bytes.
fn in_text(len: usize, f: Found) -> Found
    ensures { InText len f result }
{
    let place = scan_table::cut_place(len, f.at, f.end);
    Found {
        at: place.at,
        end: place.end,
        ..f
    }
}

// The syllable of a row, which no hold is; held, or not.
fn found_of(row: Link, held: bool) -> Found
    ensures { result ≡ found_of (row_of_link row) held }
{
    Found {
        verse: row.verse,
        syllabic: row.syllabic.unwrap_or(Syllabic::Middle),
        extend: held,
        at: row.at,
        end: row.end,
    }
}

// The syllable of row `place` of the log, from 1, in the text.
pub fn syllable_at(text: &[u8], scratch: &[u8], log: usize, place: usize, held: bool) -> Found
    requires { (1 ≤ place) × (log + lyric_row_width * place ≤ length scratch.now) }
    ensures { InText (length text.now) (found_at scratch.now log place held) result }
{
    let row = get_link(scratch, log, place);
    in_text(text.len(), found_of(row, held))
}

// What is sung to a note whose chain begins at row k, at once where it has one row or none.
pub fn sole_syllable(text: &[u8], scratch: &[u8], log: usize, k: usize) -> Sole
    requires { log + lyric_row_width * k ≤ length scratch.now }
    ensures { SoleIs text.now scratch.now log k result }
{
    if k == 0 {
        return Sole::Nothing;
    }
    let row = get_link(scratch, log, k);
    if row.next != 0 {
        return Sole::Several;
    }
    match row.syllabic {
        None => Sole::Nothing,
        Some(_) => Sole::One(in_text(text.len(), found_of(row, false))),
    }
}

// A byte of a syllable as it is written: `~` is a space.
pub fn sung_byte(b: u8) -> u8
    ensures { result ≡ sung_byte b }
{
    if b == b'~' { b' ' } else { b }
}
