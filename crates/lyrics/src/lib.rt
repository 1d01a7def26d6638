// The syllables of a part in scratch: for each note that sounds a chain of rows, the newest first, each a syllable or a hold of the one before it.
// Rows are only ever added, so no chain is changed by what is added to another.
#![tactic(auto)]

ghost use Rattle.std.specs.Prelude.{◌+◌, ◌*◌, ◌^◌, ◌≤◌, ◌<◌, ◌≡◌, length};
ghost use Rattle.laws.specs.Bytes.{splice};
ghost use Rattle.lyrics.specs.Sheet.{lyric_row_width, row_bytes, code_of, syllabic_in, Room, RowAppended};

use lyric_words::Syllabic;

// The number of a hold, in a row, where a syllable has its syllabic's.
pub const HOLD: u8 = 4;

// The bytes of a head, and those of a row.
pub const HEAD: usize = 4;

pub const ROW: usize = 16;

// Where the fields of a row stand, behind its verse: the number of a syllabic or HOLD, the place in the text, the row before it in its chain.
pub const CODE: usize = 1;

pub const AT: usize = 4;

pub const END: usize = 8;

pub const NEXT: usize = 12;

// Where the chains of a part stand: a head for each of its notes that sound (the place, from 1, of the note's newest row; 0 for none), and the log
// of rows, of which `count` are written.
#[derive(Clone, Copy, Debug, PartialEq, Eq)]
pub struct Sheet {
    pub heads: usize,
    pub sounded: usize,
    pub log: usize,
    pub count: usize,
}

// A row: its verse, the number of its syllabic or HOLD (`code_of`, `syllabic_in`), and the place of the syllable in the text.
#[derive(Clone, Copy, Debug, PartialEq, Eq)]
pub struct Row {
    pub verse: u8,
    pub code: u8,
    pub at: u32,
    pub end: u32,
}

// A lyric line: its first note, its verse, and the place of its text.
#[derive(Clone, Copy, Debug, PartialEq, Eq)]
pub struct Line {
    pub start: usize,
    pub verse: u8,
    pub at: usize,
    pub end: usize,
}

// The byte of a row for its syllabic: the syllabic's number, or HOLD.
pub fn code_of(syllabic: Option<Syllabic>) -> u8
    ensures { result ≡ code_of syllabic }
{
    match syllabic {
        Some(syllabic) => u8::from(syllabic),
        None => HOLD,
    }
}

// The syllabic for which that byte stands.
pub fn syllabic_in(code: u8) -> Option<Syllabic>
    ensures { result ≡ syllabic_in code }
{
    match code {
        0 => Some(Syllabic::Single),
        1 => Some(Syllabic::Begins),
        2 => Some(Syllabic::Ends),
        HOLD => None,
        _ => Some(Syllabic::Middle),
    }
}

// Writes a row, before which stands the row `next`.
fn put_row(scratch: &mut [u8], at: usize, row: Row, next: u32)
    requires { at + lyric_row_width ≤ length scratch.old }
    ensures { scratch.new ≡ splice scratch.old at (row_bytes row next) }
{
    store::put_4(scratch, at, row.verse, row.code, 0, 0);
    store::put_u32(scratch, at + AT, row.at);
    store::put_u32(scratch, at + END, row.end);
    store::put_u32(scratch, at + NEXT, next);
}

// Adds a row to the chain of a note; past the last note nothing. Answers how many rows are written.
pub fn append_row(scratch: &mut [u8], sheet: Sheet, note: usize, row: Row) -> usize
    requires { (Room scratch.old sheet) × (row.at < 2 ^ 32) × (row.end < 2 ^ 32) }
    ensures { RowAppended scratch.old scratch.new sheet note row result }
{
    if note < sheet.sounded {
        let head = sheet.heads + HEAD * note;
        let next = store::get_u32(scratch, head);
        put_row(scratch, sheet.log + ROW * sheet.count, row, next);
        store::put_u32(scratch, head, (sheet.count + 1) as u32);
        return sheet.count + 1;
    }
    sheet.count
}
