// A lyric line sung to the notes of its part, by the rules of the edition. In the first each word goes to the note after the one before. In the second grace notes
// take no syllable, and a bar goes on to the first note of a measure behind the one last reached: the stops of the part's notes (crate lyric_stops) say which notes
// take one and where measures begin, so that each word is a few steps. One loop serves both.
#![tactic(auto)]

ghost use Rattle.std.specs.Prelude.{◌+◌, ◌*◌, ◌^◌, ◌<◌, ◌≡◌};
ghost use Rattle.lyric_words.specs.Words.{Small};
ghost use Rattle.lyric_words.specs.declared.Token.TheVariants as Token;
ghost use Rattle.lyric_stops.specs.Stops.{Inside};
ghost use Rattle.lyrics.specs.Sheet.{stops_from, Room};
ghost use Rattle.lyrics.specs.Lines.{LineFits};
ghost use Rattle.lyric_lines.specs.Stands.{stops_of, stops_by};
ghost use Rattle.lyric_lines.specs.Places.{Sought, FirstPlace, TakenPlace, MovedPlace, BarSung, Near};
ghost use Rattle.lyric_lines.specs.Lines.{Held, WordSung, LineSung};

use editions::Edition;
use lyric_stops::Stops;
use lyric_words::{Syllable, Token};
use lyrics::{Line, Row, Sheet};

// Where a line stands: the note that the next word goes to, at the last note's number or beyond where there is none; the note before it, by its place from 1, 0 for
// none; and the note last reached, which is the next one where no word has taken it yet.
#[derive(Clone, Copy, Debug, PartialEq, Eq)]
pub struct Place {
    pub note: usize,
    pub before: usize,
    pub reached: usize,
}

// Where it stands after a word, and how many rows are written.
#[derive(Clone, Copy, Debug, PartialEq, Eq)]
pub struct Sung {
    pub place: Place,
    pub count: usize,
}

// The stops of the sheet's notes.
fn stops_of(sheet: Sheet) -> Stops
    requires { stops_from sheet < 2 ^ 64 }
    ensures { result ≡ stops_of sheet }
{
    Stops {
        at: sheet.heads + lyrics::HEAD * sheet.sounded,
        count: sheet.sounded,
    }
}

// The first note from this one on that takes a syllable: in the first edition each does.
fn note_from(edition: Edition, scratch: &[u8], sheet: Sheet, note: usize) -> usize
    requires { Inside scratch.now (stops_of sheet) }
    ensures { Sought edition (stops_by scratch.now sheet) note result }
{
    match edition {
        Edition::First => note,
        Edition::Second => lyric_stops::seek_taker(scratch, stops_of(sheet), note),
    }
}

// The beginning of a line: its first note is reached before any word.
fn first_place(edition: Edition, scratch: &[u8], sheet: Sheet, start: usize) -> Place
    requires { Inside scratch.now (stops_of sheet) }
    ensures { FirstPlace edition (stops_by scratch.now sheet) start result }
{
    let note = note_from(edition, scratch, sheet, start);
    Place {
        note,
        before: 0,
        reached: note,
    }
}

// Where a line stands once a word has taken this note.
fn taken(edition: Edition, scratch: &[u8], sheet: Sheet, note: usize) -> Place
    requires { (Inside scratch.now (stops_of sheet)) × (note + 1 < 2 ^ 64) }
    ensures { TakenPlace edition (stops_by scratch.now sheet) note result }
{
    let next = note_from(edition, scratch, sheet, note + 1);
    Place {
        note: next,
        before: note + 1,
        reached: note,
    }
}

// A bar of the second edition, where this note was reached last: on to the first note of the next measure that has one.
fn move_behind(scratch: &[u8], sheet: Sheet, reached: usize) -> Place
    requires { (Inside scratch.now (stops_of sheet)) × (reached + 1 < 2 ^ 64) }
    ensures { MovedPlace (stops_by scratch.now sheet) reached result }
{
    let stops = stops_of(sheet);
    let first = lyric_stops::seek_first(scratch, stops, reached + 1);
    if first < sheet.sounded {
        let before = lyric_stops::seek_back(scratch, stops, first);
        return Place {
            note: first,
            before,
            reached: first,
        };
    }
    Place {
        note: sheet.sounded,
        before: 0,
        reached: sheet.sounded,
    }
}

// Holds the syllable of the note at a place, if there is one. Answers how many rows are written.
fn put_hold(scratch: &mut [u8], sheet: Sheet, verse: u8, place: usize) -> usize
    requires { Room scratch.old sheet }
    ensures { Held scratch.old scratch.new sheet verse place result }
{
    if place == 0 {
        return sheet.count;
    }
    let row = Row {
        verse,
        code: lyrics::code_of(None),
        at: 0,
        end: 0,
    };
    lyrics::append_row(scratch, sheet, place - 1, row)
}

// A hold: it takes a note, and holds the syllable of the note before.
fn sing_hold(edition: Edition, scratch: &mut [u8], sheet: Sheet, verse: u8, place: Place) -> Sung
    requires { (Room scratch.old sheet) × (Near place) }
    ensures { WordSung edition scratch.old scratch.new sheet verse place Token.Hold result }
{
    let count = put_hold(scratch, sheet, verse, place.before);
    Sung {
        place: taken(edition, scratch, sheet, place.note),
        count,
    }
}

// A syllable on the next note; a later one of the same verse replaces it.
fn sing_syllable(
    edition: Edition,
    scratch: &mut [u8],
    sheet: Sheet,
    verse: u8,
    place: Place,
    syllable: Syllable,
) -> Sung
    requires { (Room scratch.old sheet) × (Near place) × (syllable.at < 2 ^ 32) × (syllable.end < 2 ^ 32) }
    ensures { WordSung edition scratch.old scratch.new sheet verse place (Token.Syllable syllable) result }
{
    let row = Row {
        verse,
        code: lyrics::code_of(Some(syllable.syllabic)),
        at: syllable.at as u32,
        end: syllable.end as u32,
    };
    let count = lyrics::append_row(scratch, sheet, place.note, row);
    Sung {
        place: taken(edition, scratch, sheet, place.note),
        count,
    }
}

// A bar: in the first edition it does nothing.
fn sing_bar(edition: Edition, scratch: &[u8], sheet: Sheet, place: Place) -> Place
    requires { (Inside scratch.now (stops_of sheet)) × (Near place) }
    ensures { BarSung edition (stops_by scratch.now sheet) place result }
{
    match edition {
        Edition::First => place,
        Edition::Second => move_behind(scratch, sheet, place.reached),
    }
}

// One word, or one syllable of a word.
fn sing_token(
    edition: Edition,
    scratch: &mut [u8],
    sheet: Sheet,
    verse: u8,
    place: Place,
    token: Token,
) -> Sung
    requires { (Room scratch.old sheet) × (Near place) × (Small 4294967295 token) }
    ensures { WordSung edition scratch.old scratch.new sheet verse place token result }
{
    match token {
        Token::Bar => Sung {
            place: sing_bar(edition, scratch, sheet, place),
            count: sheet.count,
        },
        Token::Skip => Sung {
            place: taken(edition, scratch, sheet, place.note),
            count: sheet.count,
        },
        Token::Hold => sing_hold(edition, scratch, sheet, verse, place),
        Token::Syllable(syllable) => sing_syllable(edition, scratch, sheet, verse, place, syllable),
    }
}

// The words of a lyric line on the notes from its first on. Answers how many rows are written.
pub fn sing_line(
    edition: Edition,
    text: &[u8],
    scratch: &mut [u8],
    sheet: Sheet,
    line: Line,
) -> usize
    requires { LineFits text.now scratch.old sheet line }
    ensures { LineSung edition text.now scratch.old scratch.new sheet line result }
{
    let mut cursor = lyric_words::first_cursor(text, line.at, line.end);
    let mut place = first_place(edition, scratch, sheet, line.start);
    let mut count = sheet.count;
    while cursor.at < line.end {
        let read = lyric_words::abc_lyric_token(text, cursor, line.end);
        let now = Sheet { count, ..sheet };
        let sung = sing_token(edition, scratch, now, line.verse, place, read.token);
        place = sung.place;
        count = sung.count;
        cursor = read.cursor;
    }
    count
}
