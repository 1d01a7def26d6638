// What is written for the syllables of a note: their records, or their texts.
#![tactic(auto)]

ghost use Rattle.std.specs.Prelude.{◌≡◌, true, false, List, [], ◌∷◌, ℕ, ◌+◌, ◌*◌, ◌≤◌, ◌<◌, length, get_or};
ghost use Rattle.laws.specs.Bytes.{between, splice, le32};
ghost use Rattle.standard.specs.Lyrics.{syllable_text};
ghost use Rattle.reader.specs.Records.{lyric_bytes};
ghost use Rattle.store_sections.specs.Writes.{WroteIs};
ghost use Rattle.lyrics.specs.Sheet.{syllables_in, lyric_row_width};
ghost use Rattle.lyric_walk.specs.Walks.{chain, syllable_is, within, sung_at, window, Gathered};
ghost use Rattle.write_syllables.specs.Sheets.{SheetIn};
ghost use Rattle.write_syllables.specs.Pieces.{piece, pieces};

use reading_records::LYRIC;

// What the writers of lyrics read: the sheet of a part's syllables within its store, and the text that they are cut from.
#[derive(Clone, Copy)]
pub struct StoredLyrics<'s> {
    pub text: &'s [u8],
    pub store: &'s [u8],
    pub sheet: lyrics::Sheet,
    pub ghost sheet_in: { SheetIn store.now sheet },
}

// A RECORD

// The number of which four bytes are written: its lowest four.
pub fn low32(v: usize) -> u32
    ensures { le32 result ≡ le32 v }
{
    (v % 4294967296) as u32
}

// Writes three bytes from `at` on.
fn put_3(store: &mut [u8], at: usize, a: u8, b: u8, c: u8)
    requires { at + 3 ≤ length store.old }
    ensures { store.new ≡ splice store.old at (a ∷ b ∷ c ∷ []) }
{
    store[at] = a;
    store[at + 1] = b;
    store[at + 2] = c;
}

// The record of a syllable of the note at index `note`.
fn write_record(note: usize, f: lyric_walk::Found, to: &mut [u8]) -> Option<usize>
    requires { f.at ≤ f.end }
    ensures { (text : List ℕ) → f.end ≤ length text → WroteIs to.old (lyric_bytes note (syllable_is text f)) to.new result }
{
    if to.len() < LYRIC {
        return None;
    }
    let index = low32(note);
    let len = low32(f.end - f.at);
    let code = u8::from(f.syllabic);
    let extend = store::one_if(f.extend);
    store::put_u32(to, 0, index);
    put_3(to, 4, f.verse, code, extend);
    store::put_u32(to, 7, len);
    Some(LYRIC)
}

// A TEXT

// The text between two places, `~` as a space.
fn write_text(text: &[u8], at: usize, end: usize, to: &mut [u8]) -> Option<usize>
    requires { (at ≤ end) × (end ≤ length text.now) }
    ensures { WroteIs to.old (syllable_text (between text.now at end)) to.new result }
{
    let len = end - at;
    if to.len() < len {
        return None;
    }
    for j in 0..len {
        to[j] = lyric_walk::sung_byte(text[at + j]);
    }
    Some(len)
}

// THE SYLLABLES OF A NOTE

// The text of a syllable, or its record.
fn write_piece(
    text: &[u8],
    note: usize,
    f: lyric_walk::Found,
    texts: bool,
    to: &mut [u8],
) -> Option<usize>
    requires { (f.at ≤ f.end) × (f.end ≤ length text.now) }
    ensures { WroteIs to.old (piece texts note (syllable_is text.now f)) to.new result }
{
    if texts {
        return write_text(text, f.at, f.end, to);
    }
    write_record(note, f, to)
}

// The syllable of row `place` of the log; nothing for 0.
fn write_place(
    text: &[u8],
    store: &[u8],
    log: usize,
    place: usize,
    held: bool,
    note: usize,
    texts: bool,
    to: &mut [u8],
) -> Option<usize>
    requires { log + lyric_row_width * place ≤ length store.now }
    ensures { WroteIs to.old (pieces texts note (sung_at text.now store.now log place held)) to.new result }
{
    if place == 0 {
        return Some(0);
    }
    let f = lyric_walk::syllable_at(text, store, log, place, held);
    write_piece(text, note, f, texts, to)
}

// Those of the verses of a window that was gathered in the chain from row k on, verse by verse.
fn write_window(
    text: &[u8],
    store: &[u8],
    log: usize,
    k: usize,
    from: usize,
    places: &[usize; 33],
    held: &[bool; 33],
    span: lyric_walk::Span,
    note: usize,
    texts: bool,
    to: &mut [u8],
) -> Option<usize>
    requires { (log + lyric_row_width * k ≤ length store.now) × (from + window < 18446744073709551616) × Gathered store.now log k from places.now held.now span }
    ensures { WroteIs to.old (pieces texts note (within from (from + window) (chain text.now store.now log k))) to.new result }
{
    let end = (span.most + 1).min(from + lyric_walk::WINDOW);
    let mut at = 0;
    for verse in span.least.max(from)..end {
        let place = places[verse - from];
        let extend = held[verse - from];
        at += write_place(text, store, log, place, extend, note, texts, &mut to[at..])?;
    }
    Some(at)
}

// Those of the chain from row k of the log on: one walk where no verse is above the first window's.
fn write_verses(
    text: &[u8],
    store: &[u8],
    log: usize,
    k: usize,
    note: usize,
    texts: bool,
    to: &mut [u8],
) -> Option<usize>
    requires { log + lyric_row_width * k ≤ length store.now }
    ensures { WroteIs to.old (pieces texts note (chain text.now store.now log k)) to.new result }
{
    let mut at = 0;
    let mut from = 0;
    while from < lyric_walk::VERSES {
        let mut places = [0; 33];
        let mut held = [false; 33];
        let span = lyric_walk::gather(store, log, k, from, &mut places, &mut held);
        at += write_window(
            text,
            store,
            log,
            k,
            from,
            &places,
            &held,
            span,
            note,
            texts,
            &mut to[at..],
        )?;
        if span.most < from + lyric_walk::WINDOW {
            return Some(at);
        }
        from += lyric_walk::WINDOW;
    }
    Some(at)
}

// The records of note `sung` among the notes that are sung, which is the note at index `note` of all: none past the last of the sheet. Nearly every
// chain has one row or none.
pub fn write_syllable_records(
    words: &StoredLyrics<'_>,
    sung: usize,
    note: usize,
    to: &mut [u8],
) -> Option<usize>
    ensures { WroteIs to.old (pieces false note (get_or (syllables_in words.now.text.now words.now.store.now words.now.sheet) sung [])) to.new result }
{
    let text = words.text;
    let store = words.store;
    let sheet = words.sheet;
    if sheet.sounded <= sung {
        return Some(0);
    }
    let k = lyric_walk::head(store, sheet, sung);
    match lyric_walk::sole_syllable(text, store, sheet.log, k) {
        lyric_walk::Sole::Nothing => Some(0),
        lyric_walk::Sole::One(f) => write_record(note, f, to),
        lyric_walk::Sole::Several => write_verses(text, store, sheet.log, k, note, false, to),
    }
}

// Their texts, in which no index stands.
pub fn write_syllable_texts(words: &StoredLyrics<'_>, sung: usize, to: &mut [u8]) -> Option<usize>
    ensures { WroteIs to.old (pieces true 0 (get_or (syllables_in words.now.text.now words.now.store.now words.now.sheet) sung [])) to.new result }
{
    let text = words.text;
    let store = words.store;
    let sheet = words.sheet;
    if sheet.sounded <= sung {
        return Some(0);
    }
    let k = lyric_walk::head(store, sheet, sung);
    match lyric_walk::sole_syllable(text, store, sheet.log, k) {
        lyric_walk::Sole::Nothing => Some(0),
        lyric_walk::Sole::One(f) => write_text(text, f.at, f.end, to),
        lyric_walk::Sole::Several => write_verses(text, store, sheet.log, k, 0, true, to),
    }
}
