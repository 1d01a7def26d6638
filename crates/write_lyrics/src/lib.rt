// The sections of a part's lyrics and of their texts from its tables in scratch.
#![tactic(auto)]

ghost use Rattle.std.specs.Prelude.{◌≡◌, true, false, ◌++◌, ◌+◌, ◌*◌, ◌≤◌, ◌<◌, length};
ghost use Rattle.laws.specs.Bytes.{le32};
ghost use Rattle.part_rows.specs.Encoded.{note_row_width};
ghost use Rattle.store_sections.specs.Writes.{WroteIs};
ghost use Rattle.lyrics.specs.Sheet.{syllables_in};
ghost use Rattle.write_lyrics.specs.Out.{sung_rows, sung_total, rows_out, PassedIs, measures_out, texts_out, counted, section_out};

use part_measures::MEASURE;
use part_rows::NOTE_ROW;
use reading_records::{COUNT, LYRIC};
use write_notes::StoredPart;
use write_syllables::StoredLyrics;

// How far records are written: up to where, and how many notes are sung up to there.
#[derive(Clone, Copy)]
struct Passed {
    to: usize,
    sung: usize,
}

// RECORDS

// Those of the k rows from `place` on, of whole measures or of one voice. Their notes begin at index `note`, and before them `sung` notes are sung.
fn write_rows(
    words: &StoredLyrics<'_>,
    store: &[u8],
    place: usize,
    k: usize,
    note: usize,
    sung: usize,
    to: &mut [u8],
) -> Option<Passed>
    requires { (place + note_row_width * k ≤ length store.now) × (note + k < 18446744073709551616) × (sung + k < 18446744073709551616) }
    ensures { PassedIs to.old (rows_out false (syllables_in words.now.text.now words.now.store.now words.now.sheet) store.now note sung place k) to.new (sung + sung_rows store.now place k) result }
{
    let mut at = 0;
    let mut i = note;
    let mut j = sung;
    for row in 0..k {
        let p = place + NOTE_ROW * row;
        if !part_rows::is_of_voice(store, p, 0) {
            continue;
        }
        if part_rows::is_rest(store, p) {
            i += 1;
            continue;
        }
        at += write_syllables::write_syllable_records(words, j, i, &mut to[at..])?;
        i += 1;
        j += 1;
    }
    Some(Passed { to: at, sung: j })
}

// Those of all measures.
fn write_measures(words: &StoredLyrics<'_>, part: &StoredPart<'_>, to: &mut [u8]) -> Option<Passed>
    ensures { let t = part.now.tables in PassedIs to.old (measures_out false (syllables_in words.now.text.now words.now.store.now words.now.sheet) part.now.store.now 0 0 t.measures.at t.notes.at t.measures.count) to.new (sung_total part.now.store.now t.measures.at t.notes.at t.measures.count) result }
{
    let store = part.store;
    let t = part.tables;
    let mut at = 0;
    let mut i = 0;
    let mut j = 0;
    let mut p = t.notes.at;
    for measure in 0..t.measures.count {
        let k = part_measures::note_count(store, t.measures.at + MEASURE * measure);
        let passed = write_rows(words, store, p, k, i, j, &mut to[at..])?;
        at += passed.to;
        i += k;
        j = passed.sung;
        p += NOTE_ROW * k;
    }
    Some(Passed { to: at, sung: j })
}

// Those of all notes: all rows at once where all are of voice 0, else measure by measure.
fn write_all(words: &StoredLyrics<'_>, part: &StoredPart<'_>, to: &mut [u8]) -> Option<Passed>
    ensures { let t = part.now.tables in PassedIs to.old (measures_out false (syllables_in words.now.text.now words.now.store.now words.now.sheet) part.now.store.now 0 0 t.measures.at t.notes.at t.measures.count) to.new (sung_total part.now.store.now t.measures.at t.notes.at t.measures.count) result }
{
    if part.lead {
        let t = part.tables;
        return write_rows(words, part.store, t.notes.at, t.notes.count, 0, 0, to);
    }
    write_measures(words, part, to)
}

// Their section. Its count is written last.
fn write_records(words: &StoredLyrics<'_>, part: &StoredPart<'_>, to: &mut [u8]) -> Option<Passed>
    ensures { let t = part.now.tables in PassedIs to.old (section_out false (syllables_in words.now.text.now words.now.store.now words.now.sheet) part.now.store.now t) to.new (sung_total part.now.store.now t.measures.at t.notes.at t.measures.count) result }
{
    if to.len() < COUNT {
        return None;
    }
    let passed = write_all(words, part, &mut to[COUNT..])?;
    let low = write_syllables::low32(passed.to / LYRIC);
    store::put_u32(to, 0, low);
    Some(Passed {
        to: COUNT + passed.to,
        sung: passed.sung,
    })
}

// TEXTS: no byte of them depends on the index of a note, so the notes that are sung are enough, and no row is walked again.

// Those of the first `sung` notes that are sung.
fn write_texts(words: &StoredLyrics<'_>, sung: usize, to: &mut [u8]) -> Option<usize>
    ensures { WroteIs to.old (texts_out (syllables_in words.now.text.now words.now.store.now words.now.sheet) 0 sung) to.new result }
{
    let mut at = 0;
    for j in 0..sung {
        at += write_syllables::write_syllable_texts(words, j, &mut to[at..])?;
    }
    Some(at)
}

// Their section. Its count is written last.
fn write_text(words: &StoredLyrics<'_>, sung: usize, to: &mut [u8]) -> Option<usize>
    ensures { WroteIs to.old (counted true (texts_out (syllables_in words.now.text.now words.now.store.now words.now.sheet) 0 sung)) to.new result }
{
    if to.len() < COUNT {
        return None;
    }
    let len = write_texts(words, sung, &mut to[COUNT..])?;
    let low = write_syllables::low32(len);
    store::put_u32(to, 0, low);
    Some(COUNT + len)
}

// BOTH SECTIONS

// Two that are empty.
fn write_none(to: &mut [u8]) -> Option<usize>
    ensures { WroteIs to.old (le32 0 ++ le32 0) to.new result }
{
    let at = store_sections::write_u32(to, 0)?;
    let m = store_sections::write_u32(&mut to[at..], 0)?;
    Some(at + m)
}

// The records, and the texts of as many notes as are sung.
fn write_sung(words: &StoredLyrics<'_>, part: &StoredPart<'_>, to: &mut [u8]) -> Option<usize>
    ensures { let s = part.now.store.now in let ws = syllables_in words.now.text.now words.now.store.now words.now.sheet in WroteIs to.old (section_out false ws s part.now.tables ++ section_out true ws s part.now.tables) to.new result }
{
    let passed = write_records(words, part, to)?;
    let m = write_text(words, passed.sung, &mut to[passed.to..])?;
    Some(passed.to + m)
}

// The sections of the lyrics and of their texts. Where no row is written both are empty, and no note is asked.
pub fn write_lyrics(words: &StoredLyrics<'_>, part: &StoredPart<'_>, to: &mut [u8]) -> Option<usize>
    ensures { let s = part.now.store.now in let ws = syllables_in words.now.text.now words.now.store.now words.now.sheet in WroteIs to.old (section_out false ws s part.now.tables ++ section_out true ws s part.now.tables) to.new result }
{
    if words.sheet.count == 0 {
        return write_none(to);
    }
    write_sung(words, part, to)
}
