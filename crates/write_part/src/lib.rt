// The five sections of a part from its tables in scratch, one after the other.
#![tactic(auto)]

ghost use Rattle.std.specs.Prelude.{◌≡◌, List, ℕ};
ghost use Rattle.reader.specs.State.{Note};
ghost use Rattle.part_layout.specs.Log.{Head};
ghost use Rattle.part_layout.specs.Sections as layout;
ghost use Rattle.store_sections.specs.Writes.{WroteIs};
ghost use Rattle.lyrics.specs.Sheet.{syllables_in};
ghost use Rattle.write_notes.specs.Tables.{InStore, Represents};
ghost use Rattle.write_syllables.specs.Sheets.{SheetIn};

use lyrics::Sheet;
use write_notes::{PartTables, StoredPart};
use write_syllables::StoredLyrics;

// Measures, notes, pitches, lyrics and lyric text, each where the last one ended.
fn write_tables(words: &StoredLyrics<'_>, part: &StoredPart<'_>, to: &mut [u8]) -> Option<usize>
    ensures { (ms : List Head) (log : List (ℕ × Note)) → Represents part.now.store.now part.now.tables ms log → WroteIs to.old (layout.sections (record { heads = ms; log = log; words = syllables_in words.now.text.now words.now.store.now words.now.sheet })) to.new result }
{
    let measures = write_notes::write_measures(part, to)?;
    let notes = write_notes::write_notes(part, &mut to[measures..])?;
    let b = measures + notes;
    let pitches = write_pitches::write_pitches(part, &mut to[b..])?;
    let c = b + pitches;
    let lyrics = write_lyrics::write_lyrics(words, part, &mut to[c..])?;
    Some(c + lyrics)
}

// The same: whether all notes are of voice 0 is asked once. The two calls have a constant of `lead` each, by which the compiler makes two shorter writers of one.
pub fn write_sections(
    text: &[u8],
    store: &[u8],
    t: PartTables,
    sheet: Sheet,
    to: &mut [u8],
) -> Option<usize>
    requires { InStore store.now t × SheetIn store.now sheet }
    ensures { (ms : List Head) (log : List (ℕ × Note)) → Represents store.now t ms log → WroteIs to.old (layout.sections (record { heads = ms; log = log; words = syllables_in text.now store.now sheet })) to.new result }
{
    let words = StoredLyrics { text, store, sheet };
    if write_notes::is_lead(store, t.notes.at, t.notes.count) {
        let part = StoredPart {
            store,
            tables: t,
            lead: true,
        };
        return write_tables(&words, &part, to);
    }
    let part = StoredPart {
        store,
        tables: t,
        lead: false,
    };
    write_tables(&words, &part, to)
}
