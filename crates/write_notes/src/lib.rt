// The sections of a part's measures and notes from its tables in scratch. Each writer is lent the store from where the last section ended, and answers how far it
// got in that.
#![tactic(auto)]

ghost use Rattle.std.specs.Prelude.{◌≡◌, List, ℕ, ◌+◌, ◌*◌, ◌≤◌, Some, length};
ghost use Rattle.reader.specs.State.{Note};
ghost use Rattle.reader.specs.Records.{note_width, note_bytes, section};
ghost use Rattle.part_layout.specs.Log.{Head};
ghost use Rattle.part_layout.specs.Sections.{head_bytes, in_order};
ghost use Rattle.part_rows.specs.Encoded.{note_row_width};
ghost use Rattle.store_sections.specs.Writes.{WroteIs};
ghost use Rattle.write_notes.specs.Tables.{InStore, Represents};
ghost use Rattle.write_notes.specs.Out.{flags_for, note_out, records_out, voice_out, voices_out, leads, notes_out, measures_section, notes_section};

use part_measures::MEASURE;
use part_rows::{NOTE_ROW, NoteStart};
use reading_records::{COUNT, NOTE};

// The rows of a table in scratch: where they begin, and how many there are.
#[derive(Clone, Copy)]
pub struct Rows {
    pub at: usize,
    pub count: usize,
}

// The tables of a part, once it is ended.
#[derive(Clone, Copy)]
pub struct PartTables {
    pub measures: Rows,
    pub notes: Rows,
    pub pitches: Rows,
}

// What every writer of a section reads: a part's tables within their store, and whether all of its notes are of voice 0.
#[derive(Clone, Copy)]
pub struct StoredPart<'s> {
    pub store: &'s [u8],
    pub tables: PartTables,
    pub lead: bool,
    pub ghost within: { InStore store.now tables },
    pub ghost lead_is: { lead ≡ leads store.now tables.notes.at tables.notes.count },
}

// MEASURES

// The section of the measures: their rows as they are.
pub fn write_measures(part: &StoredPart<'_>, to: &mut [u8]) -> Option<usize>
    ensures bytes_of_store { WroteIs to.old (measures_section part.now.store.now part.now.tables) to.new result }
    ensures bytes_of_tables { (ms : List Head) (log : List (ℕ × Note)) → Represents part.now.store.now part.now.tables ms log → WroteIs to.old (section head_bytes ms) to.new result }
{
    let measures = part.tables.measures;
    let len = MEASURE * measures.count;
    if to.len() < COUNT {
        return None;
    }
    if to.len() - COUNT < len {
        return None;
    }
    store::put_u32(to, 0, measures.count as u32);
    store::copy(part.store, measures.at, to, COUNT, len);
    Some(COUNT + len)
}

// NOTES

// The flags of a note: 32 is added where it is no rest, from an eighth to a 128th, and in no beam. No test branches, since which note is one is hard to foretell.
fn flags_of(n: NoteStart) -> u8
    ensures { result ≡ flags_for n }
{
    let lone = (n.kind == 0) & (5 <= n.value) & (n.value <= 9) & (n.beam == 0);
    n.flags % 32 + 32 * store::one_if(lone)
}

// Puts the note record of the row at `place`, for which there is room.
fn put_record(store: &[u8], place: usize, to: &mut [u8])
    requires { (place + note_row_width ≤ length store.now) × (note_width ≤ length to.old) }
    ensures { WroteIs to.old (note_out store.now place) to.new (Some note_width) }
{
    let n = part_rows::note_start(store, place);
    let flags = flags_of(n);
    store::put_4(to, 0, n.kind, n.value, n.dots, flags);
    part_rows::copy_note_rest(store, place, to);
}

// The same, if there is room.
fn write_note(store: &[u8], place: usize, to: &mut [u8]) -> Option<usize>
    requires { place + note_row_width ≤ length store.now }
    ensures { WroteIs to.old (note_out store.now place) to.new result }
{
    if to.len() < NOTE {
        return None;
    }
    put_record(store, place, to);
    Some(NOTE)
}

// The records of the k rows from `place` on, of whatever voices, as they stand.
fn write_rows(store: &[u8], place: usize, k: usize, to: &mut [u8]) -> Option<usize>
    requires { place + note_row_width * k ≤ length store.now }
    ensures { WroteIs to.old (records_out store.now place k) to.new result }
{
    if to.len() < NOTE * k {
        return None;
    }
    for row in 0..k {
        put_record(store, place + NOTE_ROW * row, &mut to[NOTE * row..]);
    }
    Some(NOTE * k)
}

// The records of those of the k rows from `place` on that are of one voice.
fn write_voice(store: &[u8], place: usize, k: usize, voice: u8, to: &mut [u8]) -> Option<usize>
    requires { place + note_row_width * k ≤ length store.now }
    ensures { WroteIs to.old (voice_out store.now voice place k) to.new result }
{
    let mut at = 0;
    for row in 0..k {
        let p = place + NOTE_ROW * row;
        if part_rows::is_of_voice(store, p, voice) {
            at += write_note(store, p, &mut to[at..])?;
        }
    }
    Some(at)
}

// The k rows from `place` on are all of voice 0.
pub fn is_lead(store: &[u8], place: usize, k: usize) -> bool
    requires { place + note_row_width * k ≤ length store.now }
    ensures { result ≡ leads store.now place k }
{
    for row in 0..k {
        if !part_rows::is_of_voice(store, place + NOTE_ROW * row, 0) {
            return false;
        }
    }
    true
}

// The records of the k rows from `place` on that are of voice 1 to 3, each as written.
fn write_overlays(store: &[u8], place: usize, k: usize, to: &mut [u8]) -> Option<usize>
    requires { place + note_row_width * k ≤ length store.now }
    ensures { WroteIs to.old (voices_out store.now place k 1 3) to.new result }
{
    let mut at = 0;
    for voice in 1..4 {
        at += write_voice(store, place, k, voice, &mut to[at..])?;
    }
    Some(at)
}

// The records of one measure, whose k rows begin at `place`. Most have one voice: then all are written after voice 0.
fn write_measure_notes(store: &[u8], place: usize, k: usize, to: &mut [u8]) -> Option<usize>
    requires { place + note_row_width * k ≤ length store.now }
    ensures { WroteIs to.old (voices_out store.now place k 0 4) to.new result }
{
    let at = write_voice(store, place, k, 0, to)?;
    if at == NOTE * k {
        return Some(at);
    }
    let m = write_overlays(store, place, k, &mut to[at..])?;
    Some(at + m)
}

// The records of all notes, measure by measure.
fn write_note_records(part: &StoredPart<'_>, to: &mut [u8]) -> Option<usize>
    ensures { let t = part.now.tables in WroteIs to.old (notes_out part.now.store.now t.measures.at t.notes.at t.measures.count) to.new result }
{
    let store = part.store;
    let t = part.tables;
    let mut at = 0;
    let mut p = t.notes.at;
    for measure in 0..t.measures.count {
        let k = part_measures::note_count(store, t.measures.at + MEASURE * measure);
        at += write_measure_notes(store, p, k, &mut to[at..])?;
        p += NOTE_ROW * k;
    }
    Some(at)
}

// The records of all notes: at once where all of them are of voice 0, else measure by measure.
fn write_all(part: &StoredPart<'_>, to: &mut [u8]) -> Option<usize>
    ensures { let t = part.now.tables in WroteIs to.old (notes_out part.now.store.now t.measures.at t.notes.at t.measures.count) to.new result }
{
    if part.lead {
        let t = part.tables;
        return write_rows(part.store, t.notes.at, t.notes.count, to);
    }
    write_note_records(part, to)
}

// The section of the notes: by measure, then by voice, then as written.
pub fn write_notes(part: &StoredPart<'_>, to: &mut [u8]) -> Option<usize>
    ensures bytes_of_store { WroteIs to.old (notes_section part.now.store.now part.now.tables) to.new result }
    ensures bytes_of_tables { (ms : List Head) (log : List (ℕ × Note)) → Represents part.now.store.now part.now.tables ms log → WroteIs to.old (section (λ (x : ℕ × Note). note_bytes x.1) (in_order ms log)) to.new result }
{
    let at = store_sections::write_u32(to, part.tables.notes.count as u32)?;
    let m = write_all(part, &mut to[at..])?;
    Some(at + m)
}
