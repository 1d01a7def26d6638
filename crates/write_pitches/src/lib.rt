// The section of a part's pitches from its tables in scratch, where each note's stand together, in the order written.
#![tactic(auto)]

ghost use Rattle.std.specs.Prelude.{◌≡◌, List, map, ℕ, ◌+◌, ◌*◌, ◌^◌, ◌≤◌, ◌<◌, length};
ghost use Rattle.laws.specs.Lists.{concat};
ghost use Rattle.laws.specs.Bytes.{part};
ghost use Rattle.reader.specs.State.{Note};
ghost use Rattle.reader.specs.Records.{pitch_bytes, section};
ghost use Rattle.part_layout.specs.Log.{Head};
ghost use Rattle.part_layout.specs.Sections.{in_order};
ghost use Rattle.part_rows.specs.Encoded.{note_row_width, pitch_row_width};
ghost use Rattle.part_rows.specs.Read.{pitch_count};
ghost use Rattle.store_sections.specs.Writes.{WroteIs};
ghost use Rattle.write_notes.specs.Tables.{pitch_total, Represents};
ghost use Rattle.write_pitches.specs.Out.{voice_out, voices_out, pitches_out, pitches_section};

use part_measures::MEASURE;
use part_rows::{NOTE_ROW, PITCH_ROW};
use write_notes::StoredPart;

// How many bytes the pitches of the note in the row at `place` take.
fn pitch_bytes(store: &[u8], place: usize) -> usize
    requires { place + note_row_width ≤ length store.now }
    ensures { (result ≡ pitch_row_width * pitch_count store.now place) × (result < 2 ^ 35) }
{
    PITCH_ROW * part_rows::pitch_count(store, place)
}

// Where the pitches of the k rows from `place` on end, if they begin at `pitches`.
fn pitches_end(store: &[u8], place: usize, k: usize, pitches: usize) -> usize
    requires { (place + note_row_width * k ≤ length store.now) × (pitches + pitch_row_width * pitch_total store.now place k ≤ length store.now) }
    ensures { result ≡ pitches + pitch_row_width * pitch_total store.now place k }
{
    let mut end = pitches;
    for row in 0..k {
        end += pitch_bytes(store, place + NOTE_ROW * row);
    }
    end
}

// Bytes of scratch as they are.
fn write_run(store: &[u8], from: usize, len: usize, to: &mut [u8]) -> Option<usize>
    requires { from + len ≤ length store.now }
    ensures { WroteIs to.old (part store.now from len) to.new result }
{
    if to.len() < len {
        return None;
    }
    store::copy(store, from, to, 0, len);
    Some(len)
}

// The pitches of those of the k rows from `place` on that are of one voice.
fn write_voice(
    store: &[u8],
    place: usize,
    k: usize,
    pitches: usize,
    voice: u8,
    to: &mut [u8],
) -> Option<usize>
    requires { (place + note_row_width * k ≤ length store.now) × (pitches + pitch_row_width * pitch_total store.now place k ≤ length store.now) }
    ensures { WroteIs to.old (voice_out store.now voice place pitches k) to.new result }
{
    let mut at = 0;
    let mut q = pitches;
    for row in 0..k {
        let p = place + NOTE_ROW * row;
        let len = pitch_bytes(store, p);
        if part_rows::is_of_voice(store, p, voice) {
            at += write_run(store, q, len, &mut to[at..])?;
        }
        q += len;
    }
    Some(at)
}

// The pitches of the k rows from `place` on: voice 0 to 3, each as written.
fn write_voices(
    store: &[u8],
    place: usize,
    k: usize,
    pitches: usize,
    to: &mut [u8],
) -> Option<usize>
    requires { (place + note_row_width * k ≤ length store.now) × (pitches + pitch_row_width * pitch_total store.now place k ≤ length store.now) }
    ensures { WroteIs to.old (voices_out store.now place pitches k 0 4) to.new result }
{
    let mut at = 0;
    for voice in 0..4 {
        at += write_voice(store, place, k, pitches, voice, &mut to[at..])?;
    }
    Some(at)
}

// The pitches of one measure, whose k rows begin at `place`; they end at `end`. Those of one voice stand as they are written.
fn write_measure(
    store: &[u8],
    place: usize,
    k: usize,
    pitches: usize,
    end: usize,
    to: &mut [u8],
) -> Option<usize>
    requires { (place + note_row_width * k ≤ length store.now) × (pitches + pitch_row_width * pitch_total store.now place k ≤ length store.now) × (end ≡ pitches + pitch_row_width * pitch_total store.now place k) }
    ensures { WroteIs to.old (voices_out store.now place pitches k 0 4) to.new result }
{
    if write_notes::is_lead(store, place, k) {
        return write_run(store, pitches, end - pitches, to);
    }
    write_voices(store, place, k, pitches, to)
}

// The pitches of all notes, measure by measure.
fn write_records(part: &StoredPart<'_>, to: &mut [u8]) -> Option<usize>
    ensures { let t = part.now.tables in WroteIs to.old (pitches_out part.now.store.now t.measures.at t.notes.at t.pitches.at t.measures.count) to.new result }
{
    let store = part.store;
    let t = part.tables;
    let mut at = 0;
    let mut p = t.notes.at;
    let mut q = t.pitches.at;
    for measure in 0..t.measures.count {
        let k = part_measures::note_count(store, t.measures.at + MEASURE * measure);
        let end = pitches_end(store, p, k, q);
        at += write_measure(store, p, k, q, end, &mut to[at..])?;
        q = end;
        p += NOTE_ROW * k;
    }
    Some(at)
}

// The pitches of all notes: one run where all notes are of voice 0, else measure by measure.
fn write_all(part: &StoredPart<'_>, to: &mut [u8]) -> Option<usize>
    ensures { let t = part.now.tables in WroteIs to.old (pitches_out part.now.store.now t.measures.at t.notes.at t.pitches.at t.measures.count) to.new result }
{
    if part.lead {
        let t = part.tables;
        return write_run(part.store, t.pitches.at, PITCH_ROW * t.pitches.count, to);
    }
    write_records(part, to)
}

// The section of the pitches, in the order of the notes that have them.
pub fn write_pitches(part: &StoredPart<'_>, to: &mut [u8]) -> Option<usize>
    ensures bytes_of_store { WroteIs to.old (pitches_section part.now.store.now part.now.tables) to.new result }
    ensures bytes_of_tables { (ms : List Head) (log : List (ℕ × Note)) → Represents part.now.store.now part.now.tables ms log → WroteIs to.old (section pitch_bytes (concat (map (λ (x : ℕ × Note). x.1.pitches) (in_order ms log)))) to.new result }
{
    let at = store_sections::write_u32(to, part.tables.pitches.count as u32)?;
    let m = write_all(part, &mut to[at..])?;
    Some(at + m)
}
