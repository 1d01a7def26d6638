// Whether bytes are a whole reading, and zeros behind it: in one pass, part after part.
#![tactic(auto)]

ghost use Rattle.std.specs.Prelude.{◌≡◌, ◌≤◌, length};
ghost use Rattle.reader.specs.Records.{measure_width, note_width, pitch_width, lyric_width};
ghost use Rattle.reading_sections.specs.Sections.{record_at};
ghost use Rattle.reading_whole.specs.Whole.{is_zeros, is_whole};
ghost use Rattle.reading_whole.specs.Given.{measures_fine, notes_fine, pitches_fine, lyrics_fine, section_for, layout_for, part_for};

use reading_records::{COUNT, FIRST_PART, LYRIC, MEASURE, NOTE, PITCH};
use reading_sections::Section;

// THE SECTIONS. A count is taken from what is left of the section's that it adds up to, so no sum is made that could pass 64 bits.
// Each test asks for a section of its own width and is called in one place: a struct for (reading, at, count), generic in the width, would be made anew for each of the four calls, and say no more.

// The measures of the section at `at`: each fine, their voltas in order, their voices' notes as many as there are.
fn are_measures(reading: &[u8], at: usize, count: usize, notes: usize) -> bool
    requires { record_at measure_width at count ≤ length reading.now }
    ensures { result ≡ measures_fine reading.now at count notes }
{
    let mut fine = true;
    let mut left = notes;
    let mut volta = reading_fields::Volta::Outside;
    for i in 0..count {
        let here = at + COUNT + MEASURE * i;
        let own = reading_fields::notes_in(reading, here);
        if left < own {
            return false;
        }
        left -= own;
        fine &= reading_fields::measure_is_fine(reading, here);
        volta = reading_fields::volta_step(volta, reading[here + reading_records::VOLTA]);
    }
    fine & reading_fields::is_closed(volta) & (left == 0)
}

// The notes of the section at `at`: each fine, their pitches as many as there are.
fn are_notes(reading: &[u8], at: usize, count: usize, pitches: usize) -> bool
    requires { record_at note_width at count ≤ length reading.now }
    ensures { result ≡ notes_fine reading.now at count pitches }
{
    let mut fine = true;
    let mut left = pitches;
    for i in 0..count {
        let here = at + COUNT + NOTE * i;
        let own = store::get_u32(reading, here + reading_records::PITCHES) as usize;
        if left < own {
            return false;
        }
        left -= own;
        fine &= reading_fields::note_is_fine(reading, here);
    }
    fine & (left == 0)
}

// The pitches of the section at `at`: each step one of seven.
fn are_pitches(reading: &[u8], at: usize, count: usize) -> bool
    requires { record_at pitch_width at count ≤ length reading.now }
    ensures { result ≡ pitches_fine reading.now at count }
{
    let mut fine = true;
    for i in 0..count {
        let here = at + COUNT + PITCH * i;
        fine &= reading[here + reading_records::STEP] <= 6;
    }
    fine
}

// The lyrics of the section at `at`: each fine, their texts as long as the section of texts.
fn are_lyrics(reading: &[u8], at: usize, count: usize, notes: usize, text: usize) -> bool
    requires { record_at lyric_width at count ≤ length reading.now }
    ensures { result ≡ lyrics_fine reading.now at count notes text }
{
    let mut fine = true;
    let mut left = text;
    for i in 0..count {
        let here = at + COUNT + LYRIC * i;
        let own = store::get_u32(reading, here + reading_records::TEXT) as usize;
        if left < own {
            return false;
        }
        left -= own;
        fine &= reading_fields::lyric_is_fine(reading, here, notes);
    }
    fine & (left == 0)
}

// A PART

// The section of records of `width` bytes at `at`, if it lies inside the bytes.
fn section_if_inside(reading: &[u8], width: usize, at: usize) -> Option<Section>
    requires { (at ≤ length reading.now) × (width ≤ measure_width) }
    ensures { result ≡ section_for reading.now width at }
{
    let room = reading.len() - at;
    if room < COUNT {
        return None;
    }
    let count = store::get_u32(reading, at) as usize;
    if room - COUNT < width * count {
        return None;
    }
    Some(Section {
        count,
        end: at + COUNT + width * count,
    })
}

// The sections of a part.
#[derive(Clone, Copy)]
struct Layout {
    measures: Section,
    notes: Section,
    pitches: Section,
    lyrics: Section,
    text: Section,
}

// The sections of the part at `at`, found before any record is read, if all lie inside the bytes.
fn sections_if_inside(reading: &[u8], at: usize) -> Option<Layout>
    requires { at ≤ length reading.now }
    ensures { result ≡ layout_for reading.now at }
{
    let measures = section_if_inside(reading, MEASURE, at)?;
    let notes = section_if_inside(reading, NOTE, measures.end)?;
    let pitches = section_if_inside(reading, PITCH, notes.end)?;
    let lyrics = section_if_inside(reading, LYRIC, pitches.end)?;
    let text = section_if_inside(reading, 1, lyrics.end)?;
    Some(Layout {
        measures,
        notes,
        pitches,
        lyrics,
        text,
    })
}

// Where the part at `at` ends, if it is whole.
fn part_if_whole(reading: &[u8], at: usize) -> Option<usize>
    requires { at ≤ length reading.now }
    ensures { result ≡ part_for reading.now at }
{
    let layout = sections_if_inside(reading, at)?;
    let measures = layout.measures;
    let notes = layout.notes;
    let pitches = layout.pitches;
    let lyrics = layout.lyrics;
    let text = layout.text;
    let fine = are_measures(reading, at, measures.count, notes.count)
        & are_notes(reading, measures.end, notes.count, pitches.count)
        & are_pitches(reading, notes.end, pitches.count)
        & are_lyrics(reading, pitches.end, lyrics.count, notes.count, text.count);
    if fine { Some(text.end) } else { None }
}

// THE READING

// Nothing but zeros. No test branches, so that many bytes are looked at together.
fn is_zeros(bytes: &[u8]) -> bool
    ensures { result ≡ is_zeros bytes.now }
{
    let mut zero = true;
    for byte in bytes {
        zero &= *byte == 0;
    }
    zero
}

// A whole reading, whatever the bytes are.
pub fn is_whole(reading: &[u8]) -> bool
    ensures { result ≡ is_whole reading.now }
{
    if reading.len() < FIRST_PART {
        return false;
    }
    let mut at = FIRST_PART;
    for i in 0..store::get_u32(reading, 0) {
        let Some(end) = part_if_whole(reading, at) else {
            return false;
        };
        at = end;
    }
    is_zeros(&reading[at..])
}
