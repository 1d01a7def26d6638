// The records of a reading, one at a time: whether their codes are in their ranges, what they count, and how the voltas of a part follow each other.
#![tactic(auto)]

ghost use Rattle.std.specs.Prelude.{◌≡◌, ◌+◌, ◌≤◌, length};
ghost use Rattle.reader.specs.Records.{measure_width, note_width, lyric_width};
ghost use Rattle.reading_sections.specs.Sections.{notes_in};
ghost use Rattle.reading_fields.specs.Codes.{is_measure, is_note, is_lyric, volta_step, is_closed};
ghost use Rattle.reading_fields.specs.Span.{span_of};

use reading_records::{
    BEAM, BOUNDARY, COUNT, DOTS, EXTEND, FLAGS, KEY_MARK, KIND, LEFT, RIGHT, SYLLABIC, VALUE,
    VERSE, VOLTA,
};

// The measure at `at` has its codes in their ranges.
pub fn measure_is_fine(reading: &[u8], at: usize) -> bool
    requires { at + measure_width ≤ length reading.now }
    ensures { result ≡ is_measure reading.now at }
{
    (reading[at + LEFT] <= 5)
        & (reading[at + RIGHT] <= 5)
        & (reading[at + KEY_MARK] <= 2)
        & (reading[at + VOLTA] <= 3)
}

// The notes of its four voices.
pub fn notes_in(reading: &[u8], at: usize) -> usize
    requires { at + measure_width ≤ length reading.now }
    ensures { result ≡ notes_in reading.now at }
{
    let first = store::get_u32(reading, at) as usize;
    let second = store::get_u32(reading, at + COUNT) as usize;
    let third = store::get_u32(reading, at + 2 * COUNT) as usize;
    let fourth = store::get_u32(reading, at + 3 * COUNT) as usize;
    first + second + third + fourth
}

// Where the voltas so far have led: into a span, out of all; or one of them was wrong.
#[derive(Clone, Copy)]
pub enum Volta {
    Inside,
    Outside,
    Wrong,
}

pub fn volta_step(before: Volta, volta: u8) -> Volta
    ensures { span_of result ≡ volta_step (span_of before) volta }
{
    match before {
        Volta::Inside => {
            if volta == 0 {
                return Volta::Inside;
            }
            if volta == 2 {
                return Volta::Outside;
            }
            Volta::Wrong
        }
        Volta::Outside => {
            if volta == 1 {
                return Volta::Inside;
            }
            if volta == 2 {
                return Volta::Wrong;
            }
            Volta::Outside
        }
        Volta::Wrong => Volta::Wrong,
    }
}

pub fn is_closed(volta: Volta) -> bool
    ensures { result ≡ is_closed (span_of volta) }
{
    match volta {
        Volta::Inside => false,
        Volta::Outside => true,
        Volta::Wrong => false,
    }
}

// The note at `at` has its codes in their ranges.
pub fn note_is_fine(reading: &[u8], at: usize) -> bool
    requires { at + note_width ≤ length reading.now }
    ensures { result ≡ is_note reading.now at }
{
    (reading[at + KIND] <= 4)
        & (reading[at + VALUE] <= 10)
        & (reading[at + DOTS] <= 3)
        & (reading[at + FLAGS] < 64)
        & (reading[at + BEAM] <= 3)
        & (reading[at + BOUNDARY] <= 3)
}

// The lyric at `at` is of one of the notes, and has its codes in their ranges.
pub fn lyric_is_fine(reading: &[u8], at: usize, notes: usize) -> bool
    requires { at + lyric_width ≤ length reading.now }
    ensures { result ≡ is_lyric reading.now notes at }
{
    let note = store::get_u32(reading, at) as usize;
    let verse = reading[at + VERSE];
    (note < notes)
        & (1 <= verse)
        & (verse <= 32)
        & (reading[at + SYLLABIC] <= 3)
        & (reading[at + EXTEND] <= 1)
}
