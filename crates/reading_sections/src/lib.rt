// A section of a reading, read off its bytes.
#![tactic(auto)]

ghost use Rattle.std.specs.Prelude.{◌≡◌, ◌≤◌, length};
ghost use Rattle.laws.specs.Bytes.{u32_at};
ghost use Rattle.reading_sections.specs.Sections.{behind, part_end};

// A section's count and where it ends.
#[derive(Clone, Copy)]
pub struct Section {
    pub count: usize,
    pub end: usize,
}

// The section of records of `width` bytes at `at`.
pub fn section_at(reading: &[u8], width: usize, at: usize) -> Section
    requires { behind reading.now width at ≤ length reading.now }
    ensures { (result.count ≡ u32_at reading.now at) × (result.end ≡ behind reading.now width at) }
{
    let count = store::get_u32(reading, at) as usize;
    Section {
        count,
        end: at + reading_records::COUNT + width * count,
    }
}

// Where the part that begins at `at` ends.
pub fn part_end(reading: &[u8], at: usize) -> usize
    requires { part_end reading.now at ≤ length reading.now }
    ensures { result ≡ part_end reading.now at }
{
    let measures = section_at(reading, reading_records::MEASURE, at);
    let notes = section_at(reading, reading_records::NOTE, measures.end);
    let pitches = section_at(reading, reading_records::PITCH, notes.end);
    let lyrics = section_at(reading, reading_records::LYRIC, pitches.end);
    let text = section_at(reading, 1, lyrics.end);
    text.end
}
