// The counts of a part, read off the bytes of its sections.
#![tactic(auto)]

ghost use Rattle.std.specs.Prelude.{◌≡◌, ◌+◌, ◌*◌, ◌≤◌, length};
ghost use Rattle.reader.specs.Records.{note_width};
ghost use Rattle.reading_sections.specs.Sections.{part_end};
ghost use Rattle.tally_counts.specs.Counted.{sounded_in, counts_in};

// A part's counts and where its sections end.
#[derive(Clone, Copy)]
pub struct Counts {
    pub measures: usize,
    pub sounded: usize,
    pub rests: usize,
    pub syllables: usize,
    pub end: usize,
}

// How many of the n notes from `at` on are no rests.
fn count_sounded(reading: &[u8], at: usize, n: usize) -> usize
    requires { at + note_width * n ≤ length reading.now }
    ensures value { result ≡ sounded_in reading.now at n }
    ensures upper_bound { result ≤ n }
{
    let mut sounded = 0;
    for i in 0..n {
        sounded += usize::from(reading[at + reading_records::NOTE * i] == 0);
    }
    sounded
}

// The counts of the part that begins at `at`.
pub fn count_part(reading: &[u8], at: usize) -> Counts
    requires { part_end reading.now at ≤ length reading.now }
    ensures syllables_value { record { measures = result.measures; sounded = result.sounded; rests = result.rests; syllables = result.syllables } ≡ counts_in reading.now at }
    ensures end_value { result.end ≡ part_end reading.now at }
{
    let measures = reading_sections::section_at(reading, reading_records::MEASURE, at);
    let notes = reading_sections::section_at(reading, reading_records::NOTE, measures.end);
    let pitches = reading_sections::section_at(reading, reading_records::PITCH, notes.end);
    let lyrics = reading_sections::section_at(reading, reading_records::LYRIC, pitches.end);
    let text = reading_sections::section_at(reading, 1, lyrics.end);
    let sounded = count_sounded(reading, measures.end + reading_records::COUNT, notes.count);
    Counts {
        measures: measures.count,
        sounded,
        rests: notes.count - sounded,
        syllables: lyrics.count,
        end: text.end,
    }
}
