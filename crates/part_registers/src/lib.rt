// What is kept outside scratch while a part is read, in groups, and what a note gets from it: its tuplet, its beam, a broken rhythm's half, its flags.
#![tactic(auto)]

ghost use Rattle.std.specs.Prelude.{◌≡◌, ◌≤◌};
ghost use Rattle.token_lengths.specs.Values.{broken_length};
ghost use Rattle.part_registers.specs.Notes.{beams, bit_of, flags_in, length_in, boundary_of, grouped_row, fewer, halved_row, run_again, beamed_row};

use part_accidentals::AbcPartParseState;
use part_rows::{Beam, NoteRow};
use token_lengths::Length;

// Where the tables of a part begin in scratch, one behind the other, and where the last one ends.
#[derive(Clone, Copy)]
pub struct Tables {
    pub heads: usize,
    pub notes: usize,
    pub pitches: usize,
    pub scopes: usize,
    pub end: usize,
}

// How many rows they have.
#[derive(Clone, Copy)]
pub struct Counts {
    pub heads: u32,
    pub notes: u32,
    pub pitches: u32,
    pub scopes: u32,
}

// What is pending for the next note: the end of a tie, a slur; and whether a grace brace is open.
#[derive(Clone, Copy)]
pub struct Pending {
    pub tie: bool,
    pub slur: bool,
    pub grace: bool,
}

// The second half of a broken rhythm, dotted or halved so many times.
#[derive(Clone, Copy)]
pub struct Half {
    pub up: bool,
    pub times: u8,
}

// A tuplet, and how many of its notes are to come; or none. No Option of a struct: that takes eight bytes more of the state, which every token copies (6 % of the
// instructions on plain notes).
#[derive(Clone, Copy)]
pub enum Running {
    Nothing,
    Tuplet {
        actual: u8,
        normal: u8,
        count: u64,
        remaining: u64,
    },
}

// What ends with the line: unit and meter in force, the overlay voice, and how many notes the beam's run has. That is a count up to 2, which stands for more too.
#[derive(Clone, Copy)]
pub struct Line {
    pub unit: u32,
    pub top: u8,
    pub bottom: u8,
    pub overlay: u8,
    pub run: u8,
}

// For the lyrics: the notes of voice 0 that are no rests, the first of the latest music line, its next verse.
#[derive(Clone, Copy)]
pub struct Verses {
    pub sounded: u32,
    pub start: u32,
    pub verse: u8,
}

// All of it, beside scratch and its tables: three arguments of each step, for scratch is the one slice that is lent for all tables, and the state goes by value.
// How many rows there are, the key in force, for each overlay voice the place of its last note in the open measure (from 1; 0 if it has none: an index
// into rows, read and written once for each note, with no room for a tag), what is pending, the half that waits for the next note, the line, the tuplet that runs, and
// the verses. The order was measured: it decides what the compiler copies between the fields.
#[derive(Clone, Copy)]
pub struct Registers {
    pub counts: Counts,
    pub key: AbcPartParseState,
    pub last: [u32; 4],
    pub pending: Pending,
    pub half: Option<Half>,
    pub line: Line,
    pub tuplet: Running,
    pub verses: Verses,
}

// PARTS OF IT CHANGED: every field is named, since a copy of several at once would put them into memory

// A line with another run.
pub fn with_run(line: Line, run: u8) -> Line
    ensures { result ≡ record { unit = line.unit; top = line.top; bottom = line.bottom; overlay = line.overlay; run = run } }
{
    Line {
        unit: line.unit,
        top: line.top,
        bottom: line.bottom,
        overlay: line.overlay,
        run,
    }
}

// Counts with another number of measures and of accidentals in force.
pub fn with_heads(c: Counts, heads: u32, scopes: u32) -> Counts
    ensures { result ≡ record { heads = heads; notes = c.notes; pitches = c.pitches; scopes = scopes } }
{
    Counts {
        heads,
        notes: c.notes,
        pitches: c.pitches,
        scopes,
    }
}

// WHAT A NOTE GETS

// A note, from an eighth to a 128th, can be beamed.
#[tactic(auto, unfolding(crate::specs::Notes::beams))]
pub fn abc_note_is_beamable(kind: u8, value: u8) -> bool
    ensures { result ≡ beams kind value }
{
    kind == 0 && 5 <= value && value <= 9
}

#[tactic(auto, unfolding(crate::specs::Notes::bit_of))]
fn bit(b: bool, n: u8) -> u8
    ensures { (result ≡ bit_of b n) × (result ≤ n) }
{
    if b { n } else { 0 }
}

// The flags of ties, slurs and graces, by what was pending and what stands behind the note.
#[tactic(auto, unfolding(crate::specs::Notes::flags_in))]
pub fn note_flags(p: Pending, tie: bool, slur: bool) -> u8
    ensures { result ≡ flags_in p tie slur }
{
    bit(tie, 1) + bit(p.tie, 2) + bit(p.slur, 4) + bit(slur, 8) + bit(p.grace, 16)
}

// A value of 10 is the whole bar.
#[tactic(auto, unfolding(crate::specs::Notes::length_in))]
fn length_in(value: u8, dots: u8) -> Length
    ensures { result ≡ length_in value dots }
{
    if value == 10 {
        return Length::WholeBar(dots);
    }
    Length::Written(value, dots)
}

// The tuplet that a note stands in.
#[tactic(auto, unfolding(crate::specs::Notes::grouped_row))]
pub fn apply_abc_tuplet(n: NoteRow, tuplet: Running) -> NoteRow
    ensures { result ≡ grouped_row tuplet n }
{
    match tuplet {
        Running::Nothing => n,
        Running::Tuplet {
            actual,
            normal,
            count,
            remaining,
        } => {
            let mut m = n;
            m.actual = actual;
            m.normal = normal;
            m.boundary = boundary(remaining == count, remaining == 1);
            m
        }
    }
}

// Where a note stands in its tuplet: 1 at the start, 2 at the stop, 3 both.
#[tactic(auto, unfolding(crate::specs::Notes::boundary_of))]
fn boundary(starts: bool, stops: bool) -> u8
    ensures { result ≡ boundary_of starts stops }
{
    bit(starts, 1) + bit(stops, 2)
}

// The tuplet after a note: over when its count is used up.
#[tactic(auto, unfolding(crate::specs::Notes::fewer))]
pub fn one_fewer(tuplet: Running) -> Running
    ensures { result ≡ fewer tuplet }
{
    match tuplet {
        Running::Nothing => tuplet,
        Running::Tuplet {
            actual,
            normal,
            count,
            remaining,
        } => {
            if remaining <= 1 {
                return Running::Nothing;
            }
            Running::Tuplet {
                actual,
                normal,
                count,
                remaining: remaining - 1,
            }
        }
    }
}

// A value with its dots after broken rhythm.
pub fn broken_length(value: u8, dots: u8, half: Half) -> Length
    ensures { result ≡ broken_length half.up half.times (length_in value dots) }
{
    token_lengths::apply_abc_broken_rhythm(length_in(value, dots), half.up, half.times)
}

// A note after the half that waited for it.
#[tactic(auto, unfolding(crate::specs::Notes::halved_row, crate::specs::Notes::broken_row))]
pub fn after_half(n: NoteRow, half: Option<Half>) -> NoteRow
    ensures { result ≡ halved_row half n }
{
    match half {
        None => n,
        Some(half) => {
            let length = broken_length(n.value, n.dots, half);
            let mut m = n;
            m.value = token_lengths::value_of(length);
            m.dots = token_lengths::dots_of(length);
            m
        }
    }
}

// The beam run after a note (000, update_abc_beam_run): longer by one, or over. The beams themselves, which the Rust's function writes too, are written where the
// rows are: part_append::beam_before has the note before begin or continue the beam, beamed_new has the new note end it, and part_rhythm::beam_again does the
// last note once more after an empty chord or an accidental without a note.
#[tactic(auto, unfolding(crate::specs::Notes::run_again))]
pub fn update_abc_beam_run(run: u8, kind: u8, value: u8) -> u8
    ensures { result ≡ run_again run kind value }
{
    if abc_note_is_beamable(kind, value) {
        if run == 0 {
            return 1;
        }
        return 2;
    }
    0
}

// A note that a run goes on with ends the beam.
#[tactic(auto, unfolding(crate::specs::Notes::beamed_row))]
pub fn beamed_new(run: u8, n: NoteRow) -> NoteRow
    ensures { result ≡ beamed_row run n }
{
    if run == 0 {
        return n;
    }
    if abc_note_is_beamable(n.kind, n.value) {
        let mut m = n;
        m.beam = u8::from(Beam::Ends);
        return m;
    }
    n
}
