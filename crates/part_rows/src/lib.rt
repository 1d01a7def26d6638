// The rows of a part's tables in scratch but for measures (crate part_measures): notes, pitches. A table is where it begins, a row its index: all
// tables share the one slice that is lent, so no struct borrows a table of its own.
#![tactic(auto)]

ghost use Rattle.std.specs.Prelude.{◌≡◌, not, [], ◌∷◌, ◌+◌, ◌*◌, ◌^◌, ◌≤◌, ◌<◌, length, get_or};
ghost use Rattle.laws.specs.Bytes.{splice};
ghost use Rattle.reader.specs.Records.{note_width, signed8, signed16};
ghost use Rattle.part_rows.specs.Encoded.{row_bytes, pitch_row, note_row_width, pitch_row_width, value_at, dots_at, beam_at};
ghost use Rattle.part_rows.specs.Beams.{number_of};
ghost use Rattle.part_rows.specs.Read.{start_at, rest_at, sounds_at, of_voice_at, grace_at, sung_row, pitch_count};

// The bytes of a row: a note's, a pitch's (those of its record), that of a step and octave with accidentals; and of the index of those.
pub const NOTE_ROW: usize = 16;

pub const PITCH_ROW: usize = reading_records::PITCH;

pub const SCOPE_ROW: usize = 16;

pub const SCOPE_INDEX: usize = 7168;

// Where the fields of a note's row stand. The first twelve bytes are where the note record has them.
const VALUE: usize = 1;

const DOTS: usize = 2;

const FLAGS: usize = 3;

const BEAM: usize = 4;

const PITCH_COUNT: usize = 8;

const VOICE: usize = 12;

// The flag of a grace note.
const GRACE: u8 = 16;

// Where the last byte of a pitch's row stands: the higher one of its cents.
const CENTS_SIGN: usize = 4;

// What a note does in its beam.
#[derive(Clone, Copy, Debug, PartialEq, Eq)]
pub enum Beam {
    Unbeamed,
    Begins,
    Continues,
    Ends,
}

impl From<Beam> for u8 {
    ghost from_gives = { λ beam number. number ≡ number_of beam };

    fn from(beam: Beam) -> u8 {
        match beam {
            Beam::Unbeamed => 0,
            Beam::Begins => 1,
            Beam::Continues => 2,
            Beam::Ends => 3,
        }
    }
}

// A note as its row holds it, kinds and beams by their numbers, since they are read back from the row as bytes: kind, value, dots, the flags of ties, slurs and graces,
// beam, tuplet and boundary, and how many pitches it has.
#[derive(Clone, Copy)]
pub struct NoteRow {
    pub kind: u8,
    pub value: u8,
    pub dots: u8,
    pub flags: u8,
    pub beam: u8,
    pub actual: u8,
    pub normal: u8,
    pub boundary: u8,
    pub pitches: u32,
}

// A pitch as sounded; octave, alter and cents have 128 added.
#[derive(Clone, Copy)]
pub struct Sounded {
    pub step: u8,
    pub octave: u8,
    pub alter: u8,
    pub cents: u8,
}

// What broken rhythm and beams ask of a note in its row.
#[derive(Clone, Copy)]
pub struct Written {
    pub kind: u8,
    pub value: u8,
    pub dots: u8,
}

// NOTES

// Writes a note and its voice as row i.
pub fn put_note(store: &mut [u8], at: usize, i: usize, n: NoteRow, voice: u8)
    requires { at + note_row_width * i + note_row_width ≤ length store.old }
    ensures { store.new ≡ splice store.old (at + note_row_width * i) (row_bytes n voice) }
{
    let place = at + NOTE_ROW * i;
    store::put_4(store, place, n.kind, n.value, n.dots, n.flags);
    store::put_4(store, place + BEAM, n.beam, n.actual, n.normal, n.boundary);
    store::put_u32(store, place + PITCH_COUNT, n.pitches);
    store::put_4(store, place + VOICE, voice, 0, 0, 0);
}

// Another value, with its dots, in row i.
pub fn set_note_value(store: &mut [u8], at: usize, i: usize, value: u8, dots: u8)
    requires { at + note_row_width * i + note_row_width ≤ length store.old }
    ensures { store.new ≡ splice store.old (at + note_row_width * i + value_at) (value ∷ dots ∷ []) }
{
    let place = at + NOTE_ROW * i + VALUE;
    store::put_u8(store, place, value);
    store::put_u8(store, place + 1, dots);
}

// Another beam, by number, in row i.
pub fn set_note_beam(store: &mut [u8], at: usize, i: usize, beam: u8)
    requires { at + note_row_width * i + note_row_width ≤ length store.old }
    ensures { store.new ≡ splice store.old (at + note_row_width * i + beam_at) (beam ∷ []) }
{
    store::put_u8(store, at + NOTE_ROW * i + BEAM, beam);
}

// Kind, value and dots of row i.
pub fn get_written(store: &[u8], at: usize, i: usize) -> Written
    requires { at + note_row_width * i + note_row_width ≤ length store.now }
    ensures { result ≡ record { kind = get_or store.now (at + note_row_width * i) 0; value = get_or store.now (at + note_row_width * i + value_at) 0; dots = get_or store.now (at + note_row_width * i + dots_at) 0 } }
{
    let place = at + NOTE_ROW * i;
    Written {
        kind: store[place],
        value: store[place + VALUE],
        dots: store[place + DOTS],
    }
}

// PITCHES

// A signed number, kept with 128 added, as a byte.
#[tactic(auto, unfolding(reader::specs::Records::signed8))]
pub fn signed(n: u8) -> u8
    ensures { result ≡ signed8 n }
{
    if n < 128 { n + 128 } else { n - 128 }
}

// The higher byte of the same in two bytes.
#[tactic(auto, unfolding(reader::specs::Records::signed16, reader::specs::Records::signed8))]
fn sign(n: u8) -> u8
    ensures { signed16 n ≡ signed8 n ∷ result ∷ [] }
{
    if n < 128 { 255 } else { 0 }
}

// Writes a pitch as row i.
pub fn put_pitch(store: &mut [u8], at: usize, i: usize, p: Sounded)
    requires { at + pitch_row_width * i + pitch_row_width ≤ length store.old }
    ensures { store.new ≡ splice store.old (at + pitch_row_width * i) (pitch_row p) }
{
    let place = at + PITCH_ROW * i;
    let cents = signed(p.cents);
    store::put_4(
        store,
        place,
        p.step,
        signed(p.octave),
        signed(p.alter),
        cents,
    );
    store::put_u8(store, place + CENTS_SIGN, sign(p.cents));
}

// READ BY THE WRITERS, by the place of a row

// What the note record has of a row before its beam, but for flag 32, and the beam.
#[derive(Clone, Copy)]
pub struct NoteStart {
    pub kind: u8,
    pub value: u8,
    pub dots: u8,
    pub flags: u8,
    pub beam: u8,
}

// Kind, value, dots, flags and beam of the note.
pub fn note_start(store: &[u8], place: usize) -> NoteStart
    requires { place + note_row_width ≤ length store.now }
    ensures { result ≡ start_at store.now place }
{
    NoteStart {
        kind: store[place],
        value: store[place + VALUE],
        dots: store[place + DOTS],
        flags: store[place + FLAGS],
        beam: store[place + BEAM],
    }
}

// Copies the rest of the note record: beam, tuplet, boundary, and how many pitches.
pub fn copy_note_rest(store: &[u8], place: usize, to: &mut [u8])
    requires { (place + note_row_width ≤ length store.now) × (note_width ≤ length to.old) }
    ensures { to.new ≡ splice to.old beam_at (rest_at store.now place) }
{
    store::copy(store, place + BEAM, to, BEAM, VOICE - BEAM);
}

// Whether the note is a rest, of whatever kind.
pub fn is_rest(store: &[u8], place: usize) -> bool
    requires { place + note_row_width ≤ length store.now }
    ensures { result ≡ not (sounds_at store.now place) }
{
    store[place] != 0
}

// Whether the note is of this voice.
pub fn is_of_voice(store: &[u8], place: usize, voice: u8) -> bool
    requires { place + note_row_width ≤ length store.now }
    ensures { result ≡ of_voice_at store.now voice place }
{
    store[place + VOICE] == voice
}

// Whether the note is of voice 0 and no rest.
pub fn is_sung(store: &[u8], place: usize) -> bool
    requires { place + note_row_width ≤ length store.now }
    ensures { result ≡ sung_row store.now place }
{
    if !is_of_voice(store, place, 0) {
        return false;
    }
    !is_rest(store, place)
}

// Whether the note is a grace note.
pub fn is_grace(store: &[u8], place: usize) -> bool
    requires { place + note_row_width ≤ length store.now }
    ensures { result ≡ grace_at store.now place }
{
    GRACE <= store[place + FLAGS] % 32
}

// How many pitches the note has.
pub fn pitch_count(store: &[u8], place: usize) -> usize
    requires { place + note_row_width ≤ length store.now }
    ensures { (result ≡ pitch_count store.now place) × (result < 2 ^ 32) }
{
    store::get_u32(store, place + PITCH_COUNT) as usize
}
