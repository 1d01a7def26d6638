// The measures of a part in scratch, a row each: the measure record, before its notes. A table is where it begins, a row its index, in the one slice that is lent for
// all tables (as in part_rows). What a row's bytes mean is known here alone.
#![tactic(auto)]

ghost use Rattle.std.specs.Prelude.{◌≡◌, not, eqb, [], ◌∷◌, ◌++◌, suc, ◌+◌, ◌*◌, ◌^◌, ◌≤◌, ◌<◌, length, get_or};
ghost use Rattle.laws.specs.Bytes.{splice, le32, u32_at};
ghost use Rattle.reader.specs.Codes.{mode_code};
ghost use Rattle.reader.specs.Records.{measure_width, signed8};
ghost use Rattle.part_measures.specs.Voltas.{number_of};
ghost use Rattle.part_measures.specs.Heads.{new_row, no_notes, note_count, left_at, right_at, meter_at, key_mark_at, volta_at, first_pass_at, passes_at};

use field_keys::Key;

// The bytes of a row: those of the measure record.
pub const MEASURE: usize = reading_records::MEASURE;

// Where the fields of a row stand, as in the measure record: four counts of four bytes first.
const LEFT: usize = 16;

const RIGHT: usize = 17;

const METER: usize = 18;

const KEY_MARK: usize = 20;

const VOLTA: usize = 22;

const FIRST_PASS: usize = 23;

const PASSES: usize = 24;

// What a measure has of an ending: it begins there, ends there, or both. The number of a measure with none is 0.
#[derive(Clone, Copy, Debug, PartialEq, Eq)]
pub enum Volta {
    Begins,
    Ends,
    Alone,
}

impl From<Volta> for u8 {
    ghost from_gives = { λ volta number. number ≡ number_of volta };

    fn from(volta: Volta) -> u8 {
        match volta {
            Volta::Begins => 1,
            Volta::Ends => 2,
            Volta::Alone => 3,
        }
    }
}

// Four counts of 0.
fn put_no_counts(store: &mut [u8], place: usize)
    requires { place + left_at ≤ length store.old }
    ensures { store.new ≡ splice store.old place ((0 ∷ 0 ∷ 0 ∷ 0 ∷ []) ++ ((0 ∷ 0 ∷ 0 ∷ 0 ∷ []) ++ ((0 ∷ 0 ∷ 0 ∷ 0 ∷ []) ++ (0 ∷ 0 ∷ 0 ∷ 0 ∷ [])))) }
{
    store::put_4(store, place, 0, 0, 0, 0);
    store::put_4(store, place + 4, 0, 0, 0, 0);
    store::put_4(store, place + 8, 0, 0, 0, 0);
    store::put_4(store, place + 12, 0, 0, 0, 0);
}

// Writes a new measure as row i: no notes, its left barline by number, its meter.
pub fn put_measure(store: &mut [u8], at: usize, i: usize, left: u8, top: u8, bottom: u8)
    requires { at + measure_width * i + measure_width ≤ length store.old }
    ensures { store.new ≡ splice store.old (at + measure_width * i) (new_row left top bottom) }
{
    let place = at + MEASURE * i;
    put_no_counts(store, place);
    store::put_4(store, place + LEFT, left, 0, top, bottom);
    store::put_4(store, place + KEY_MARK, 0, 0, 0, 0);
    store::put_4(store, place + PASSES, 0, 0, 0, 0);
}

// One note more in a voice of row i.
pub fn count_note(store: &mut [u8], at: usize, i: usize, voice: usize)
    requires { (at + measure_width * i + measure_width ≤ length store.old) × (voice < 4) × (u32_at store.old (at + measure_width * i + 4 * voice) + 1 < 2 ^ 32) }
    ensures { store.new ≡ splice store.old (at + measure_width * i + 4 * voice) (le32 (suc (u32_at store.old (at + measure_width * i + 4 * voice)))) }
{
    let place = at + MEASURE * i + 4 * voice;
    let n = store::get_u32(store, place);
    store::put_u32(store, place, n + 1);
}

// Whether row i counts no note.
#[tactic(auto, unfolding(crate::specs::Heads::no_notes))]
pub fn is_empty(store: &[u8], at: usize, i: usize) -> bool
    requires { at + measure_width * i + measure_width ≤ length store.now }
    ensures { result ≡ no_notes store.now (at + measure_width * i) }
{
    let place = at + MEASURE * i;
    store::get_u32(store, place) == 0
        && store::get_u32(store, place + 4) == 0
        && store::get_u32(store, place + 8) == 0
        && store::get_u32(store, place + 12) == 0
}

// Another left barline, by number, in row i.
pub fn set_left(store: &mut [u8], at: usize, i: usize, code: u8)
    requires { at + measure_width * i + measure_width ≤ length store.old }
    ensures { store.new ≡ splice store.old (at + measure_width * i + left_at) (code ∷ []) }
{
    store::put_u8(store, at + MEASURE * i + LEFT, code);
}

// Another right barline, by number, in row i.
pub fn set_right(store: &mut [u8], at: usize, i: usize, code: u8)
    requires { at + measure_width * i + measure_width ≤ length store.old }
    ensures { store.new ≡ splice store.old (at + measure_width * i + right_at) (code ∷ []) }
{
    store::put_u8(store, at + MEASURE * i + RIGHT, code);
}

// Another meter in row i.
pub fn set_meter(store: &mut [u8], at: usize, i: usize, top: u8, bottom: u8)
    requires { at + measure_width * i + measure_width ≤ length store.old }
    ensures { store.new ≡ splice store.old (at + measure_width * i + meter_at) (top ∷ bottom ∷ []) }
{
    let place = at + MEASURE * i + METER;
    store::put_u8(store, place, top);
    store::put_u8(store, place + 1, bottom);
}

// A mode, by number.
#[tactic(auto, unfolding(reader::specs::Codes::mode_code))]
fn mode_code(minor: bool) -> u8
    ensures { result ≡ mode_code minor }
{
    if minor { 2 } else { 1 }
}

// A key mark in row i: the mode by number, and the fifths as a signed byte.
pub fn set_key_mark(store: &mut [u8], at: usize, i: usize, key: Key)
    requires { at + measure_width * i + measure_width ≤ length store.old }
    ensures { store.new ≡ splice store.old (at + measure_width * i + key_mark_at) (mode_code key.minor ∷ signed8 key.fifths ∷ []) }
{
    let mode = mode_code(key.minor);
    let fifths = part_rows::signed(key.fifths);
    let place = at + MEASURE * i + KEY_MARK;
    store::put_u8(store, place, mode);
    store::put_u8(store, place + 1, fifths);
}

// A volta in row i: its number, its first pass, and its passes as bits.
pub fn set_volta(store: &mut [u8], at: usize, i: usize, code: u8, first: u8, passes: u32)
    requires { at + measure_width * i + measure_width ≤ length store.old }
    ensures { store.new ≡ splice store.old (at + measure_width * i + volta_at) ((code ∷ first ∷ []) ++ le32 passes) }
{
    let place = at + MEASURE * i + VOLTA;
    store::put_u8(store, place, code);
    store::put_u8(store, place + 1, first);
    store::put_u32(store, place + 2, passes);
}

// Another number for the volta in row i, with the same passes.
pub fn set_volta_code(store: &mut [u8], at: usize, i: usize, code: u8)
    requires { at + measure_width * i + measure_width ≤ length store.old }
    ensures { store.new ≡ splice store.old (at + measure_width * i + volta_at) (code ∷ []) }
{
    store::put_u8(store, at + MEASURE * i + VOLTA, code);
}

// Another volta in row i, with the same passes.
pub fn set_volta_kind(store: &mut [u8], at: usize, i: usize, volta: Volta)
    requires { at + measure_width * i + measure_width ≤ length store.old }
    ensures { store.new ≡ splice store.old (at + measure_width * i + volta_at) (number_of volta ∷ []) }
{
    set_volta_code(store, at, i, u8::from(volta));
}

// The right barline of row i, by the number that its byte has.
pub fn get_right(store: &[u8], at: usize, i: usize) -> u8
    requires { at + measure_width * i + measure_width ≤ length store.now }
    ensures { result ≡ get_or store.now (at + measure_width * i + right_at) 0 }
{
    store[at + MEASURE * i + RIGHT]
}

// The mode of row i's key mark, by number; 0 where it has none.
pub fn get_mode(store: &[u8], at: usize, i: usize) -> u8
    requires { at + measure_width * i + measure_width ≤ length store.now }
    ensures { result ≡ get_or store.now (at + measure_width * i + key_mark_at) 0 }
{
    store[at + MEASURE * i + KEY_MARK]
}

// Whether row i has a key mark.
pub fn has_key_mark(store: &[u8], at: usize, i: usize) -> bool
    requires { at + measure_width * i + measure_width ≤ length store.now }
    ensures { result ≡ not (eqb (get_or store.now (at + measure_width * i + key_mark_at) 0) 0) }
{
    get_mode(store, at, i) != 0
}

// The volta of row i, by number; 0 where it has none.
pub fn get_volta(store: &[u8], at: usize, i: usize) -> u8
    requires { at + measure_width * i + measure_width ≤ length store.now }
    ensures { result ≡ get_or store.now (at + measure_width * i + volta_at) 0 }
{
    store[at + MEASURE * i + VOLTA]
}

// Whether an ending begins at row i, and goes on.
pub fn begins_volta(store: &[u8], at: usize, i: usize) -> bool
    requires { at + measure_width * i + measure_width ≤ length store.now }
    ensures { result ≡ eqb (get_or store.now (at + measure_width * i + volta_at) 0) (number_of Volta.Begins) }
{
    get_volta(store, at, i) == u8::from(Volta::Begins)
}

// The first pass of row i's volta.
pub fn get_first_pass(store: &[u8], at: usize, i: usize) -> u8
    requires { at + measure_width * i + measure_width ≤ length store.now }
    ensures { result ≡ get_or store.now (at + measure_width * i + first_pass_at) 0 }
{
    store[at + MEASURE * i + FIRST_PASS]
}

// Its passes as bits.
pub fn get_passes(store: &[u8], at: usize, i: usize) -> u32
    requires { at + measure_width * i + measure_width ≤ length store.now }
    ensures { result ≡ u32_at store.now (at + measure_width * i + passes_at) }
{
    store::get_u32(store, at + MEASURE * i + PASSES)
}

// READ BY THE WRITERS, by the place of a row

// How many notes the row counts, in all four voices.
pub fn note_count(store: &[u8], place: usize) -> usize
    requires { place + measure_width ≤ length store.now }
    ensures { (result ≡ note_count store.now place) × (result < 2 ^ 34) }
{
    let a = store::get_u32(store, place);
    let b = store::get_u32(store, place + 4);
    let c = store::get_u32(store, place + 8);
    let d = store::get_u32(store, place + 12);
    a as usize + b as usize + c as usize + d as usize
}
