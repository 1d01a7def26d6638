// The accidentals of a measure in scratch: an index of steps and octaves, a row for each of those that had one, with a slot for each overlay voice; and the pitches that they and the key give.
#![tactic(auto)]

ghost use Rattle.std.specs.Prelude.{◌≡◌, cond, ◌+◌, ◌*◌, ◌^◌, ◌≤◌, ◌<◌, length, set};
ghost use Rattle.std.proofs.Math.Option.{none};
ghost use Rattle.laws.specs.Bytes.{splice};
ghost use Rattle.standard.specs.Keys.{Key, key_alter};
ghost use Rattle.reader.specs.Pitches.{or_key};
ghost use Rattle.part_rows.specs.Encoded.{pitch_for, scope_slot, scope_row_width, scope_index_width};
ghost use Rattle.part_scopes.specs.Scopes.{entry_at, row_at, slot_at, place_in, recalled, is_given, with_row};
ghost use Rattle.part_accidentals.specs.Resolving.{ResolvedAs, signs, entered, store_with, row_with};

use part_rows::Sounded;
use token_pitches::{Accidental, Pitch, Sign};

// The bytes of an entry of the index, and the entries of a step.
const ENTRY: usize = 4;

const OCTAVES: usize = 256;

// Where the octave and the slots stand in a row, behind its step, and the bytes of a slot.
const OCTAVE: usize = 1;

const SLOTS: usize = 4;

const SLOT: usize = 3;

// Where the accidental stands in a slot, behind the byte that says whether there is one.
const ALTER: usize = 1;

const CENTS: usize = 2;

// What is kept of a voice: its key, fifths with 128 added, and for each overlay voice the place of the row in scratch with its last accidental, counted from 1; 0 for
// none, as an entry of the index has it, so that four places take four words.
#[derive(Clone, Copy)]
pub struct AbcPartParseState {
    pub fifths: u8,
    pub minor: bool,
    pub scopes: [u32; 4],
}

// A pitch as sounded, and what is kept after it: the state, and how many rows there are.
#[derive(Clone, Copy)]
pub struct Resolved {
    pub sounded: Sounded,
    pub state: AbcPartParseState,
    pub count: u32,
}

// The place of a row, counted from 1, and how many rows there are.
#[derive(Clone, Copy)]
struct Row {
    place: u32,
    count: u32,
}

// What a key does to a step: sharps come in the order F C G D A E B, flats from B back. 128 is added. No test branches, since steps are hard to foretell.
pub fn abc_key_alter(fifths: u8, step: u8) -> u8
    requires { step < 7 }
    ensures { (k : Key) → k.fifths ≡ fifths → result ≡ key_alter k step }
{
    let place = (2 * step + 1) % 7;
    let sharp = u8::from(place + 128 < fifths);
    let flat = u8::from(fifths <= place + 121);
    128 + sharp - flat
}

// Where the entry of a step and octave stands in the index.
fn entry_at(at: usize, step: u8, octave: u8) -> usize
    requires { (step < 7) × (at + scope_index_width < 2 ^ 64) }
    ensures { result ≡ entry_at at step octave }
{
    let i = step as usize;
    let j = octave as usize;
    at + ENTRY * (OCTAVES * i + j)
}

// Where the row of a place stands.
fn row_at(at: usize, place: u32) -> usize
    requires { (0 < place) × (at + scope_index_width + scope_row_width * place < 2 ^ 64) }
    ensures { result ≡ row_at at place }
{
    let i = (place - 1) as usize;
    at + part_rows::SCOPE_INDEX + part_rows::SCOPE_ROW * i
}

// Where a voice's slot stands in it.
fn slot_at(at: usize, place: u32, voice: usize) -> usize
    requires { (0 < place) × (voice < 4) × (at + scope_index_width + scope_row_width * place < 2 ^ 64) }
    ensures { result ≡ slot_at at place voice }
{
    row_at(at, place) + SLOTS + SLOT * voice
}

// The place of the row of a step and octave; 0 if there is none, as in the index. What the index has is believed only if the row that it names bears it out.
fn find_row(store: &[u8], at: usize, count: u32, step: u8, octave: u8) -> u32
    requires { (step < 7) × (at + scope_index_width + scope_row_width * count ≤ length store.now) }
    ensures { result ≡ place_in store.now at count step octave }
{
    if count == 0 {
        return 0;
    }
    let place = store::get_u32(store, entry_at(at, step, octave));
    if place == 0 {
        return 0;
    }
    if count < place {
        return 0;
    }
    let row = row_at(at, place);
    if store[row] != step {
        return 0;
    }
    if store[row + OCTAVE] != octave {
        return 0;
    }
    place
}

// Writes a row more, with no accidental, and its entry.
fn put_row(store: &mut [u8], at: usize, count: u32, step: u8, octave: u8)
    requires { (step < 7) × (count + 1 < 2 ^ 32) × (at + scope_index_width + scope_row_width * (count + 1) ≤ length store.old) }
    ensures { store.new ≡ with_row store.old at count step octave }
{
    let place = count + 1;
    let row = row_at(at, place);
    store::put_4(store, row, step, octave, 0, 0);
    store::put_4(store, row + 4, 0, 0, 0, 0);
    store::put_4(store, row + 8, 0, 0, 0, 0);
    store::put_4(store, row + 12, 0, 0, 0, 0);
    store::put_u32(store, entry_at(at, step, octave), place);
}

// The row of a step and octave, a new one if there is none; and how many rows there are then.
fn row_for(store: &mut [u8], at: usize, count: u32, step: u8, octave: u8) -> Row
    requires { (step < 7) × (count + 1 < 2 ^ 32) × (at + scope_index_width + scope_row_width * (count + 1) ≤ length store.old) }
    ensures { (store.new ≡ store_with store.old at count step octave) × (result ≡ row_with store.old at count step octave) }
{
    let found = find_row(store, at, count, step, octave);
    if found != 0 {
        return Row {
            place: found,
            count,
        };
    }
    put_row(store, at, count, step, octave);
    let next = count + 1;
    Row {
        place: next,
        count: next,
    }
}

// Another accidental for a voice in the row of a place.
fn revise(store: &mut [u8], at: usize, place: u32, voice: usize, accidental: Accidental)
    requires { (0 < place) × (voice < 4) × (at + scope_index_width + scope_row_width * place ≤ length store.old) }
    ensures { store.new ≡ splice store.old (slot_at at place voice) (scope_slot accidental.alter accidental.cents) }
{
    let slot = slot_at(at, place, voice);
    store::put_u8(store, slot, 1);
    store::put_u8(store, slot + ALTER, accidental.alter);
    store::put_u8(store, slot + CENTS, accidental.cents);
}

// Whether the row of a place has an accidental for a voice.
fn is_given(store: &[u8], at: usize, place: u32, voice: usize) -> bool
    requires { (voice < 4) × (at + scope_index_width + scope_row_width * place ≤ length store.now) }
    ensures { result ≡ is_given store.now at place voice }
{
    if place == 0 {
        return false;
    }
    let slot = slot_at(at, place, voice);
    store[slot] == 1
}

// A pitch without an accidental of its own: by the one in force for its step and octave, else by the key.
fn unmarked(
    store: &[u8],
    at: usize,
    count: u32,
    fifths: u8,
    voice: usize,
    step: u8,
    octave: u8,
) -> Sounded
    requires { (voice < 4) × (step < 7) × (at + scope_index_width + scope_row_width * count ≤ length store.now) }
    ensures { (k : Key) → k.fifths ≡ fifths → result ≡ pitch_for (or_key k (record { step = step; octave = octave; sign = none }) (recalled store.now at count voice step octave)) }
{
    let place = find_row(store, at, count, step, octave);
    if is_given(store, at, place, voice) {
        let slot = slot_at(at, place, voice);
        return Sounded {
            step,
            octave,
            alter: store[slot + ALTER],
            cents: store[slot + CENTS],
        };
    }
    Sounded {
        step,
        octave,
        alter: abc_key_alter(fifths, step),
        cents: 128,
    }
}

fn pick(yes: bool, a: u32, b: u32) -> u32
    ensures { result ≡ cond yes a b }
{
    if yes { a } else { b }
}

// Four places with another one for a voice, most often the first. Each is written at an index that the compiler knows, so that they need not stand in memory.
pub fn with_place(places: [u32; 4], voice: usize, place: u32) -> [u32; 4]
    requires { voice < 4 }
    ensures { result ≡ set places voice place }
{
    let mut p = places;
    if voice == 0 {
        p[0] = place;
        return p;
    }
    p[1] = pick(voice == 1, place, p[1]);
    p[2] = pick(voice == 2, place, p[2]);
    p[3] = pick(voice == 3, place, p[3]);
    p
}

// The scope of an overlay voice begins at another place.
fn enter(state: AbcPartParseState, voice: usize, place: u32) -> AbcPartParseState
    requires { voice < 4 }
    ensures { result ≡ entered state voice place }
{
    let before = state.scopes;
    let scopes = with_place(before, voice, place);
    AbcPartParseState {
        fifths: state.fifths,
        minor: state.minor,
        scopes,
    }
}

// A pitch by its own accidental, which is remembered; else by the one remembered for its step and octave; else by the key.
pub fn resolve_abc_pitch(
    store: &mut [u8],
    at: usize,
    count: u32,
    state: AbcPartParseState,
    voice: usize,
    pitch: Pitch,
) -> Resolved
    requires { (voice < 4) × (pitch.step < 7) × (at + scope_index_width + scope_row_width * (count + signs pitch.sign) ≤ length store.old) × (count + signs pitch.sign < 2 ^ 32) }
    ensures { ResolvedAs store.old at count state voice pitch store.new result }
{
    match pitch.sign {
        Sign::Written { alter, cents } => {
            let accidental = Accidental { alter, cents };
            let row = row_for(store, at, count, pitch.step, pitch.octave);
            revise(store, at, row.place, voice, accidental);
            Resolved {
                sounded: Sounded {
                    step: pitch.step,
                    octave: pitch.octave,
                    alter: accidental.alter,
                    cents: accidental.cents,
                },
                state: enter(state, voice, row.place),
                count: row.count,
            }
        }
        Sign::Nothing => Resolved {
            sounded: unmarked(
                store,
                at,
                count,
                state.fifths,
                voice,
                pitch.step,
                pitch.octave,
            ),
            state,
            count,
        },
    }
}
