// The voice's last note, changed behind it: broken rhythm, and the beam step taken once more after an empty chord or an accidental without a note.
#![tactic(auto)]

ghost use Rattle.std.specs.Prelude.{◌≡◌, ℕ, ◌+◌, ◌*◌, ◌≤◌, ◌<◌, length, Some};
ghost use Rattle.reader.specs.Token as token;
ghost use Rattle.part_layout.specs.Log.{on_token};
ghost use Rattle.part_invariant.specs.Invariant.{Room, RepresentedInLine, Simulates};
ghost use Rattle.part_rows.specs.Encoded.{note_row_width};
ghost use Rattle.part_rhythm.specs.Rhythm.{broken_store, broken_in, half_after, again_store, again_in, again_run, again_at, run_at, row_of, half_waits, runs};

use part_registers::{Half, Registers, Tables};
use part_rows::Beam;

// The row of the last note of the voice being written, if it has one.
fn last_row(r: Registers) -> Option<usize>
    requires { r.line.overlay < 4 }
    ensures { result ≡ row_of r }
{
    let places = r.last;
    let voice = r.line.overlay as usize;
    let place = places[voice];
    if place == 0 {
        return None;
    }
    Some((place - 1) as usize)
}

// BROKEN RHYTHM

// The note in row i, with dots more or halved.
fn break_note(store: &mut [u8], at: usize, i: usize, half: Half)
    requires { at + note_row_width * i + note_row_width ≤ length store.old }
    ensures { store.new ≡ broken_store store.old (at + note_row_width * i) half.up half.times }
{
    let w = part_rows::get_written(store, at, i);
    let length = part_registers::broken_length(w.value, w.dots, half);
    let value = token_lengths::value_of(length);
    let dots = token_lengths::dots_of(length);
    part_rows::set_note_value(store, at, i, value, dots);
}

// The note in that row, if there is one.
#[tactic(auto, unfolding(crate::specs::Rhythm::broken_in))]
fn break_row(store: &mut [u8], at: usize, row: Option<usize>, half: Half)
    requires { (i : ℕ) → row ≡ Some i → at + note_row_width * i + note_row_width ≤ length store.old }
    ensures { store.new ≡ broken_in store.old at row half.up half.times }
{
    if let Some(i) = row {
        break_note(store, at, i, half);
    }
}

// Where a note is broken its other half waits for the next one.
#[tactic(auto, unfolding(crate::specs::Rhythm::half_after))]
fn half_after(before: Option<Half>, row: Option<usize>, half: Half) -> Option<Half>
    ensures { result ≡ half_after before row half }
{
    match row {
        None => before,
        Some(_) => Some(half),
    }
}

// The registers have one way on here, whether a note is broken or not: with two the compiler copies more of them for every token (a fifth of the instructions on notes).
fn wait_for(r: Registers, row: Option<usize>, half: Half) -> Registers
    ensures { result ≡ half_waits r (half_after r.half row half) }
{
    let after = half_after(r.half, row, half);
    let mut x = r;
    x.half = after;
    x
}

// `times` signs `>` (up) or `<`: the voice's last note, and the other half for the next one. Nothing, where there is no last note.
pub fn on_broken(store: &mut [u8], t: Tables, r: Registers, up: bool, times: u8) -> Registers
    requires { Room t r.counts (length store.old) 0 0 0 0 × RepresentedInLine t store.old r }
    ensures { Simulates t store.old r store.new result 0 0 0 0 (λ l. on_token l (token.broken up times)) }
{
    let row = last_row(r);
    break_row(store, t.notes, row, Half { up, times });
    wait_for(r, row, Half { up: !up, times })
}

// THE BEAM STEP ONCE MORE

// A note of this kind and value in row i ends the beam where one runs; it has none where it can't have one.
fn beam_again(store: &mut [u8], at: usize, i: usize, run: u8, kind: u8, value: u8)
    requires { at + note_row_width * i + note_row_width ≤ length store.old }
    ensures { store.new ≡ again_store store.old (at + note_row_width * i) run kind value }
{
    if part_registers::abc_note_is_beamable(kind, value) {
        if run == 0 {
            return;
        }
        part_rows::set_note_beam(store, at, i, u8::from(Beam::Ends));
        return;
    }
    part_rows::set_note_beam(store, at, i, u8::from(Beam::Unbeamed));
}

fn run_on(r: Registers, run: u8) -> Registers
    ensures { result ≡ runs r run }
{
    let mut x = r;
    x.line = part_registers::with_run(r.line, run);
    x
}

// The beam step on the note in row i, and the run after it.
fn run_again(store: &mut [u8], at: usize, i: usize, run: u8) -> u8
    requires { at + note_row_width * i + note_row_width ≤ length store.old }
    ensures value { result ≡ again_run store.old (at + note_row_width * i) run }
    ensures store_after { store.new ≡ again_in store.old (at + note_row_width * i) run }
{
    let w = part_rows::get_written(store, at, i);
    beam_again(store, at, i, run, w.kind, w.value);
    part_registers::update_abc_beam_run(run, w.kind, w.value)
}

// The beam step on the note in that row, and the run after it; none where there is no row.
#[tactic(auto, unfolding(crate::specs::Rhythm::again_at, crate::specs::Rhythm::run_at))]
fn run_after(store: &mut [u8], at: usize, row: Option<usize>, run: u8) -> u8
    requires { (i : ℕ) → row ≡ Some i → at + note_row_width * i + note_row_width ≤ length store.old }
    ensures value { result ≡ run_at store.old at row run }
    ensures store_after { store.new ≡ again_at store.old at row run }
{
    match row {
        None => 0,
        Some(i) => run_again(store, at, i, run),
    }
}

// An empty chord, or an accidental without a note: the beam step on the voice's last note. Where there is none, no beam runs.
pub fn on_nothing(store: &mut [u8], t: Tables, r: Registers) -> Registers
    requires { Room t r.counts (length store.old) 0 0 0 0 × RepresentedInLine t store.old r }
    ensures { Simulates t store.old r store.new result 0 0 0 0 (λ l. on_token l token.nothing) }
{
    let row = last_row(r);
    let run = run_after(store, t.notes, row, r.line.run);
    run_on(r, run)
}
