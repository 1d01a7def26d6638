// Notes and rests: pitches resolved and written; the note's row is deferred, since all tokens append theirs in one place.
#![tactic(auto)]

ghost use Rattle.std.specs.Prelude.{◌≡◌, ◌<◌, length};
ghost use Rattle.part_accidentals.specs.Resolving.{signs};
ghost use Rattle.part_invariant.specs.Invariant.{Room, RepresentedInLine};
ghost use Rattle.part_sounds.specs.Sounds.{rest_row, sound_row, pending_on, deferred_nothing, deferred_rest, deferred_sound, DeferredFits, DeferredDone, OnceAppended, Pushable, SimulatesPitch, SimulatesNote};

use part_registers::{Counts, Pending, Registers, Tables};
use part_rows::NoteRow;
use token_lengths::Length;
use token_pitches::Pitch;

// The registers after a token and, if it is a note, rest or chord, its row, which is still to be appended.
#[derive(Clone, Copy)]
pub struct Deferred {
    pub registers: Registers,
    pub row: Option<NoteRow>,
}

// The row of a rest.
fn rest_row(kind: u8, written: Length) -> NoteRow
    ensures { result ≡ rest_row kind written }
{
    NoteRow {
        kind,
        value: token_lengths::value_of(written),
        dots: token_lengths::dots_of(written),
        flags: 0,
        beam: 0,
        actual: 0,
        normal: 0,
        boundary: 0,
        pitches: 0,
    }
}

// The row of a note or chord with its flags and the number of its pitches.
fn sound_row(written: Length, flags: u8, pitches: u32) -> NoteRow
    ensures { result ≡ sound_row written flags pitches }
{
    NoteRow {
        kind: 0,
        value: token_lengths::value_of(written),
        dots: token_lengths::dots_of(written),
        flags,
        beam: 0,
        actual: 0,
        normal: 0,
        boundary: 0,
        pitches,
    }
}

// What is pending after a note: the end of its tie, and an open grace brace.
fn after_pending(p: Pending, tie: bool) -> Pending
    ensures { result ≡ pending_on p tie }
{
    Pending {
        tie,
        slur: false,
        grace: p.grace,
    }
}

// A token without a row.
pub fn defer_nothing(r: Registers) -> Deferred
    ensures { result ≡ deferred_nothing r }
{
    Deferred {
        registers: r,
        row: None,
    }
}

// A rest.
pub fn append_abc_rest_note(r: Registers, kind: u8, written: Length) -> Deferred
    ensures { result ≡ deferred_rest r kind written }
{
    Deferred {
        registers: r,
        row: Some(rest_row(kind, written)),
    }
}

// A pitch, resolved by its accidental, its scope or the key, goes to the end of the pitches.
pub fn push_pitch(store: &mut [u8], t: Tables, r: Registers, pitch: Pitch) -> Registers
    requires { Room t r.counts (length store.old) 0 0 1 (signs pitch.sign) × Pushable t store.old r × (pitch.step < 7) }
    ensures { SimulatesPitch t store.old r store.new result pitch }
{
    let line = r.line;
    let voice = line.overlay as usize;
    let p = part_accidentals::resolve_abc_pitch(
        store,
        t.scopes,
        r.counts.scopes,
        r.key,
        voice,
        pitch,
    );
    let count = r.counts.pitches as usize;
    let sounded = p.sounded;
    part_rows::put_pitch(store, t.pitches, count, sounded);
    let pitches = r.counts.pitches + 1;
    let scopes = p.count;
    let mut x = r;
    let c = r.counts;
    let counts = Counts {
        heads: c.heads,
        notes: c.notes,
        pitches,
        scopes,
    };
    x.counts = counts;
    let key = p.state;
    x.key = key;
    x
}

// A note or chord whose pitches are written.
pub fn append_sound(r: Registers, written: Length, tie: bool, slur: bool, pitches: u32) -> Deferred
    ensures { result ≡ deferred_sound r written tie slur pitches }
{
    let flags = part_registers::note_flags(r.pending, tie, slur);
    let row = sound_row(written, flags, pitches);
    let mut x = r;
    x.pending = after_pending(r.pending, tie);
    Deferred {
        registers: x,
        row: Some(row),
    }
}

// A note.
pub fn append_abc_pitched_note(
    store: &mut [u8],
    t: Tables,
    r: Registers,
    pitch: Pitch,
    written: Length,
    tie: bool,
    slur: bool,
) -> Deferred
    requires { Room t r.counts (length store.old) 0 1 1 (signs pitch.sign) × RepresentedInLine t store.old r × (pitch.step < 7) }
    ensures { OnceAppended t store.new result (λ s x. SimulatesNote t store.old r s x pitch written tie slur) }
{
    let x = push_pitch(store, t, r, pitch);
    append_sound(x, written, tie, slur, 1)
}

// The deferred row, if there is one, goes to the end of its voice. One call for all tokens, so that the registers need not go through memory.
pub fn append_deferred(store: &mut [u8], t: Tables, d: Deferred) -> Registers
    requires { DeferredFits t store.old d }
    ensures { DeferredDone t store.old d store.new result }
{
    let r = d.registers;
    match d.row {
        None => r,
        Some(row) => part_append::append(store, t, r, row),
    }
}
