// Chords: the pitches, read again from the line, are pushed one by one; the chord's row is deferred (part_sounds::Deferred).
#![tactic(auto)]

ghost use Rattle.std.specs.Prelude.{length};
ghost use Rattle.part_invariant.specs.Invariant.{Room, RepresentedInLine};
ghost use Rattle.capacity.specs.Covers.{signs_in};
ghost use Rattle.part_sounds.specs.Sounds.{OnceAppended};
ghost use Rattle.part_chords.specs.Chords.{chord_in, ChordAt, SimulatesPitches, SimulatesChord};

use part_registers::{Registers, Tables};
use part_sounds::Deferred;
use token_lengths::Length;
use token_pitches::Met;

// The pitches of the chord whose `[` stands before `place`, each resolved after the ones before it, go to the end of the pitches.
fn push_pitches(
    line: &[u8],
    store: &mut [u8],
    t: Tables,
    r: Registers,
    place: usize,
    count: usize,
) -> Registers
    requires { Room t r.counts (length store.old) 0 0 (length (chord_in line.now place)) (signs_in (chord_in line.now place)) × RepresentedInLine t store.old r × ChordAt line.now place count }
    ensures { SimulatesPitches t store.old r store.new result (chord_in line.now place) }
{
    let mut x = r;
    let mut i = place;
    for n in 0..count {
        let Met::Pitch { pitch, next } = token_pitches::next_chord_pitch(line, i) else {
            return x;
        };
        x = part_sounds::push_pitch(store, t, x, pitch);
        i = next;
    }
    x
}

// A chord of `count` pitches, whose `[` stands before `place`.
pub fn append_abc_chord_note(
    line: &[u8],
    store: &mut [u8],
    t: Tables,
    r: Registers,
    place: usize,
    count: usize,
    written: Length,
    tie: bool,
    slur: bool,
) -> Deferred
    requires { Room t r.counts (length store.old) 0 1 (length (chord_in line.now place)) (signs_in (chord_in line.now place)) × RepresentedInLine t store.old r × ChordAt line.now place count }
    ensures { OnceAppended t store.new result (λ s x. SimulatesChord t store.old r s x (chord_in line.now place) written tie slur) }
{
    let x = push_pitches(line, store, t, r, place, count);
    part_sounds::append_sound(x, written, tie, slur, count as u32)
}
