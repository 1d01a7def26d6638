// A note, rest or chord goes to the end of its voice: the beam step on the note before it, its row, the count of its measure, and the registers.
#![tactic(auto)]

ghost use Rattle.std.specs.Prelude.{◌≡◌, ◌+◌, ◌*◌, ◌^◌, ◌≤◌, ◌<◌, length};
ghost use Rattle.part_invariant.specs.Invariant.{Room, Appendable, Appends};
ghost use Rattle.part_invariant.specs.Appended.{before_store, sounded_on, appended};
ghost use Rattle.part_registers.specs.Notes.{halved_row, beamed_row};
ghost use Rattle.part_rows.specs.Encoded.{note_row_width};

use part_registers::{Counts, Half, Registers, Tables, Verses};
use part_rows::{Beam, NoteRow};

// A note of this kind and value, where a run goes on: the note at the place before it begins or continues the beam.
pub fn beam_before(store: &mut [u8], at: usize, place: u32, run: u8, kind: u8, value: u8)
    requires { (0 < run → 0 < place) × (at + note_row_width * place ≤ length store.old) }
    ensures { store.new ≡ before_store store.old at place run kind value }
{
    if run == 0 {
        return;
    }
    if part_registers::abc_note_is_beamable(kind, value) {
        let i = (place - 1) as usize;
        if run == 1 {
            part_rows::set_note_beam(store, at, i, u8::from(Beam::Begins));
            return;
        }
        part_rows::set_note_beam(store, at, i, u8::from(Beam::Continues));
    }
}

// The note as it is written: in its beam, and after the half that waited for it.
fn as_written(run: u8, half: Option<Half>, n: NoteRow) -> NoteRow
    ensures { result ≡ halved_row half (beamed_row run n) }
{
    part_registers::after_half(part_registers::beamed_new(run, n), half)
}

// A note of voice 0 that is no rest is counted for the lyrics.
#[tactic(auto, unfolding(part_invariant::specs::Appended::sounded_on))]
fn count_sounded(verses: Verses, overlay: u8, kind: u8) -> Verses
    requires { verses.sounded + 1 < 2 ^ 32 }
    ensures { result ≡ sounded_on verses overlay kind }
{
    let mut v = verses;
    if overlay == 0 && kind == 0 {
        v.sounded = verses.sounded + 1;
    }
    v
}

// The registers after a note of this kind and value.
fn after_note(r: Registers, kind: u8, value: u8) -> Registers
    requires { (r.line.overlay < 4) × (r.counts.notes + 1 < 2 ^ 32) × (r.verses.sounded ≤ r.counts.notes) }
    ensures { result ≡ appended r kind value }
{
    let line = r.line;
    let notes = r.counts.notes + 1;
    let voice = line.overlay as usize;
    let mut x = r;
    let c = r.counts;
    let counts = Counts {
        heads: c.heads,
        notes,
        pitches: c.pitches,
        scopes: c.scopes,
    };
    x.counts = counts;
    x.last = part_accidentals::with_place(r.last, voice, notes);
    x.line = part_registers::with_run(
        line,
        part_registers::update_abc_beam_run(line.run, kind, value),
    );
    x.tuplet = part_registers::one_fewer(r.tuplet);
    x.half = None;
    x.verses = count_sounded(r.verses, line.overlay, kind);
    x
}

// A note, rest or chord, whose pitches stand in their table already, goes to the end of its voice.
pub fn append(store: &mut [u8], t: Tables, r: Registers, n: NoteRow) -> Registers
    requires { Room t r.counts (length store.old) 0 1 0 0 × Appendable t store.old r n }
    ensures { Appends t store.old r store.new result n }
{
    let line = r.line;
    let places = r.last;
    let voice = line.overlay as usize;
    let g = part_registers::apply_abc_tuplet(n, r.tuplet);
    beam_before(store, t.notes, places[voice], line.run, g.kind, g.value);
    let m = as_written(line.run, r.half, g);
    let notes = r.counts.notes as usize;
    part_rows::put_note(store, t.notes, notes, m, line.overlay);
    let heads = r.counts.heads as usize;
    part_measures::count_note(store, t.heads, heads - 1, voice);
    after_note(r, g.kind, g.value)
}
