// Tokens that only change registers; an inline key, which marks the open measure too; and the beginning of a music line.
#![tactic(auto)]

ghost use Rattle.std.specs.Prelude.{◌≡◌, List, [], ℕ, ◌≤◌, length};
ghost use Rattle.standard.specs.Notes.{next_voice};
ghost use Rattle.standard.specs.Tuplets.{compound, normal_in};
ghost use Rattle.reader.specs.Token as token;
ghost use Rattle.field_keys.specs.Passed.{key_as};
ghost use Rattle.part_layout.specs.Log.{on_token, line_begins};
ghost use Rattle.part_invariant.specs.Invariant.{Room, RepresentedInLine, Simulates};
ghost use Rattle.part_invariant.specs.Lines.{RoomForBytes, RepresentedBetween, SimulatesItem};
ghost use Rattle.part_steps.specs.Steps.{hearing, begun};

use field_keys::Key;
use part_accidentals::AbcPartParseState;
use part_registers::{Line, Registers, Running, Tables};
use token_symbols::{Barline, Tuplet};

// White space ends the beam's run.
pub fn on_space(r: Registers) -> Registers
    ensures { (t : Tables) (s : List ℕ) → Simulates t s r s result 0 0 0 0 (λ l. on_token l token.space) }
{
    let mut x = r;
    x.line = part_registers::with_run(r.line, 0);
    x
}

// The measure's next voice; four at most.
#[tactic(auto, unfolding(standard::specs::Notes::next_voice))]
fn next_voice(voice: u8) -> u8
    ensures { result ≡ next_voice voice }
{
    if voice < 3 { voice + 1 } else { 3 }
}

// `&`: another voice, and no run.
pub fn on_overlay(r: Registers) -> Registers
    ensures { (t : Tables) (s : List ℕ) → Simulates t s r s result 0 0 0 0 (λ l. on_token l token.overlay) }
{
    let mut line = r.line;
    line.overlay = next_voice(line.overlay);
    line.run = 0;
    let mut x = r;
    x.line = line;
    x
}

// 6/8, 9/8 and 12/8, and no other meter. Without branches: with them the compiler keeps less of the state in registers, for every token.
#[tactic(auto, unfolding(standard::specs::Tuplets::compound))]
fn is_compound(top: u8, bottom: u8) -> bool
    ensures { result ≡ compound (top, bottom) }
{
    ((top == 6) | (top == 9) | (top == 12)) & (bottom == 8)
}

// The normal number of a tuplet under a meter: one that the meter decides is 3 in a compound one, else 2.
fn normal_in(top: u8, bottom: u8, normal: u8) -> u8
    ensures { result ≡ normal_in (top, bottom) normal }
{
    if normal != token_symbols::BY_METER {
        return normal;
    }
    if is_compound(top, bottom) { 3 } else { 2 }
}

// A tuplet, all of whose notes are to come.
pub fn on_tuplet(r: Registers, tuplet: Tuplet) -> Registers
    ensures { (t : Tables) (s : List ℕ) → Simulates t s r s result 0 0 0 0 (λ l. on_token l (token.tuplet (record { actual = tuplet.actual; normal = tuplet.normal; count = tuplet.count }))) }
{
    let line = r.line;
    let running = Running::Tuplet {
        actual: tuplet.actual,
        normal: normal_in(line.top, line.bottom, tuplet.normal),
        count: tuplet.count,
        remaining: tuplet.count,
    };
    let mut x = r;
    x.tuplet = running;
    x
}

// A slur that begins at the next note.
pub fn on_slur(r: Registers) -> Registers
    ensures { (t : Tables) (s : List ℕ) → Simulates t s r s result 0 0 0 0 (λ l. on_token l token.slur) }
{
    let mut x = r;
    x.pending.slur = true;
    x
}

pub fn on_grace_open(r: Registers) -> Registers
    ensures { (t : Tables) (s : List ℕ) → Simulates t s r s result 0 0 0 0 (λ l. on_token l token.grace_open) }
{
    let mut x = r;
    x.pending.grace = true;
    x
}

pub fn on_grace_close(r: Registers) -> Registers
    ensures { (t : Tables) (s : List ℕ) → Simulates t s r s result 0 0 0 0 (λ l. on_token l token.grace_close) }
{
    let mut x = r;
    x.pending.grace = false;
    x
}

// An inline L field.
pub fn on_unit(r: Registers, unit: u32) -> Registers
    ensures { (t : Tables) (s : List ℕ) → Simulates t s r s result 0 0 0 0 (λ l. on_token l (token.unit unit)) }
{
    let mut x = r;
    x.line.unit = unit;
    x
}

// The registers with another key, in which no accidental is remembered.
pub fn hear(r: Registers, key: Key) -> Registers
    ensures { result ≡ hearing r (key_as key) }
{
    let state = AbcPartParseState {
        fifths: key.fifths,
        minor: key.minor,
        scopes: [0; 4],
    };
    let mut x = r;
    let heads = r.counts.heads;
    x.counts = part_registers::with_heads(r.counts, heads, 0);
    x.key = state;
    x
}

// An inline K field.
pub fn on_key(store: &mut [u8], t: Tables, r: Registers, key: Key) -> Registers
    requires { Room t r.counts (length store.old) 0 0 0 0 × RepresentedInLine t store.old r }
    ensures { Simulates t store.old r store.new result 0 0 0 0 (λ l. on_token l (token.key (key_as key))) }
{
    let i = (r.counts.heads - 1) as usize;
    part_measures::set_key_mark(store, t.heads, i, key);
    hear(r, key)
}

// A new line's registers, with so many measures.
fn new_line(r: Registers, heads: u32, unit: u32, top: u8, bottom: u8) -> Registers
    ensures { result ≡ begun r heads unit top bottom }
{
    let verses = r.verses;
    let line = Line {
        unit,
        top,
        bottom,
        overlay: 0,
        run: 0,
    };
    let mut x = r;
    x.counts.heads = heads;
    x.line = line;
    x.tuplet = Running::Nothing;
    x.half = None;
    x.verses.start = verses.sounded;
    x.verses.verse = 1;
    x
}

// A music line begins, with the L and M in force; a measure opens where there is none.
pub fn begin_line(
    store: &mut [u8],
    t: Tables,
    r: Registers,
    unit: u32,
    top: u8,
    bottom: u8,
) -> Registers
    requires { RoomForBytes t r.counts (length store.old) [] × RepresentedBetween t store.old r }
    ensures simulates { SimulatesItem t store.old r store.new result [] (line_begins unit (top, bottom)) }
    ensures some_measure { 1 ≤ result.counts.heads }
{
    let counts = r.counts;
    if counts.heads == 0 {
        let left = u8::from(Barline::Normal);
        part_measures::put_measure(store, t.heads, 0, left, top, bottom);
        return new_line(r, 1, unit, top, bottom);
    }
    new_line(r, counts.heads, unit, top, bottom)
}
