// Barlines, endings and inline M fields: the open measure's row, and what a barline ends.
#![tactic(auto)]

ghost use Rattle.std.specs.Prelude.{◌≡◌, List, ℕ, ◌+◌, ◌*◌, ◌^◌, ◌≤◌, ◌<◌, length, get_or};
ghost use Rattle.standard.specs.Bars as standard;
ghost use Rattle.reader.specs.Records.{pass_bits, measure_width};
ghost use Rattle.reader.specs.Barlines.{left_of};
ghost use Rattle.reader.specs.Token as token;
ghost use Rattle.part_layout.specs.Log.{on_barline, on_token};
ghost use Rattle.token_symbols.specs.Bars.{barline_for};
ghost use Rattle.part_invariant.specs.Invariant.{Room, RepresentedInLine, Simulates};
ghost use Rattle.part_measures.specs.Heads.{left_at};
ghost use Rattle.part_bars.specs.Bars.{code_of, left_store, cleared, ended, opened};

use part_accidentals::AbcPartParseState;
use part_measures::Volta;
use part_registers::{Line, Registers, Tables};
use token_symbols::{Bar, Barline};

// A barline on a measure without notes sets its left one, and that only to a repeat start, both or double.
fn set_empty_left(store: &mut [u8], at: usize, i: usize, b: Barline)
    requires { at + measure_width * i + measure_width ≤ length store.old }
    ensures { store.new ≡ left_store store.old (at + measure_width * i + left_at) b }
{
    match b {
        Barline::Normal | Barline::RepeatEnd | Barline::Final => {}
        Barline::RepeatStart | Barline::RepeatBoth | Barline::Double => {
            part_measures::set_left(store, at, i, u8::from(b));
        }
    }
}

// No accidental is remembered.
fn forget(k: AbcPartParseState) -> AbcPartParseState
    ensures { result ≡ cleared k }
{
    AbcPartParseState {
        fifths: k.fifths,
        minor: k.minor,
        scopes: [0; 4],
    }
}

fn first_voice(l: Line) -> Line
    ensures { result ≡ record { unit = l.unit; top = l.top; bottom = l.bottom; overlay = 0; run = 0 } }
{
    Line {
        unit: l.unit,
        top: l.top,
        bottom: l.bottom,
        overlay: 0,
        run: 0,
    }
}

// After a barline: voice 0 again, no run, no accidental remembered.
fn end_measure(r: Registers) -> Registers
    ensures { result ≡ ended r }
{
    let mut x = r;
    let heads = r.counts.heads;
    x.counts = part_registers::with_heads(r.counts, heads, 0);
    x.key = forget(r.key);
    x.line = first_voice(r.line);
    x
}

// The same, and a new measure, in which no voice has a note.
fn open_measure(r: Registers) -> Registers
    requires { r.counts.heads + 1 < 2 ^ 32 }
    ensures { result ≡ opened r }
{
    let heads = r.counts.heads + 1;
    let mut x = end_measure(r);
    x.counts = part_registers::with_heads(r.counts, heads, 0);
    x.last = [0; 4];
    x
}

// A barline.
pub fn on_barline(store: &mut [u8], t: Tables, r: Registers, bar: Bar, opens: bool) -> Registers
    requires { Room t r.counts (length store.old) 1 0 0 0 × RepresentedInLine t store.old r }
    ensures { (b : standard.Barline) → bar.right ≡ barline_for b → bar.left ≡ barline_for (left_of b) → Simulates t store.old r store.new result 1 0 0 0 (on_barline b opens) }
{
    let line = r.line;
    let i = (r.counts.heads - 1) as usize;
    if part_measures::is_empty(store, t.heads, i) {
        set_empty_left(store, t.heads, i, bar.right);
        return end_measure(r);
    }
    part_measures::set_right(store, t.heads, i, u8::from(bar.right));
    if opens {
        let left = u8::from(bar.left);
        part_measures::put_measure(store, t.heads, i + 1, left, line.top, line.bottom);
        return open_measure(r);
    }
    end_measure(r)
}

// An ending that begins at the open measure.
pub fn on_volta(store: &mut [u8], t: Tables, r: Registers, first: u8, passes: u32)
    requires { Room t r.counts (length store.old) 0 0 0 0 × RepresentedInLine t store.old r }
    ensures { (ps : List ℕ) → first ≡ get_or ps 0 0 → passes ≡ pass_bits ps → Simulates t store.old r store.new r 0 0 0 0 (λ l. on_token l (token.volta ps)) }
{
    let i = (r.counts.heads - 1) as usize;
    let code = u8::from(Volta::Begins);
    part_measures::set_volta(store, t.heads, i, code, first, passes);
}

// An inline M field.
pub fn on_meter(store: &mut [u8], t: Tables, r: Registers, top: u8, bottom: u8) -> Registers
    requires { Room t r.counts (length store.old) 0 0 0 0 × RepresentedInLine t store.old r }
    ensures { Simulates t store.old r store.new result 0 0 0 0 (λ l. on_token l (token.meter (top, bottom))) }
{
    let i = (r.counts.heads - 1) as usize;
    part_measures::set_meter(store, t.heads, i, top, bottom);
    let mut line = r.line;
    line.top = top;
    line.bottom = bottom;
    let mut x = r;
    x.line = line;
    x
}
