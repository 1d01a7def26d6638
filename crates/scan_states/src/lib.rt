// What the scan knows between two lines, and the lines that change only that: refusals, one line more, one item more, lyrics, X lines.
#![tactic(auto)]

ghost use Rattle.std.specs.Prelude.{◌≡◌, false, List, [], ◌∷◌, ◌++◌, ℕ, ◌+◌, ◌*◌, ◌^◌, ◌≤◌, ◌<◌, length, drop, Ok, Err};
ghost use Rattle.laws.specs.Bytes.{between};
ghost use Rattle.reader.specs.Lines.{lyric, tune};
ghost use Rattle.reader.specs.Scan.{begin, act};
ghost use Rattle.reader.specs.Steps.{on};
ghost use Rattle.scan_table.specs.Rows.{item_row_width, row_from, voices_in, item_in, items_in};
ghost use Rattle.scan_states.specs.States.{state_with, state_in, out_in, refused_in, next_state, added_state, Ready, Stepped};

use field_keys::Key;
use refusals::{Refusal, Refused};
use scan_table::{Kind, Row};

// `key` is the header's; L is `unit`, M `top` and `bottom`; `part` is the part being read; so many notes, lines, parts with a place for verses, voices and items;
// `opened`: the first part has had a music line.
#[derive(Clone, Copy)]
pub struct State {
    pub in_header: bool,
    pub key: Key,
    pub unit: u32,
    pub top: u8,
    pub bottom: u8,
    pub part: u8,
    pub notes: u32,
    pub lines: u32,
    pub places: u8,
    pub opened: bool,
    pub voices: usize,
    pub items: usize,
}

// C major, 4/4, unit 1/8.
pub fn begin_state() -> State
    ensures { (state_with [] result ≡ begin) × (result.voices ≡ 0) × (result.items ≡ 0) }
{
    State {
        in_header: true,
        key: Key {
            fifths: 128,
            minor: false,
        },
        unit: 8,
        top: 4,
        bottom: 4,
        part: 0,
        notes: 0,
        lines: 0,
        places: 0,
        opened: false,
        voices: 0,
        items: 0,
    }
}

// The line that is being read is refused.
pub fn refuse(st: State, refusal: Refusal) -> Result<State, Refused>
    requires { st.lines ≤ 10000 }
    ensures { result ≡ Err (refused_in st refusal) }
{
    Err(Refused {
        refusal,
        line: st.lines + 1,
    })
}

// One line more.
pub fn next_line(st: State) -> State
    requires { st.lines ≤ 10000 }
    ensures { result ≡ next_state st }
{
    State {
        lines: st.lines + 1,
        ..st
    }
}

// One item more, and one line.
pub fn add_item(scratch: &mut [u8], st: State, row: Row) -> State
    requires room { (row_from st.items + item_row_width ≤ length scratch.old) × (st.lines ≤ 10000) × (st.voices ≤ 32) }
    requires place { (row.at < 2 ^ 32) × (row.end < 2 ^ 32) }
    ensures state { result ≡ added_state st }
    ensures items { (text : List ℕ) → out_in text scratch.new (Ok result) ≡ on (state_in text scratch.old (next_state st)) (items_in text scratch.old st.items ++ (item_in text row ∷ [])) }
{
    let n = st.items;
    scan_table::put_item(scratch, n, row);
    State {
        items: n + 1,
        ..next_line(st)
    }
}

// A lyric line, from `from` up to `end`: its words stand behind `w:`.
pub fn lyric_line(scratch: &mut [u8], st: State, from: usize, end: usize) -> State
    requires ready { Ready (length scratch.old) st }
    requires place { (from + 2 < 2 ^ 32) × (end < 2 ^ 32) }
    ensures { (text : List ℕ) → Stepped text scratch.old st (act (state_in text scratch.old st) (lyric (drop 2 (between text from end))) st.in_header) scratch.new (Ok result) }
{
    if st.in_header {
        return next_line(st);
    }
    let row = Row {
        a: u8::from(st.part < st.places),
        at: from + 2,
        end,
        ..Row::of(Kind::LyricLine, st.part)
    };
    add_item(scratch, st, row)
}

// An X line: the first part is current again; refused behind the header.
pub fn tune_line(st: State) -> Result<State, Refused>
    requires { (st.lines ≤ 10000) × (st.voices ≤ 32) }
    ensures { (text s : List ℕ) → Stepped text s st (act (state_in text s st) tune st.in_header) s result }
{
    if st.in_header {
        return Ok(State {
            part: 0,
            ..next_line(st)
        });
    }
    refuse(st, Refusal::SecondTune)
}
