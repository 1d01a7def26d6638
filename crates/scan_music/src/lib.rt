// A music line as the scan sees it: its notes are counted, its refusals met, its inline L and M put into force; no note is made.
#![tactic(auto)]

ghost use Rattle.std.specs.Prelude.{◌≡◌, ◌||◌, List, [], ◌∷◌, ◌++◌, ℕ, suc, ◌+◌, ◌^◌, ◌≤◌, ◌<◌, max, eqb, length, Ok};
ghost use Rattle.laws.specs.Bytes.{between};
ghost use Rattle.reader.specs.Tokens as tokens;
ghost use Rattle.reader.specs.Tokens.{effects};
ghost use Rattle.reader.specs.Steps.{on};
ghost use Rattle.reader.specs.Scan.{music_line, act};
ghost use Rattle.tokens.specs.Tokens.{effect_as};
ghost use Rattle.text_lines.specs.declared.Class.{Class};
ghost use Rattle.text_lines.specs.Lines.{kind_as};
ghost use Rattle.scan_table.specs.Rows.{items_in};
ghost use Rattle.scan_states.specs.States.{state_in, out_in, Ready, Stepped};
ghost use Rattle.scan_music.specs.MusicLines.{by_number, counted_for, counted_on, state_after};

use editions::Edition;
use refusals::{Refusal, Refused};
use scan_states::State;
use scan_table::{Kind, Row};
use token_cursors::Cursor;
use tokens::Effect;

// The notes so far, and L and M in force.
#[derive(Clone, Copy, Debug, PartialEq, Eq)]
pub struct Count {
    pub notes: u32,
    pub unit: u32,
    pub top: u8,
    pub bottom: u8,
}

// A token more: refusal 11 at the 100,001st note. Each field of what it makes is named: `..count` moves neighbouring fields as one word, which the next token wants in pieces.
fn after_effect(count: Count, effect: Effect) -> Result<Count, Refusal>
    ensures { (es : List tokens.Effect) → counted_on (by_number result) es ≡ counted_for count (effect_as effect ∷ es) }
{
    match effect {
        Effect::Counts if count.notes < 100000 => Ok(Count {
            notes: count.notes + 1,
            unit: count.unit,
            top: count.top,
            bottom: count.bottom,
        }),
        Effect::Counts => Err(Refusal::TooManyNotes),
        Effect::Refuses(refusal) => Err(refusal),
        Effect::SetsUnit(unit) => Ok(Count {
            notes: count.notes,
            unit,
            top: count.top,
            bottom: count.bottom,
        }),
        Effect::SetsMeter { top, bottom } => Ok(Count {
            notes: count.notes,
            unit: count.unit,
            top,
            bottom,
        }),
        Effect::NoEffect => Ok(Count {
            notes: count.notes,
            unit: count.unit,
            top: count.top,
            bottom: count.bottom,
        }),
    }
}

// The tokens of a line from left to right, to the first refusal: the cursor is lent for each and moved on.
pub fn count_line(edition: Edition, line: &[u8], start: Count) -> Result<Count, Refusal>
    ensures { by_number result ≡ counted_for start (effects edition line.now) }
{
    let classes = token_symbols::letter_classes();
    let mut cursor = Cursor {
        at: 0,
        end: line.len(),
    };
    let mut count = start;
    while cursor.at < cursor.end {
        let effect = token_cursors::next_effect(edition, line, &mut cursor, &classes);
        count = after_effect(count, effect)?;
    }
    Ok(count)
}

// How many parts have a place for verses once `part` has a music line.
fn with_place(places: u8, part: u8) -> u8
    requires { part < 32 }
    ensures { result ≡ max places (suc part) }
{
    places.max(part + 1)
}

// The first part has had a music line.
fn with_opened(opened: bool, part: u8) -> bool
    ensures { result ≡ (opened || eqb part 0) }
{
    opened || part == 0
}

// The item of the line from `from` up to `end`, with the L and M in force where it begins; q holds behind it.
fn add_music_line(scratch: &mut [u8], st: State, from: usize, end: usize, q: Count) -> State
    requires ready { Ready (length scratch.old) st }
    requires place { (from < 2 ^ 32) × (end < 2 ^ 32) }
    ensures state { result ≡ state_after st q }
    ensures items { (text : List ℕ) → out_in text scratch.new (Ok result) ≡ on (state_in text scratch.old (state_after st q)) (items_in text scratch.old st.items ++ ((st.part, music_line st.unit (st.top, st.bottom) (between text from end)) ∷ [])) }
{
    let row = Row {
        a: st.top,
        b: st.bottom,
        at: from,
        end,
        unit: st.unit,
        ..Row::of(Kind::MusicLine, st.part)
    };
    let played = State {
        notes: q.notes,
        unit: q.unit,
        top: q.top,
        bottom: q.bottom,
        places: with_place(st.places, st.part),
        opened: with_opened(st.opened, st.part),
        ..st
    };
    scan_states::add_item(scratch, played, row)
}

// A music line, which is passed over in the header: refusal 6, then those of its tokens. It goes by its place in the text, which its item holds.
pub fn music_line(
    edition: Edition,
    text: &[u8],
    scratch: &mut [u8],
    st: State,
    from: usize,
    end: usize,
) -> Result<State, Refused>
    requires ready { Ready (length scratch.old) st }
    requires place { (from ≤ end) × (end ≤ length text.now) × (length text.now < 2 ^ 32) }
    ensures { Stepped text.now scratch.old st (act (state_in text.now scratch.old st) (kind_as edition (between text.now from end) Class.Music) st.in_header) scratch.new result }
{
    if st.in_header {
        return Ok(scan_states::next_line(st));
    }
    if text_lines::is_high(text, from, end) {
        return scan_states::refuse(st, Refusal::NotAscii);
    }
    let start = Count {
        notes: st.notes,
        unit: st.unit,
        top: st.top,
        bottom: st.bottom,
    };
    match count_line(edition, &text[from..end], start) {
        Ok(q) => Ok(add_music_line(scratch, st, from, end, q)),
        Err(refusal) => scan_states::refuse(st, refusal),
    }
}
