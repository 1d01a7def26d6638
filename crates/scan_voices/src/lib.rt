// A V line, once its identifier is known: the voice that it names becomes the part being read, a new one gets its row.
#![tactic(auto)]

ghost use Rattle.std.specs.Prelude.{◌≡◌, List, [], ◌∷◌, ◌++◌, ℕ, ◌+◌, ◌*◌, ◌^◌, ◌≤◌, ◌<◌, length, Ok};
ghost use Rattle.laws.specs.Bytes.{between};
ghost use Rattle.reader.specs.Lines.{voice};
ghost use Rattle.reader.specs.Scan.{voice_declared, reset, act};
ghost use Rattle.reader.specs.Steps.{on};
ghost use Rattle.scan_table.specs.Rows.{voices_in, items_in};
ghost use Rattle.scan_states.specs.States.{state_with, state_in, out_in, Ready, Stepped};
ghost use Rattle.scan_voices.specs.Voices.{moved_to, Unnamed, Moved};

use refusals::{Refusal, Refused};
use scan_states::State;
use scan_table::{Kind, Place, Row};

// How many voices a V line finds: unnamed opening music counts as one, and has an empty identifier.
fn with_unnamed(scratch: &mut [u8], st: State) -> usize
    requires { Ready (length scratch.old) st }
    ensures { (text : List ℕ) → Unnamed text scratch.old st scratch.new result }
{
    if st.voices == 0 && st.opened {
        scan_table::push_voice(scratch, 0, Place { at: 0, end: 0 });
        return 1;
    }
    st.voices
}

// Voice i of n is read on.
fn known_voice(scratch: &mut [u8], st: State, n: usize, i: usize) -> State
    requires ready { Ready (length scratch.old) st }
    requires known { (i < n) × (n ≤ 32) }
    ensures moved { Moved st n i (st.items + 1) result }
    ensures items { (text : List ℕ) → out_in text scratch.new (Ok result) ≡ on (state_with (voices_in text scratch.old n) (moved_to st i)) (items_in text scratch.old st.items ++ ((i, reset) ∷ [])) }
{
    let part = i as u8;
    let moved = State {
        voices: n,
        part,
        ..st
    };
    scan_states::add_item(scratch, moved, Row::of(Kind::Reset, part))
}

// A voice more behind n, by the place of its identifier.
fn new_voice(scratch: &mut [u8], st: State, n: usize, id: Place) -> State
    requires ready { Ready (length scratch.old) st }
    requires place { (n < 32) × (id.at < 2 ^ 32) × (id.end < 2 ^ 32) }
    ensures moved { Moved st (n + 1) n (st.items + 2) result }
    ensures items { (text : List ℕ) → out_in text scratch.new (Ok result) ≡ on (state_with (voices_in text scratch.old n ++ (between text id.at id.end ∷ [])) (moved_to st n)) (items_in text scratch.old st.items ++ ((n, voice_declared st.in_header) ∷ ((n, reset) ∷ []))) }
{
    scan_table::push_voice(scratch, n, id);
    let part = n as u8;
    let declared = Row {
        a: u8::from(st.in_header),
        ..Row::of(Kind::VoiceDeclared, part)
    };
    scan_table::put_item(scratch, st.items, declared);
    let moved = State {
        voices: n + 1,
        part,
        items: st.items + 1,
        ..st
    };
    scan_states::add_item(scratch, moved, Row::of(Kind::Reset, part))
}

// A V line, by the place of the identifier that it names; `middle`: it has a `middle=` word.
pub fn named_voice(
    text: &[u8],
    scratch: &mut [u8],
    st: State,
    id: Place,
    middle: bool,
) -> Result<State, Refused>
    requires ready { Ready (length scratch.old) st }
    requires place { (id.at ≤ id.end) × (id.end ≤ length text.now) × (length text.now < 2 ^ 32) }
    ensures { Stepped text.now scratch.old st (act (state_in text.now scratch.old st) (voice (between text.now id.at id.end) middle) st.in_header) scratch.new result }
{
    let n = with_unnamed(scratch, st);
    match scan_table::find_voice(text, scratch, n, &text[id.at..id.end]) {
        Some(_) if middle => scan_states::refuse(st, Refusal::Middle),
        Some(i) => Ok(known_voice(scratch, st, n, i)),
        None if 32 <= n => scan_states::refuse(st, Refusal::TooManyVoices),
        None if middle => scan_states::refuse(st, Refusal::Middle),
        None => Ok(new_voice(scratch, st, n, id)),
    }
}
