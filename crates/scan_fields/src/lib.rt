// Field lines: V, K, M and L (`parse_abc_header_line` of the Rust source, as far as it concerns the notes). A line is cut and
// trimmed; its value stands behind the letter and the colon. A V line goes by its place in the text, since a voice's row holds the place of its identifier.
#![tactic(auto)]

ghost use Rattle.std.specs.Prelude.{◌≡◌, List, ℕ, ◌+◌, ◌^◌, ◌≤◌, ◌<◌, length, Ok};
ghost use Rattle.laws.specs.Bytes.{between};
ghost use Rattle.editions.specs.declared.Edition.{Edition};
ghost use Rattle.reader.specs.Text.{has_high};
ghost use Rattle.reader.specs.Lines.{key, meter, unit};
ghost use Rattle.reader.specs.Scan.{act};
ghost use Rattle.text_bytes.specs.Options.{option};
ghost use Rattle.field_keys.specs.Passed.{key_as};
ghost use Rattle.field_values.specs.Values.{meter_as};
ghost use Rattle.text_lines.specs.declared.Class.{Class};
ghost use Rattle.text_lines.specs.Lines.{kind_as};
ghost use Rattle.scan_states.specs.States.{state_in, Ready, Stepped};

use editions::Edition;
use field_keys::Key;
use field_values::Meter;
use refusals::{Refusal, Refused};
use scan_states::State;
use scan_table::{Kind, Place, Row};

// A V line: refusals 6 and 8, then by its identifier.
pub fn voice_line(
    text: &[u8],
    scratch: &mut [u8],
    st: State,
    from: usize,
    end: usize,
) -> Result<State, Refused>
    requires ready { Ready (length scratch.old) st }
    requires place { (from + 2 ≤ end) × (end ≤ length text.now) × (length text.now < 2 ^ 32) }
    ensures { (ed : Edition) → Stepped text.now scratch.old st (act (state_in text.now scratch.old st) (kind_as ed (between text.now from end) Class.Voice) st.in_header) scratch.new result }
{
    if text_lines::is_high(text, from, end) {
        return scan_states::refuse(st, Refusal::NotAscii);
    }
    let value = &text[from + 2..end];
    let id = field_values::voice_identifier(value);
    if id.end <= id.start {
        return scan_states::refuse(st, Refusal::NoVoiceId);
    }
    let place = Place {
        at: from + 2 + id.start,
        end: from + 2 + id.end,
    };
    scan_voices::named_voice(text, scratch, st, place, field_values::has_middle(value))
}

// A key: the first one ends the header.
fn set_key(scratch: &mut [u8], st: State, k: Key) -> State
    requires { Ready (length scratch.old) st }
    ensures { (text : List ℕ) → Stepped text scratch.old st (act (state_in text scratch.old st) (key (key_as k)) st.in_header) scratch.new (Ok result) }
{
    if st.in_header {
        let body = State {
            in_header: false,
            key: k,
            ..st
        };
        return scan_states::add_item(scratch, body, Row::of(Kind::KeyInHeader, st.part));
    }
    let row = Row {
        a: k.fifths,
        b: u8::from(k.minor),
        ..Row::of(Kind::KeyChange, st.part)
    };
    scan_states::add_item(scratch, st, row)
}

// A K line: refusals 6, 10 and 21.
pub fn key_line(
    edition: Edition,
    line: &[u8],
    scratch: &mut [u8],
    st: State,
) -> Result<State, Refused>
    requires ready { Ready (length scratch.old) st }
    requires letter_and_colon { 2 ≤ length line.now }
    ensures { (text : List ℕ) → Stepped text scratch.old st (act (state_in text scratch.old st) (kind_as edition line.now Class.Key) st.in_header) scratch.new result }
{
    if text_lines::has_high(line) {
        return scan_states::refuse(st, Refusal::NotAscii);
    }
    match field_values::read_key(edition, &line[2..]) {
        Ok(k) => Ok(set_key(scratch, st, k)),
        Err(refusal) => scan_states::refuse(st, refusal),
    }
}

// A meter, which goes to the part being read once the header has ended.
fn set_meter(scratch: &mut [u8], st: State, m: Meter) -> State
    requires { Ready (length scratch.old) st }
    ensures { (text : List ℕ) → Stepped text scratch.old st (act (state_in text scratch.old st) (meter (meter_as m)) st.in_header) scratch.new (Ok result) }
{
    let metered = State {
        top: m.top,
        bottom: m.bottom,
        ..st
    };
    if st.in_header {
        return scan_states::next_line(metered);
    }
    let row = Row {
        a: m.top,
        b: m.bottom,
        ..Row::of(Kind::MeterChange, st.part)
    };
    scan_states::add_item(scratch, metered, row)
}

// An M line: refusal 6.
pub fn meter_line(line: &[u8], scratch: &mut [u8], st: State) -> Result<State, Refused>
    requires ready { Ready (length scratch.old) st }
    requires letter_and_colon { 2 ≤ length line.now }
    ensures { (ed : Edition) (text : List ℕ) → Stepped text scratch.old st (act (state_in text scratch.old st) (kind_as ed line.now Class.Meter) st.in_header) scratch.new result }
{
    if text_lines::has_high(line) {
        return scan_states::refuse(st, Refusal::NotAscii);
    }
    let m = field_values::parse_meter(&line[2..]);
    Ok(set_meter(scratch, st, m))
}

// A unit, if the L line sets one.
fn set_unit(st: State, u: Option<u32>) -> State
    requires { (st.lines < 10000) × (st.voices ≤ 32) × (st.part < 32) }
    ensures { (text s : List ℕ) → Stepped text s st (act (state_in text s st) (unit (option u)) st.in_header) s (Ok result) }
{
    match u {
        Some(unit) => scan_states::next_line(State { unit, ..st }),
        None => scan_states::next_line(st),
    }
}

// An L line: refusal 6.
pub fn unit_line(line: &[u8], st: State) -> Result<State, Refused>
    requires ready { (st.lines < 10000) × (st.voices ≤ 32) × (st.part < 32) }
    requires letter_and_colon { 2 ≤ length line.now }
    ensures { (ed : Edition) (text s : List ℕ) → Stepped text s st (act (state_in text s st) (kind_as ed line.now Class.Unit) st.in_header) s result }
{
    if text_lines::has_high(line) {
        return scan_states::refuse(st, Refusal::NotAscii);
    }
    let u = field_values::parse_unit_line(&line[2..]);
    Ok(set_unit(st, u))
}
