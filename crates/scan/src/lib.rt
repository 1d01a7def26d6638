// The first half of `parse_abc`: every line in order, every refusal that a line can bring about, and the line table in scratch.
#![tactic(auto)]

ghost use Rattle.std.specs.Prelude.{◌≡◌, List, ℕ, ◌+◌, ◌^◌, ◌≤◌, ◌<◌, length};
ghost use Rattle.laws.specs.Bytes.{between};
ghost use Rattle.reader.specs.Scan.{act, step};
ghost use Rattle.reader.specs.Answer.{scratch_needed};
ghost use Rattle.text_lines.specs.declared.Class.{Class};
ghost use Rattle.text_lines.specs.Lines.{kind_as, class_of};
ghost use Rattle.scan_states.specs.States.{state_in, Ready, Stepped};
ghost use Rattle.scan.specs.Scanned.{Open, Line, ScanIs};

use editions::Edition;
use field_keys::Key;
use refusals::{Refusal, Refused};
use scan_states::State;
use text_lines::Class;

// What the second half of `parse_abc` needs: the number of voices, the header's key, the number of items in the line table, and whether there
// is music among them.
#[derive(Clone, Copy)]
pub struct Shared {
    pub voices: usize,
    pub key: Key,
    pub items: usize,
    pub music: bool,
}

// A line by its class.
fn act_line(
    edition: Edition,
    text: &[u8],
    scratch: &mut [u8],
    st: State,
    from: usize,
    end: usize,
    class: Class,
) -> Result<State, Refused>
    requires ready { Ready (length scratch.old) st }
    requires place { (from ≤ end) × (end ≤ length text.now) × (length text.now < 2 ^ 31) }
    requires its_class { class ≡ class_of (between text.now from end) }
    ensures { Stepped text.now scratch.old st (act (state_in text.now scratch.old st) (kind_as edition (between text.now from end) class) st.in_header) scratch.new result }
{
    match class {
        Class::Blank => Ok(scan_states::next_line(st)),
        Class::Lyric => Ok(scan_states::lyric_line(scratch, st, from, end)),
        Class::Voice => scan_fields::voice_line(text, scratch, st, from, end),
        Class::Key => scan_fields::key_line(edition, &text[from..end], scratch, st),
        Class::Unit => scan_fields::unit_line(&text[from..end], st),
        Class::Meter => scan_fields::meter_line(&text[from..end], scratch, st),
        Class::Tune => scan_states::tune_line(st),
        Class::Other => Ok(scan_states::next_line(st)),
        Class::Music => scan_music::music_line(edition, text, scratch, st, from, end),
    }
}

// The line from `from` up to `to`, with its line feed: refusals 4 and 5, then by its class.
fn step_line(
    edition: Edition,
    text: &[u8],
    scratch: &mut [u8],
    st: State,
    from: usize,
    to: usize,
) -> Result<State, Refused>
    requires opened { Open (length scratch.old) st }
    requires place { (from ≤ to) × (to ≤ length text.now) × (length text.now < 2 ^ 31) }
    ensures { Line text.now scratch.old st (step edition (state_in text.now scratch.old st) (between text.now from to)) scratch.new result }
{
    if 10000 <= st.lines {
        return scan_states::refuse(st, Refusal::TooManyLines);
    }
    let end = text_lines::clean_end(text, from, to);
    if 1048576 < end - from {
        return scan_states::refuse(st, Refusal::LineTooLong);
    }
    let class = text_lines::line_class(&text[from..end]);
    act_line(edition, text, scratch, st, from, end, class)
}

// Every line of the text in order, to the first refusal.
pub fn scan_lines(edition: Edition, text: &[u8], scratch: &mut [u8]) -> Result<Shared, Refused>
    requires { (length text.now ≤ 67108864) × (scratch_needed (length text.now) ≤ length scratch.old) }
    ensures { ScanIs edition text.now scratch.new result }
{
    let mut st = scan_states::begin_state();
    let mut at: usize = 0;
    while at < text.len() {
        let to = text_lines::line_end(text, at);
        st = step_line(edition, text, scratch, st, at, to)?;
        at = to;
    }
    Ok(Shared {
        voices: st.voices,
        key: st.key,
        items: st.items,
        music: 0 < st.places,
    })
}
