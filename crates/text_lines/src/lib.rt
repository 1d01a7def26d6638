// The lines of a text: where one ends, what is left of it once cut and trimmed, and its class.
#![tactic(auto)]

ghost use Rattle.std.specs.Prelude.{◌+◌, ◌≤◌, ◌<◌, ◌≡◌, ◌&&◌, ◌||◌, [], ltb, length};
ghost use Rattle.laws.specs.Lists.{all};
ghost use Rattle.laws.specs.Bytes.{between};
ghost use Rattle.laws.specs.Spans.{end_in};
ghost use Rattle.reader.specs.Text.{has_high};
ghost use Rattle.text_white.specs.States.{as_white};
ghost use Rattle.text_lines.specs.Lines.{not_byte, trim_from, TrimOn, TrimEnd, CleanEnd, LineEnd, is_letter, colon_class, class_of};

// Where a line ends if the bytes to come are white space, and where the reading of white space stands from there on.
#[derive(Clone, Copy, Debug, PartialEq, Eq)]
struct Trim {
    q: text_white::White,
    end: usize,
}

// A line's class by its first two bytes: V, K, L, M, X are voice, key, unit, meter, tune.
#[derive(Clone, Copy, Debug, PartialEq, Eq)]
pub enum Class {
    Blank,
    Lyric,
    Voice,
    Key,
    Unit,
    Meter,
    Tune,
    Other,
    Music,
}

// None of the 16 bytes from `at` on is b. Without an exit the loop takes them all at once.
#[tactic(auto, using(crate::proofs::Finding::block_next, crate::proofs::Finding::block_end))]
fn lacks(text: &[u8], at: usize, b: u8) -> bool
    requires { at + 16 ≤ length text.now }
    ensures { result ≡ all (not_byte b) (between text.now at (at + 16)) }
{
    let mut none = true;
    for j in 0..16 {
        none &= text[at + j] != b;
    }
    none
}

// A position at or behind `at`, before which no byte is b: 16 bytes at a time, so a while loop.
#[tactic(auto, using(crate::proofs::Finding::end_behind))]
fn pass_without(text: &[u8], at: usize, end: usize, b: u8) -> usize
    requires { (at ≤ end) × (end ≤ length text.now) }
    ensures { (result ≤ end) × (end_in (not_byte b) text.now result end ≡ end_in (not_byte b) text.now at end) }
{
    let mut i = at;
    while 16 <= end - i {
        if !lacks(text, i, b) {
            return i;
        }
        i += 16;
    }
    i
}

// The first byte at or behind `at` that is b, or `end`. By positions, as its callers have them.
fn find_byte(text: &[u8], at: usize, end: usize, b: u8) -> usize
    requires { (at ≤ end) × (end ≤ length text.now) }
    ensures { result ≡ end_in (not_byte b) text.now at end }
{
    text_runs::find(text, pass_without(text, at, end, b), end, b)
}

// The position behind the line at `at`: past its line feed, or the text's end.
pub fn line_end(text: &[u8], at: usize) -> usize
    requires { at < length text.now }
    ensures { LineEnd text.now at result }
{
    let i = find_byte(text, at, text.len(), b'\n');
    if i < text.len() {
        return i + 1;
    }
    i
}

// One byte more, at the position `at`. Where the white space breaks off the byte may begin other white space.
#[tactic(auto, using(crate::proofs::Cleaning::trim_past, crate::proofs::Cleaning::trim_new, crate::proofs::Cleaning::trim_kept))]
fn trim_step(t: Trim, b: u8, at: usize) -> Trim
    requires { at < 18446744073709551615 }
    ensures { TrimOn t.q t.end b at result.q result.end }
{
    let on = text_white::white_step(t.q, b);
    if text_white::is_other(on) {
        let first = text_white::white_step(text_white::White::White, b);
        if text_white::is_other(first) {
            return Trim {
                q: text_white::White::White,
                end: at + 1,
            };
        }
        return Trim { q: first, end: at };
    }
    Trim { q: on, end: t.end }
}

// The same, quickly for ASCII from `!` on: it is no byte of white space.
fn trim_byte(t: Trim, b: u8, at: usize) -> Trim
    requires { at < 18446744073709551615 }
    ensures { TrimOn t.q t.end b at result.q result.end }
{
    if text_bytes::is_within(33, 127, b) {
        return Trim {
            q: text_white::White::White,
            end: at + 1,
        };
    }
    trim_step(t, b, at)
}

// No byte more.
#[tactic(auto, using(crate::proofs::Cleaning::end_white, crate::proofs::Cleaning::end_other))]
fn trim_done(t: Trim, at: usize) -> usize
    ensures { result ≡ trim_from (as_white t.q) t.end at [] }
{
    if text_white::is_all_white(t.q) {
        t.end
    } else {
        at
    }
}

// The end of the text from `from` to `to` once it is trimmed, in one pass over its bytes.
#[tactic(auto, using(crate::proofs::Cleaning::trimming_start, crate::proofs::Cleaning::trimming_on))]
fn trim_bytes(text: &[u8], from: usize, to: usize) -> usize
    requires { (from ≤ to) × (to ≤ length text.now) }
    ensures { TrimEnd text.now from to result }
{
    let mut t = Trim {
        q: text_white::White::White,
        end: from,
    };
    for i in from..to {
        t = trim_byte(t, text[i], i);
    }
    trim_done(t, to)
}

// The same, from the end, as long as the bytes there are ASCII.
fn trim_end(text: &[u8], from: usize, to: usize) -> usize
    requires { (from ≤ to) × (to ≤ length text.now) }
    ensures { TrimEnd text.now from to result }
{
    for i in (from..to).rev() {
        let b = text[i];
        if 127 < b {
            return trim_bytes(text, from, i + 1);
        }
        if !text_bytes::is_space(b) {
            return i + 1;
        }
    }
    from
}

// The end of the line from `from` to `to` once it is cut at its first `%` and trimmed. By positions, as callers keep them: a slice's end would have `from` added again.
pub fn clean_end(text: &[u8], from: usize, to: usize) -> usize
    requires { (from ≤ to) × (to ≤ length text.now) }
    ensures { CleanEnd text.now from to result }
{
    let cut = find_byte(text, from, to, b'%');
    trim_end(text, from, cut)
}

// The line has a byte above 127: its greatest one is. Without an exit the loop takes many bytes at a time.
#[tactic(auto, using(crate::proofs::LineEnds::high_next, crate::proofs::LineEnds::high_over))]
pub fn has_high(line: &[u8]) -> bool
    ensures { result ≡ has_high line.now }
{
    let mut most: u8 = 0;
    for b in line {
        most = most.max(*b);
    }
    127 < most
}

// The same, of the line from `from` to `end`, cut here once for all callers, which have its positions.
#[tactic(auto, using(laws::proofs::Parts::part_cut))]
pub fn is_high(text: &[u8], from: usize, end: usize) -> bool
    requires { (from ≤ end) × (end ≤ length text.now) }
    ensures { result ≡ has_high (between text.now from end) }
{
    has_high(&text[from..end])
}

// By the byte before a colon.
fn colon_class(b: u8) -> Class
    ensures { result ≡ colon_class b }
{
    match b {
        b'w' => Class::Lyric,
        b'V' => Class::Voice,
        b'K' => Class::Key,
        b'L' => Class::Unit,
        b'M' => Class::Meter,
        b'X' => Class::Tune,
        _ => {
            if text_bytes::is_letter(b) {
                return Class::Other;
            }
            Class::Music
        }
    }
}

// The class of a line that is cut and trimmed.
#[tactic(auto, using(crate::proofs::Classes::class_blank, crate::proofs::Classes::class_one, crate::proofs::Classes::class_colon, crate::proofs::Classes::class_other))]
pub fn line_class(line: &[u8]) -> Class
    ensures { result ≡ class_of line.now }
{
    if line.len() == 0 {
        return Class::Blank;
    }
    if line.len() == 1 {
        return Class::Music;
    }
    if line[1] == b':' {
        return colon_class(line[0]);
    }
    Class::Music
}
