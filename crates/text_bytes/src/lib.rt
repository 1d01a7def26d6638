// The byte at a position, and ASCII's classes of bytes.
#![tactic(auto)]

ghost use Rattle.std.specs.Prelude.{◌≡◌, ◌||◌, get_or};
ghost use Rattle.standard.specs.Bytes.{is_digit};
ghost use Rattle.reader.specs.Text.{within, is_space};

// What was read at a position of a line, and the position after it.
#[derive(Clone, Copy, Debug, PartialEq, Eq)]
pub struct Read<T> {
    pub value: T,
    pub next: usize,
}

// The byte at a position, 0 past the end.
pub fn byte_at(line: &[u8], at: usize) -> u8
    ensures { result ≡ get_or line.now at 0 }
{
    if at < line.len() { line[at] } else { 0 }
}

// A byte from `low` to `high`.
pub fn is_within(low: u8, high: u8, b: u8) -> bool
    ensures { result ≡ within low high b }
{
    low <= b && b <= high
}

pub fn is_digit(b: u8) -> bool
    ensures { result ≡ is_digit b }
{
    is_within(b'0', b'9', b)
}

// A letter, great or small.
pub fn is_letter(b: u8) -> bool
    ensures { result ≡ (within 65 90 b || within 97 122 b) }
{
    is_within(b'A', b'Z', b) || is_within(b'a', b'z', b)
}

// White space.
pub fn is_space(b: u8) -> bool
    ensures { result ≡ is_space b }
{
    is_within(9, 13, b) || b == b' '
}
