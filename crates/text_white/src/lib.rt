// Unicode's white space, read byte by byte.
#![tactic(auto)]

ghost use Rattle.std.specs.Prelude.{◌≤◌, ◌<◌, ◌≡◌, cond, length};
ghost use Rattle.laws.specs.Bytes.{between};
ghost use Rattle.reader.specs.Text.{within, is_space, white, white_step, is_all_white, is_blank};
ghost use Rattle.reader.specs.Pieces.{white_at};
ghost use Rattle.text_white.specs.States.{as_white, is_other, ends_c2, ends_e280};

// Where the reading of white space stands: after whole white characters; inside one, by the bytes of it; or something else.
#[derive(Clone, Copy, Debug, PartialEq, Eq)]
pub enum White {
    White,
    InC2,
    InE1,
    InE19A,
    InE2,
    InE280,
    InE281,
    InE3,
    InE380,
    Other,
}

// The last byte of U+0085 or U+00A0.
fn ends_c2(b: u8) -> bool
    ensures { result ≡ ends_c2 b }
{
    b == 0x85 || b == 0xa0
}

// The last byte of U+2000 to U+200A, U+2028, U+2029 or U+202F.
fn ends_e280(b: u8) -> bool
    ensures { result ≡ ends_e280 b }
{
    text_bytes::is_within(0x80, 0x8a, b) || b == 0xa8 || b == 0xa9 || b == 0xaf
}

// On to `q` if the byte is right. text_utf8 has the same of its own states: one for both would take the state of failure, and be no plainer.
fn white_on(right: bool, q: White) -> White
    ensures { as_white result ≡ cond right (as_white q) (as_white White.Other) }
{
    if right { q } else { White::Other }
}

// The first byte of a character.
#[tactic(auto, unfolding(reader::specs::Text::white_step))]
fn white_first(b: u8) -> White
    ensures { as_white result ≡ white_step white b }
{
    match b {
        0xc2 => White::InC2,
        0xe1 => White::InE1,
        0xe2 => White::InE2,
        0xe3 => White::InE3,
        _ => white_on(text_bytes::is_space(b), White::White),
    }
}

// One byte more.
#[tactic(auto, unfolding(reader::specs::Text::white_step))]
pub fn white_step(q: White, b: u8) -> White
    ensures { as_white result ≡ white_step (as_white q) b }
{
    match q {
        White::White => white_first(b),
        White::InC2 => white_on(ends_c2(b), White::White),
        White::InE1 => white_on(b == 0x9a, White::InE19A),
        White::InE19A => white_on(b == 0x80, White::White),
        White::InE2 => match b {
            0x80 => White::InE280,
            0x81 => White::InE281,
            _ => White::Other,
        },
        White::InE280 => white_on(ends_e280(b), White::White),
        White::InE281 => white_on(b == 0x9f, White::White),
        White::InE3 => white_on(b == 0x80, White::InE380),
        White::InE380 => white_on(b == 0x80, White::White),
        White::Other => White::Other,
    }
}

// What was read is all white.
pub fn is_all_white(q: White) -> bool
    ensures { result ≡ is_all_white (as_white q) }
{
    q == White::White
}

// What was read is something else, whatever follows.
pub fn is_other(q: White) -> bool
    ensures { result ≡ is_other (as_white q) }
{
    q == White::Other
}

// The text is nothing but white space.
#[tactic(auto, using(crate::proofs::Whites::other_is_not_blank, laws::proofs::Lists::foldl_at, laws::proofs::Lists::foldl_end), unfolding(reader::specs::Text::is_blank))]
pub fn is_blank(text: &[u8]) -> bool
    ensures { result ≡ is_blank text.now }
{
    let mut q = White::White;
    for b in text {
        q = white_step(q, *b);
        if is_other(q) {
            return false;
        }
    }
    is_all_white(q)
}

// How many bytes the white character at the front has, 0 where there is none.
#[tactic(auto, using(crate::proofs::Whites::white_width))]
fn white_len(text: &[u8]) -> usize
    requires { 0 < length text.now }
    ensures { result ≡ white_at text.now }
{
    let one = white_step(White::White, text_bytes::byte_at(text, 0));
    if is_all_white(one) {
        return 1;
    }
    let two = white_step(one, text_bytes::byte_at(text, 1));
    if is_all_white(two) {
        return 2;
    }
    let three = white_step(two, text_bytes::byte_at(text, 2));
    if is_all_white(three) {
        return 3;
    }
    0
}

// The same of the text from `at` to `end`. ASCII is answered by one byte. By positions, as the loops of callers have them: a slice for each turn would be no plainer.
#[tactic(auto, using(crate::proofs::Whites::width_ascii, laws::proofs::Parts::between_first), unfolding(laws::specs::Bytes::part))]
pub fn white_at(text: &[u8], at: usize, end: usize) -> usize
    requires { (at < end) × (end ≤ length text.now) }
    ensures { result ≡ white_at (between text.now at end) }
{
    let b = text[at];
    if 127 < b {
        return white_len(&text[at..end]);
    }
    usize::from(text_bytes::is_space(b))
}
