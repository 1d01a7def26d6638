// UTF-8, read byte by byte.
#![tactic(auto)]

ghost use Rattle.std.specs.Prelude.{◌≡◌, cond};
ghost use Rattle.reader.specs.Text.{between, utf8_step, is_between, is_utf8};
ghost use Rattle.text_utf8.specs.States.{as_utf8};

// Where the reading stands: between two characters; 1, 2, 3 bytes of one to come; after E0, ED, F0, F4, whose second
// byte has a narrower range; or no UTF-8.
#[derive(Clone, Copy, Debug, PartialEq, Eq)]
enum Utf8 {
    Between,
    One,
    Two,
    Three,
    AfterE0,
    AfterED,
    AfterF0,
    AfterF4,
    Invalid,
}

// On to `q` if the byte is right. text_white has the same of its own states: one for both would take the state of failure, and be no plainer.
fn utf8_on(right: bool, q: Utf8) -> Utf8
    ensures { as_utf8 result ≡ cond right (as_utf8 q) (as_utf8 Utf8.Invalid) }
{
    if right { q } else { Utf8::Invalid }
}

// The first byte of a character.
#[tactic(auto, unfolding(reader::specs::Text::utf8_step))]
fn utf8_first(b: u8) -> Utf8
    ensures { as_utf8 result ≡ utf8_step between b }
{
    match b {
        0..=0x7f => Utf8::Between,
        0xc2..=0xdf => Utf8::One,
        0xe0 => Utf8::AfterE0,
        0xed => Utf8::AfterED,
        0xe1..=0xef => Utf8::Two,
        0xf0 => Utf8::AfterF0,
        0xf1..=0xf3 => Utf8::Three,
        0xf4 => Utf8::AfterF4,
        _ => Utf8::Invalid,
    }
}

// One byte more.
#[tactic(auto, unfolding(reader::specs::Text::utf8_step))]
fn utf8_step(q: Utf8, b: u8) -> Utf8
    ensures { as_utf8 result ≡ utf8_step (as_utf8 q) b }
{
    match q {
        Utf8::Between => utf8_first(b),
        Utf8::One => utf8_on(text_bytes::is_within(0x80, 0xbf, b), Utf8::Between),
        Utf8::Two => utf8_on(text_bytes::is_within(0x80, 0xbf, b), Utf8::One),
        Utf8::Three => utf8_on(text_bytes::is_within(0x80, 0xbf, b), Utf8::Two),
        Utf8::AfterE0 => utf8_on(text_bytes::is_within(0xa0, 0xbf, b), Utf8::One),
        Utf8::AfterED => utf8_on(text_bytes::is_within(0x80, 0x9f, b), Utf8::One),
        Utf8::AfterF0 => utf8_on(text_bytes::is_within(0x90, 0xbf, b), Utf8::Two),
        Utf8::AfterF4 => utf8_on(text_bytes::is_within(0x80, 0x8f, b), Utf8::Two),
        Utf8::Invalid => Utf8::Invalid,
    }
}

// What was read is whole characters.
fn is_between(q: Utf8) -> bool
    ensures { result ≡ is_between (as_utf8 q) }
{
    q == Utf8::Between
}

// The text is UTF-8, read byte by byte.
#[tactic(auto, using(laws::proofs::Lists::foldl_at, laws::proofs::Lists::foldl_end), unfolding(reader::specs::Text::is_utf8))]
fn reads_utf8(text: &[u8]) -> bool
    ensures { result ≡ is_utf8 text.now }
{
    let mut q = Utf8::Between;
    for b in text {
        q = utf8_step(q, *b);
    }
    is_between(q)
}

// The text is UTF-8, as ASCII is.
#[tactic(auto, using(crate::proofs::Ascii::ascii_is_utf8))]
pub fn is_utf8(text: &[u8]) -> bool
    ensures { result ≡ is_utf8 text.now }
{
    !text_lines::has_high(text) || reads_utf8(text)
}
