// Spans of a lyric line: where a word begins and ends, its hyphens and the pieces between them. A span goes by its places in the whole text, since a
// syllable's row holds them.
#![tactic(auto)]

ghost use Rattle.std.specs.Prelude.{◌≤◌, ◌<◌, ◌≡◌, ℕ, Bool, length};
ghost use Rattle.laws.specs.Bytes.{between};
ghost use Rattle.laws.specs.Spans.{end_in};
ghost use Rattle.reader.specs.Pieces.{white_at};
ghost use Rattle.lyric_spans.specs.Spans.{is_hyphen, no_hyphen, is_plain, may_be_white, WordStart, WordEnd};

// The first byte at or behind `at` that is no white space, or `end`.
fn past_white(text: &[u8], at: usize, end: usize) -> usize
    requires { (at ≤ end) × (end ≤ length text.now) }
    ensures { WordStart text.now at end result }
{
    let mut i = at;
    while i < end {
        let w = text_white::white_at(text, i, end);
        if w == 0 {
            return i;
        }
        i += w;
    }
    i
}

// The same, byte by byte as long as they are ASCII.
pub fn word_start(text: &[u8], at: usize, end: usize) -> usize
    requires { (at ≤ end) × (end ≤ length text.now) }
    ensures { WordStart text.now at end result }
{
    for i in at..end {
        let b = text[i];
        if 127 < b {
            return past_white(text, i, end);
        }
        if !text_bytes::is_space(b) {
            return i;
        }
    }
    end
}

// A byte with which white space may begin.
fn may_be_white(b: u8) -> bool
    ensures { result ≡ may_be_white b }
{
    text_bytes::is_space(b) || b == 0xc2 || b == 0xe1 || b == 0xe2 || b == 0xe3
}

// The end of the word that begins at `at`.
pub fn word_end(text: &[u8], at: usize, end: usize) -> usize
    requires { (at < end) × (end ≤ length text.now) × (white_at (between text.now at end) ≡ 0) }
    ensures { WordEnd text.now at end result }
{
    for i in at..end {
        if may_be_white(text[i]) && 0 < text_white::white_at(text, i, end) {
            return i;
        }
    }
    end
}

// The first byte at or behind `at` that is no hyphen, or `end`.
pub fn hyphens_end(text: &[u8], at: usize, end: usize) -> usize
    requires { (at ≤ end) × (end ≤ length text.now) }
    ensures { result ≡ end_in is_hyphen text.now at end }
{
    text_runs::end_while(text, at, end, |b| b == b'-')
}

// The first hyphen at or behind `at`, or `end`.
pub fn piece_end(text: &[u8], at: usize, end: usize) -> usize
    requires { (at ≤ end) × (end ≤ length text.now) }
    ensures { result ≡ end_in no_hyphen text.now at end }
{
    text_runs::end_while(text, at, end, |b| b != b'-')
}

// A byte of a word that begins no white space and is no hyphen, whatever stands behind it.
fn is_plain(b: u8) -> bool
    ensures { result ≡ is_plain b }
{
    b != b'-' && text_bytes::is_within(b'!', b'~', b)
}

// Where the next word begins behind one that ends at `at`, or `end`: mostly behind one space.
pub fn next_start(text: &[u8], at: usize, end: usize) -> usize
    requires { (at ≤ end) × (end ≤ length text.now) }
    ensures { WordStart text.now at end result }
{
    if at + 1 < end && text[at] == b' ' && is_plain(text[at + 1]) {
        return at + 1;
    }
    word_start(text, at, end)
}

// The first byte at or behind `at` that is not plain, or `end`.
pub fn plain_end(text: &[u8], at: usize, end: usize) -> usize
    requires { (at ≤ end) × (end ≤ length text.now) }
    ensures { result ≡ end_in is_plain text.now at end }
{
    text_runs::end_while(text, at, end, is_plain)
}
