// Words of a text, and a text without white space around it. Fields are ASCII, so white space is ASCII's.
#![tactic(auto)]

ghost use Rattle.std.specs.Prelude.{◌≡◌, ◌≤◌, MatchOption, [], length};
ghost use Rattle.laws.specs.Lists.{count_while};
ghost use Rattle.reader.specs.Pieces.{trim_start, trim_end, trimmed, field_words};
ghost use Rattle.text_words.specs.Words.{not_space, FirstWord, Unsplit, SplitAround};

// A part of a text, from `start` up to `end`.
#[derive(Clone, Copy, Debug, PartialEq, Eq)]
pub struct Part {
    pub start: usize,
    pub end: usize,
}

// The text without white space at its front. (The library's `trim_ascii` leaves byte 11, which is white space here.)
fn trim_start(text: &[u8]) -> &[u8]
    ensures { result.now ≡ trim_start text.now }
{
    let mut rest = text;
    while let Some((first, behind)) = rest.split_first() {
        if !text_bytes::is_space(*first) {
            return rest;
        }
        rest = behind;
    }
    rest
}

// The text without white space at its end.
fn trim_end(text: &[u8]) -> &[u8]
    ensures { result.now ≡ trim_end text.now }
{
    let mut front = text;
    while let Some((last, before)) = front.split_last() {
        if !text_bytes::is_space(*last) {
            return front;
        }
        front = before;
    }
    front
}

// The text without white space at either end.
#[tactic(auto, unfolding(reader::specs::Pieces::trimmed))]
pub fn trim(text: &[u8]) -> &[u8]
    ensures { result.now ≡ trimmed text.now }
{
    trim_end(trim_start(text))
}

// Where the word at the front of the text ends.
pub fn word_end(text: &[u8]) -> usize
    ensures within { result ≤ length text.now }
    ensures end { result ≡ count_while not_space text.now }
{
    match text.iter().position(|&c| text_bytes::is_space(c)) {
        Some(end) => end,
        None => text.len(),
    }
}

// The first word of the text, and what stands behind it.
pub fn split_word(text: &[u8]) -> Option<(&[u8], &[u8])>
    ensures { MatchOption result (field_words text.now ≡ []) (λ word. FirstWord text.now word.0.now word.1.now) }
{
    let words = trim_start(text);
    if words.is_empty() {
        return None;
    }
    Some(words.split_at(word_end(words)))
}

// What stands before the first `byte` of the text, and what after it.
pub fn split_once(text: &[u8], byte: u8) -> Option<(&[u8], &[u8])>
    ensures { MatchOption result (Unsplit byte text.now) (λ parts. SplitAround byte text.now parts.0.now parts.1.now) }
{
    match text.iter().position(|&c| c == byte) {
        Some(at) => Some((&text[..at], &text[at + 1..])),
        None => None,
    }
}
