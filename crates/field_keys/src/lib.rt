// A key field's value: `parse_key` and `split_abc_clef` of the Rust source, as far as they concern the key.
// The key text is never built. Its bytes are passed one by one, word by word in the value, and what `parse_key` asks of the text is
// known as a name each: before `min`, before a final m, before `maj`, and the whole text's.
#![tactic(auto)]

ghost use Rattle.std.specs.Prelude.{◌≡◌, map};
ghost use Rattle.laws.specs.Lists.{elem};
ghost use Rattle.standard.specs.Bytes.{lower};
ghost use Rattle.editions.specs.declared.Edition.TheVariants.{First};
ghost use Rattle.reader.specs.Keys.{is_key_word, key_of};
ghost use Rattle.field_keys.specs.Passed.{key_as, first_found, pass_byte, pass_word, texts, key_named, key_by};

use field_tonics::Name;

// Fifths have 128 added.
#[derive(Clone, Copy, Debug, PartialEq, Eq)]
pub struct Key {
    pub fifths: u8,
    pub minor: bool,
}

// What was met in the part of the key text that was passed: its name; the name before its last byte, if that is an m; the name before the
// first `min` and before the first `maj`.
#[derive(Clone, Copy, Debug, PartialEq, Eq)]
pub struct Passed {
    pub name: Name,
    pub ended: Option<Name>,
    pub minor: Option<Name>,
    pub major: Option<Name>,
}

// The first of what was met before and what stands here.
#[tactic(auto, unfolding(crate::specs::Passed::first_found))]
fn first_found(found: Option<Name>, here: bool, name: Name) -> Option<Name>
    ensures { result ≡ first_found found here name }
{
    match found {
        Some(before) => Some(before),
        None if here => Some(name),
        None => None,
    }
}

// One byte more; `min` and `maj`: the text says so from this byte on.
fn pass_byte(p: Passed, c: u8, min: bool, maj: bool) -> Passed
    ensures { result ≡ pass_byte p c min maj }
{
    Passed {
        name: field_tonics::with_byte(p.name, c),
        ended: (c == b'm').then_some(p.name),
        minor: first_found(p.minor, min, p.name),
        major: first_found(p.major, maj, p.name),
    }
}

// A word more, and the space before it. (A space before the first word changes nothing.)
fn pass_word(p: Passed, word: &[u8]) -> Passed
    ensures { result ≡ pass_word p word.now }
{
    let mut passed = pass_byte(p, b' ', false, false);
    for k in 0..word.len() {
        let rest = &word[k..];
        let min = text_names::says(rest, b"min");
        let maj = text_names::says(rest, b"maj");
        passed = pass_byte(passed, word[k], min, maj);
    }
    passed
}

// The seven clefs.
const CLEFS: [&[u8]; 7] = [
    b"treble",
    b"bass",
    b"alto",
    b"tenor",
    b"soprano",
    b"mezzosoprano",
    b"baritone",
];

// The word is one of the names, small letters, in any case.
fn is_one_of(word: &[u8], names: [&[u8]; 7]) -> bool
    ensures { result ≡ elem (map lower word.now) (texts names.entry) }
{
    for name in names {
        if text_names::is_named(word, name) {
            return true;
        }
    }
    false
}

// The word stays in the key text: it has no equals sign and is no clef.
pub fn is_key_word(word: &[u8]) -> bool
    ensures { result ≡ is_key_word word.now }
{
    !word.contains(&b'=') && !is_one_of(word, CLEFS)
}

// The key on a tonic.
#[tactic(auto, unfolding(crate::specs::Passed::key_named))]
fn key_named(minor: bool, name: Name) -> Key
    ensures { key_as result ≡ key_named minor name }
{
    Key {
        fifths: field_tonics::fifths_of(minor, name),
        minor,
    }
}

// Before `min`; else before a final m, if the text starts with a capital; else before `maj`, or the text's.
fn key_by(p: Passed) -> Key
    ensures { key_as result ≡ key_by p }
{
    if let Some(name) = p.minor {
        return key_named(true, name);
    }
    if let Some(name) = p.ended {
        if field_tonics::begins_with_capital(name) {
            return key_named(true, name);
        }
    }
    key_named(false, p.major.unwrap_or(p.name))
}

// The first edition: the key of a K field's value.
pub fn parse_key(value: &[u8]) -> Key
    ensures { key_as result ≡ key_of First value.now }
{
    let mut passed = Passed {
        name: Name::Empty,
        ended: None,
        minor: None,
        major: None,
    };
    let mut rest = value;
    while let Some((word, behind)) = text_words::split_word(rest) {
        if is_key_word(word) {
            passed = pass_word(passed, word);
        }
        rest = behind;
    }
    key_by(passed)
}
