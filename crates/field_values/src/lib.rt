// The values of M, L and V fields, `middle=` words, and inline fields. A value is what stands behind the field's colon.
#![tactic(auto)]

ghost use Rattle.std.specs.Prelude.{◌≡◌, MatchOption};
ghost use Rattle.std.proofs.Math.Option.{none, some};
ghost use Rattle.standard.specs.Bytes.{is};
ghost use Rattle.reader.specs.Pieces.{after, trimmed};
ghost use Rattle.reader.specs.Fields.{meter_number, meter_of, unit_text, unit_number, unit_of, unit_inline, middle_word};
ghost use Rattle.reader.specs.Inline.{field_token};
ghost use Rattle.editions.specs.declared.Edition.TheVariants.{First};
ghost use Rattle.text_bytes.specs.Options.{option};
ghost use Rattle.field_modal.specs.ModalKeys.{KeyIs};
ghost use Rattle.field_values.specs.Values.{meter_as, meter_parts, Identifier, token_as};

use editions::Edition;
use field_keys::Key;
use refusals::Refusal;
use text_words::Part;

#[derive(Clone, Copy, Debug, PartialEq, Eq)]
pub struct Meter {
    pub top: u8,
    pub bottom: u8,
}

// An inline field that is not refused: L, M or K that sets; any other.
#[derive(Clone, Copy, Debug, PartialEq, Eq)]
pub enum Field {
    Unit(u32),
    Meter(Meter),
    Key(Key),
    Other,
}

// A meter's top or bottom: white space around it goes, and what is no number of 8 bits is 4.
fn meter_number(text: &[u8]) -> u8
    ensures { result ≡ meter_number text.now }
{
    match text_numbers::parse_number(text_words::trim(text), 255) {
        Some(number) => number as u8,
        None => 4,
    }
}

// Top and bottom, each by itself; without a slash the bottom is 4.
fn meter_parts(text: &[u8]) -> Meter
    ensures { meter_as result ≡ meter_parts text.now }
{
    match text_words::split_once(text, b'/') {
        Some((top, bottom)) => Meter {
            top: meter_number(top),
            bottom: meter_number(bottom),
        },
        None => Meter {
            top: meter_number(text),
            bottom: 4,
        },
    }
}

// An M field's meter. (In a match on the three names the last arm knows of no name that it is not, and its proof does not close.)
pub fn parse_meter(value: &[u8]) -> Meter
    ensures { meter_as result ≡ meter_of value.now }
{
    let text = text_words::trim(value);
    if text_names::is_text(text, b"C") {
        return Meter { top: 4, bottom: 4 };
    }
    if text_names::is_text(text, b"C|") {
        return Meter { top: 2, bottom: 2 };
    }
    if text_names::is_text(text, b"c|") {
        return Meter { top: 2, bottom: 2 };
    }
    meter_parts(text)
}

// What an L field has between its first slash and its second.
fn unit_text(value: &[u8]) -> Option<&[u8]>
    ensures { MatchOption result (unit_text (after (is "/") (trimmed value.now)) ≡ none) (λ text. unit_text (after (is "/") (trimmed value.now)) ≡ some text.now) }
{
    let (_, behind) = text_words::split_once(text_words::trim(value), b'/')?;
    match text_words::split_once(behind, b'/') {
        Some((text, _)) => Some(text),
        None => Some(behind),
    }
}

// A unit of 32 bits.
#[tactic(auto, unfolding(reader::specs::Fields::unit_number))]
fn unit_number(text: &[u8]) -> Option<u32>
    ensures { option result ≡ unit_number text.now }
{
    match text_numbers::parse_number(text, 4294967295) {
        Some(number) => Some(number as u32),
        None => None,
    }
}

// The unit that an L line sets: what is no number sets 8.
pub fn parse_unit_line(value: &[u8]) -> Option<u32>
    ensures { option result ≡ unit_of value.now }
{
    let text = unit_text(value)?;
    Some(unit_number(text).unwrap_or(8))
}

// The unit that an inline L sets: what is no number sets nothing.
fn parse_unit_inline(value: &[u8]) -> Option<u32>
    ensures { option result ≡ unit_inline value.now }
{
    unit_number(unit_text(value)?)
}

// Where the identifier stands in the value that a V field names, its first word; an empty part if there is none.
pub fn voice_identifier(value: &[u8]) -> Part
    ensures { Identifier value.now result }
{
    match text_words::split_word(value) {
        Some((word, behind)) => {
            let end = value.len() - behind.len();
            Part {
                start: end - word.len(),
                end,
            }
        }
        None => Part {
            start: value.len(),
            end: value.len(),
        },
    }
}

// A word of the value begins with `middle=`.
pub fn has_middle(value: &[u8]) -> bool
    ensures { result ≡ middle_word value.now }
{
    let mut rest = value;
    while let Some((word, behind)) = text_words::split_word(rest) {
        if text_names::starts_with(word, b"middle=") {
            return true;
        }
        rest = behind;
    }
    false
}

// The first edition's K field: refusal 10, else a key.
#[tactic(auto, unfolding(reader::specs::Fields::key_refusal))]
fn plain_field(value: &[u8]) -> Result<Key, Refusal>
    ensures { KeyIs First value.now result }
{
    if has_middle(value) {
        return Err(Refusal::Middle);
    }
    Ok(field_keys::parse_key(value))
}

// A K field's value, on its own line or inline.
pub fn read_key(edition: Edition, value: &[u8]) -> Result<Key, Refusal>
    ensures { KeyIs edition value.now result }
{
    match edition {
        Edition::First => plain_field(value),
        Edition::Second => field_modal::modal_field(value),
    }
}

// An inline K by its value.
#[tactic(auto, unfolding(reader::specs::Fields::key_refusal))]
fn inline_key(edition: Edition, value: &[u8]) -> Result<Key, Refusal>
    ensures { KeyIs edition value.now result }
{
    match edition {
        Edition::First => {
            if has_middle(value) {
                return Err(Refusal::Middle);
            }
            Ok(field_keys::parse_key(value))
        }
        Edition::Second => field_modal::modal_field(value),
    }
}

// An inline field, the bytes between its brackets: its name is one letter, and the value stands behind the colon.
pub fn parse_inline_field(edition: Edition, field: &[u8]) -> Result<Field, Refusal>
    ensures { token_as result ≡ field_token edition field.now }
{
    if text_bytes::byte_at(field, 1) != b':' {
        return Ok(Field::Other);
    }
    let value = &field[2..];
    match field[0] {
        b'L' => match parse_unit_inline(value) {
            Some(unit) => Ok(Field::Unit(unit)),
            None => Ok(Field::Other),
        },
        b'M' => Ok(Field::Meter(parse_meter(value))),
        b'K' => Ok(Field::Key(inline_key(edition, value)?)),
        _ => Ok(Field::Other),
    }
}
