// A key field's value in the second edition (document 02, T-03): its key with its mode, and refusals 10 and 21 as met among its words.
#![tactic(auto)]

ghost use Rattle.std.specs.Prelude.{◌≡◌, ◌+◌, true, false, MatchOption, MatchResult};
ghost use Rattle.std.proofs.Math.Option.{none, some};
ghost use Rattle.standard.specs.Keys.{place};
ghost use Rattle.standard.specs.Pitches.{step_of};
ghost use Rattle.editions.specs.declared.Edition.TheVariants.{Second};
ghost use Rattle.reader.specs.Text.{within};
ghost use Rattle.reader.specs.Pieces.{field_words};
ghost use Rattle.reader.specs.Keys.{key_of, is_beyond};
ghost use Rattle.reader.specs.Fields.{first_met};
ghost use Rattle.refusals.specs.Numbers.{number_of};
ghost use Rattle.field_keys.specs.Passed.{key_as};
ghost use Rattle.field_modes.specs.Modes.{key_words};
ghost use Rattle.field_modal.specs.ModalKeys.{word_key, NoTonic, TonicIs, KeyIs};

use field_keys::Key;
use field_modes::Mode;
use refusals::Refusal;

// C major.
const PLAIN_KEY: Key = Key {
    fifths: 128,
    minor: false,
};

// The fifths of a letter from A to G in major, 128 added.
#[tactic(auto, unfolding(standard::specs::Keys::place, standard::specs::Pitches::step_of))]
fn letter_fifths(letter: u8) -> Option<u8>
    ensures { MatchOption result (within 65 71 letter ≡ false) (λ fifths. (within 65 71 letter ≡ true) × (fifths ≡ 127 + place (step_of letter))) }
{
    match letter {
        b'F' => Some(127),
        b'C' => Some(128),
        b'G' => Some(129),
        b'D' => Some(130),
        b'A' => Some(131),
        b'E' => Some(132),
        b'B' => Some(133),
        _ => None,
    }
}

// The fifths of the name at the front of the word, in major, and what stands behind the name.
fn split_tonic(word: &[u8]) -> Option<(u8, &[u8])>
    ensures { MatchOption result (NoTonic word.now) (λ tonic. TonicIs word.now tonic.0 tonic.1.now) }
{
    let (letter, behind) = word.split_first()?;
    let fifths = letter_fifths(*letter)?;
    match text_bytes::byte_at(behind, 0) {
        b'#' => Some((fifths + 7, &behind[1..])),
        b'b' => Some((fifths - 7, &behind[1..])),
        _ => Some((fifths, behind)),
    }
}

// The key by the first word of the key text and what stands behind that in the value.
fn word_key(word: &[u8], behind: &[u8]) -> Key
    ensures { key_as result ≡ word_key word.now (key_words behind.now) }
{
    match split_tonic(word) {
        None => PLAIN_KEY,
        Some((fifths, left)) => {
            let mode = field_modes::mode_from(left, behind);
            Key {
                fifths: fifths + 1 - mode.flatter(),
                minor: mode == Mode::Aeolian,
            }
        }
    }
}

// The key of the value.
fn modal_key(value: &[u8]) -> Key
    ensures { key_as result ≡ key_of Second value.now }
{
    match field_modes::key_word(value) {
        None => PLAIN_KEY,
        Some((word, behind)) => word_key(word, behind),
    }
}

// The key has more than seven sharps or flats.
#[tactic(auto, unfolding(reader::specs::Keys::is_beyond))]
fn is_beyond(key: Key) -> bool
    ensures { result ≡ is_beyond (key_as key) }
{
    !text_bytes::is_within(121, 135, key.fifths)
}

// The first refusal among the words of the value: 10 at a `middle=` word; 21, where the key is beyond, at a word of the key text.
fn first_met(value: &[u8], beyond: bool) -> Result<(), Refusal>
    ensures { MatchResult result (λ _. first_met beyond (field_words value.now) ≡ none) (λ refusal. first_met beyond (field_words value.now) ≡ some (number_of refusal)) }
{
    let mut rest = value;
    while let Some((word, behind)) = text_words::split_word(rest) {
        if text_names::starts_with(word, b"middle=") {
            return Err(Refusal::Middle);
        }
        if beyond && field_keys::is_key_word(word) {
            return Err(Refusal::KeyBeyond);
        }
        rest = behind;
    }
    Ok(())
}

// A K field's value.
pub fn modal_field(value: &[u8]) -> Result<Key, Refusal>
    ensures { KeyIs Second value.now result }
{
    let key = modal_key(value);
    first_met(value, is_beyond(key))?;
    Ok(key)
}
