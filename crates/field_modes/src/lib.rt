// The mode of a key in the second edition (document 02, T-03), by its name. The key text is never built: the key's name stands at the front of its first word, the
// mode behind that or, where the word ends there, at the front of the second.
#![tactic(auto)]

ghost use Rattle.std.specs.Prelude.{◌≡◌, [], map, MatchOption};
ghost use Rattle.standard.specs.Bytes.{lower};
ghost use Rattle.standard.specs.Keys.{flatter};
ghost use Rattle.field_modes.specs.Modes.{mode_as, lone_m, named_in, mode_at, key_words, KeyWord, mode_from};

// The modes in the order of the line of fifths: on one tonic lydian has a sharp more than major, which is ionian, and each next one a sharp fewer.
#[derive(Clone, Copy, Debug, PartialEq, Eq)]
pub enum Mode {
    Lydian,
    Ionian,
    Mixolydian,
    Dorian,
    Aeolian,
    Phrygian,
    Locrian,
}

impl Mode {
    // How many sharps fewer than lydian.
    #[tactic(auto, unfolding(standard::specs::Keys::flatter))]
    pub fn flatter(self) -> u8
        ensures { result ≡ flatter (mode_as self) }
    {
        match self {
            Mode::Lydian => 0,
            Mode::Ionian => 1,
            Mode::Mixolydian => 2,
            Mode::Dorian => 3,
            Mode::Aeolian => 4,
            Mode::Phrygian => 5,
            Mode::Locrian => 6,
        }
    }
}

// A mode by its name's first three letters.
#[derive(Clone, Copy, Debug, PartialEq, Eq)]
struct ModeName {
    name: [u8; 3],
    mode: Mode,
}

const MODES: [ModeName; 9] = [
    ModeName {
        name: *b"maj",
        mode: Mode::Ionian,
    },
    ModeName {
        name: *b"ion",
        mode: Mode::Ionian,
    },
    ModeName {
        name: *b"min",
        mode: Mode::Aeolian,
    },
    ModeName {
        name: *b"aeo",
        mode: Mode::Aeolian,
    },
    ModeName {
        name: *b"dor",
        mode: Mode::Dorian,
    },
    ModeName {
        name: *b"phr",
        mode: Mode::Phrygian,
    },
    ModeName {
        name: *b"lyd",
        mode: Mode::Lydian,
    },
    ModeName {
        name: *b"mix",
        mode: Mode::Mixolydian,
    },
    ModeName {
        name: *b"loc",
        mode: Mode::Locrian,
    },
];

// An m or M begins the word, with no letter behind it.
fn is_lone_m(word: &[u8]) -> bool
    ensures { result ≡ lone_m word.now }
{
    text_names::says(word, b"m") && !text_bytes::is_letter(text_bytes::byte_at(word, 1))
}

// The mode by whose name the word begins, in any case.
fn named_mode(word: &[u8], names: [ModeName; 9]) -> Option<Mode>
    ensures { result ≡ named_in names (map lower word.now) }
{
    for known in names {
        if text_names::says(word, &known.name) {
            return Some(known.mode);
        }
    }
    None
}

// The mode at the front of the word; major if there is none.
fn mode_at(word: &[u8]) -> Mode
    ensures { mode_as result ≡ mode_at word.now }
{
    match named_mode(word, MODES) {
        Some(mode) => mode,
        None if is_lone_m(word) => Mode::Aeolian,
        None => Mode::Ionian,
    }
}

// The first word of the key text in the value, and what stands behind it.
pub fn key_word(value: &[u8]) -> Option<(&[u8], &[u8])>
    ensures { MatchOption result (key_words value.now ≡ []) (λ word. KeyWord value.now word.0.now word.1.now) }
{
    let mut rest = value;
    while let Some((word, behind)) = text_words::split_word(rest) {
        if field_keys::is_key_word(word) {
            return Some((word, behind));
        }
        rest = behind;
    }
    None
}

// The mode behind the key's name: in what is left of the name's word or, where the word ends there, in the key text's next word.
pub fn mode_from(left: &[u8], behind: &[u8]) -> Mode
    ensures { mode_as result ≡ mode_from left.now (key_words behind.now) }
{
    if !left.is_empty() {
        return mode_at(left);
    }
    match key_word(behind) {
        Some((word, _)) => mode_at(word),
        None => Mode::Ionian,
    }
}
