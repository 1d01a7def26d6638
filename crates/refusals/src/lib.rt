// Why a text, or a call, is refused: the refusals by name, their numbers, and a refusal with the line that brought it about.
#![tactic(auto)]

ghost use Rattle.std.specs.Prelude.{◌≡◌};
ghost use Rattle.refusals.specs.Numbers.{number_of};

// In the order of their numbers, 1 to 22.
#[derive(Clone, Copy, Debug, PartialEq, Eq)]
pub enum Refusal {
    NoMusic,
    TooLong,
    NotUtf8,
    TooManyLines,
    LineTooLong,
    NotAscii,
    SecondTune,
    NoVoiceId,
    TooManyVoices,
    Middle,
    TooManyNotes,
    Octave,
    BrokenRhythm,
    Passes,
    ScratchShort,
    ReadingShort,
    PassRange,
    PassOrder,
    NoSuchPart,
    ListShort,
    KeyBeyond,
    ManySlashes,
}

// Its number.
impl From<Refusal> for u8 {
    ghost from_gives = { λ refusal number. number ≡ number_of refusal };

    fn from(refusal: Refusal) -> u8 {
        match refusal {
            Refusal::NoMusic => 1,
            Refusal::TooLong => 2,
            Refusal::NotUtf8 => 3,
            Refusal::TooManyLines => 4,
            Refusal::LineTooLong => 5,
            Refusal::NotAscii => 6,
            Refusal::SecondTune => 7,
            Refusal::NoVoiceId => 8,
            Refusal::TooManyVoices => 9,
            Refusal::Middle => 10,
            Refusal::TooManyNotes => 11,
            Refusal::Octave => 12,
            Refusal::BrokenRhythm => 13,
            Refusal::Passes => 14,
            Refusal::ScratchShort => 15,
            Refusal::ReadingShort => 16,
            Refusal::PassRange => 17,
            Refusal::PassOrder => 18,
            Refusal::NoSuchPart => 19,
            Refusal::ListShort => 20,
            Refusal::KeyBeyond => 21,
            Refusal::ManySlashes => 22,
        }
    }
}

// A refusal, and the line of the text that brought it about, from 1; 0 where no line did.
#[derive(Clone, Copy, Debug, PartialEq, Eq)]
pub struct Refused {
    pub refusal: Refusal,
    pub line: u32,
}
