// The library that callers use: the calls of the crates below, their answers packed into numbers, and nothing else. Crate abc_c exports them for C (libabc.a, include/abc.h).
#![tactic(auto)]

ghost use Rattle.std.specs.Prelude.{◌≡◌, List, ℕ, length};
ghost use Rattle.editions.specs.declared.Edition.TheVariants.{First, Second};
ghost use Rattle.reader.specs.Answer.{parse_abc, answer_of};
ghost use Rattle.reading_answers.specs.Answers.{answer_as};
ghost use Rattle.reading_whole.specs.Whole.{is_whole};
ghost use Rattle.reading_walk.specs.Played.{played_measures};
ghost use Rattle.abc.specs.Packed.{packed, unpacked, Short, version};

use editions::Edition;
use reading_answers::Answer;

// Bit 63, which a refusal has; and what a refusal's number is counted in, bit 32.
const REFUSED: u64 = 9223372036854775808;

const NUMBER: u64 = 4294967296;

// An answer as a number.
fn pack(a: Answer) -> u64
    requires { Short (answer_as a) }
    ensures value { result ≡ packed (answer_as a) }
    ensures result_value { unpacked result ≡ answer_as a }
{
    match a {
        Ok(n) => n as u64,
        Err(refused) => {
            let number = u64::from(u8::from(refused.refusal));
            REFUSED + number * NUMBER + u64::from(refused.line)
        }
    }
}

// In the first edition, document 01's: the reading's length in bytes where the text is read; else bit 63, the refusal's number in bits 32 to 39 and its line in bits 0 to 31.
pub fn abc_parse(text: &[u8], reading: &mut [u8], scratch: &mut [u8]) -> u64
    ensures value { result ≡ packed (answer_of (parse_abc First text.now (length reading.old) (length scratch.old)).verdict) }
    ensures result_value { unpacked result ≡ answer_of (parse_abc First text.now (length reading.old) (length scratch.old)).verdict }
    ensures reading_after { reading.new ≡ (parse_abc First text.now (length reading.old) (length scratch.old)).reading }
    ensures scratch_after { scratch.new ≡ (parse_abc First text.now (length reading.old) (length scratch.old)).scratch }
{
    pack(abc_text::parse_abc(text, reading, scratch, Edition::First))
}

// The same in the second edition, ABC 2.1's (document 02, T-03).
pub fn abc_parse_2_1(text: &[u8], reading: &mut [u8], scratch: &mut [u8]) -> u64
    ensures value { result ≡ packed (answer_of (parse_abc Second text.now (length reading.old) (length scratch.old)).verdict) }
    ensures result_value { unpacked result ≡ answer_of (parse_abc Second text.now (length reading.old) (length scratch.old)).verdict }
    ensures reading_after { reading.new ≡ (parse_abc Second text.now (length reading.old) (length scratch.old)).reading }
    ensures scratch_after { scratch.new ≡ (parse_abc Second text.now (length reading.old) (length scratch.old)).scratch }
{
    pack(abc_text::parse_abc(text, reading, scratch, Edition::Second))
}

// The measures of part `part`, from 1, of a reading as they are played: the list's length in bytes, or a refusal, packed as abc_parse packs them.
pub fn abc_played(reading: &[u8], part: u32, list: &mut [u8]) -> u64
    ensures value { result ≡ packed (played_measures reading.now part (length list.old)).answer }
    ensures result_value { unpacked result ≡ (played_measures reading.now part (length list.old)).answer }
    ensures list_after { list.new ≡ (played_measures reading.now part (length list.old)).store }
{
    pack(reading_played::played_measures(reading, part, list))
}

// Whether the bytes are a whole reading, to their end.
pub fn abc_is_whole(reading: &[u8]) -> bool
    ensures { result ≡ is_whole reading.now }
{
    reading_whole::is_whole(reading)
}

// The version of what the calls promise; include/abc.h has the same as ABC_VERSION.
pub fn abc_version() -> u64
    ensures { result ≡ version }
{
    6000
}
