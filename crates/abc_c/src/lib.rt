// The static library that C callers link (libabc.a, include/abc.h): the calls of crate abc under their names in C, and nothing else.
#![tactic(auto)]

ghost use Rattle.std.specs.Prelude.{◌≡◌, List, ℕ, length};
ghost use Rattle.editions.specs.declared.Edition.TheVariants.{First, Second};
ghost use Rattle.reader.specs.Answer.{parse_abc, answer_of};
ghost use Rattle.reading_whole.specs.Whole.{is_whole};
ghost use Rattle.reading_walk.specs.Played.{played_measures};
ghost use Rattle.abc.specs.Packed.{packed, unpacked, Short, version};

// In the first edition, document 01's: the reading's length in bytes where the text is read; else bit 63, the refusal's number in bits 32 to 39 and its line in bits 0 to 31.
#[unsafe(no_mangle)]
pub extern "C" fn abc_parse(text: &[u8], reading: &mut [u8], scratch: &mut [u8]) -> u64
    ensures value { result ≡ packed (answer_of (parse_abc First text.now (length reading.old) (length scratch.old)).verdict) }
    ensures result_value { unpacked result ≡ answer_of (parse_abc First text.now (length reading.old) (length scratch.old)).verdict }
    ensures reading_after { reading.new ≡ (parse_abc First text.now (length reading.old) (length scratch.old)).reading }
    ensures scratch_after { scratch.new ≡ (parse_abc First text.now (length reading.old) (length scratch.old)).scratch }
{
    abc::abc_parse(text, reading, scratch)
}

// The same in the second edition, ABC 2.1's (document 02, T-03).
#[unsafe(no_mangle)]
pub extern "C" fn abc_parse_2_1(text: &[u8], reading: &mut [u8], scratch: &mut [u8]) -> u64
    ensures value { result ≡ packed (answer_of (parse_abc Second text.now (length reading.old) (length scratch.old)).verdict) }
    ensures result_value { unpacked result ≡ answer_of (parse_abc Second text.now (length reading.old) (length scratch.old)).verdict }
    ensures reading_after { reading.new ≡ (parse_abc Second text.now (length reading.old) (length scratch.old)).reading }
    ensures scratch_after { scratch.new ≡ (parse_abc Second text.now (length reading.old) (length scratch.old)).scratch }
{
    abc::abc_parse_2_1(text, reading, scratch)
}

// The measures of part `part`, from 1, of a reading as they are played: the list's length in bytes, or a refusal, packed as abc_parse packs them.
#[unsafe(no_mangle)]
pub extern "C" fn abc_played(reading: &[u8], part: u32, list: &mut [u8]) -> u64
    ensures value { result ≡ packed (played_measures reading.now part (length list.old)).answer }
    ensures result_value { unpacked result ≡ (played_measures reading.now part (length list.old)).answer }
    ensures list_after { list.new ≡ (played_measures reading.now part (length list.old)).store }
{
    abc::abc_played(reading, part, list)
}

// Whether the bytes are a whole reading, to their end.
#[unsafe(no_mangle)]
pub extern "C" fn abc_is_whole(reading: &[u8]) -> bool
    ensures { result ≡ is_whole reading.now }
{
    abc::abc_is_whole(reading)
}

// The version of what the calls promise; include/abc.h has the same as ABC_VERSION.
#[unsafe(no_mangle)]
pub extern "C" fn abc_version() -> u64
    ensures { result ≡ version }
{
    abc::abc_version()
}
