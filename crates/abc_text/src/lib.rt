// `parse_abc`: the text is tested, its lines are scanned, and its parts are built and written one behind the other. Whatever the answer, all of
// scratch is zeros after the call, and so is the reading store behind the reading, or all of it where there is none.
#![tactic(auto)]

ghost use Rattle.std.specs.Prelude.{◌≡◌, List, ℕ, ◌+◌, ◌*◌, ◌^◌, ◌≤◌, ◌<◌, max, length};
ghost use Rattle.reader.specs.Text.{text_lines};
ghost use Rattle.reader.specs.Scan.{scan};
ghost use Rattle.reader.specs.Answer.{scratch_needed, refused_with, scanned, parse_abc, answer_of};
ghost use Rattle.refusals.specs.Numbers.{number_of};
ghost use Rattle.field_keys.specs.Passed.{key_as};
ghost use Rattle.scan_table.specs.Rows.{items_in};
ghost use Rattle.store_sections.specs.Writes.{WroteIs};
ghost use Rattle.scan.specs.Scanned.{Done};
ghost use Rattle.abc_answers.specs.Parts.{parts_of, bytes_of};
ghost use Rattle.reading_answers.specs.Answers.{answer_as};
ghost use Rattle.abc_text.specs.Answers.{Parsed, EarlyIs, Rooms};

use editions::Edition;
use field_keys::Key;
use reading_answers::Answer;
use refusals::{Refusal, Refused};
use scan::Shared;

// The tests before a text's first line: TooLong, NotUtf8, NoMusic for a blank text, and ScratchShort, in this order; `room` is the scratch store's length.
fn test_text(text: &[u8], room: usize) -> Result<(), Refusal>
    ensures { EarlyIs text.now room result }
{
    if 67108864 < text.len() {
        return Err(Refusal::TooLong);
    }
    if !text_utf8::is_utf8(text) {
        return Err(Refusal::NotUtf8);
    }
    if text_white::is_blank(text) {
        return Err(Refusal::NoMusic);
    }
    if room < 32 * (text.len() + 256) {
        return Err(Refusal::ScratchShort);
    }
    Ok(())
}

// A refusal: both stores are zeros.
fn refuse(reading: &mut [u8], scratch: &mut [u8], refused: Refused) -> Answer
    ensures { Parsed (refused_with (number_of refused.refusal) refused.line (length reading.old) (length scratch.old)) result reading.new scratch.new }
{
    store::clear(reading, 0);
    store::clear(scratch, 0);
    Err(refused)
}

// One part for each voice, one at least.
fn count_parts(voices: usize) -> u8
    requires { voices ≤ 32 }
    ensures { result ≡ max 1 voices }
{
    if voices == 0 { 1 } else { voices as u8 }
}

// The sections of the parts 0 up to count, each part's where the last one's ended. A part is read from its own items.
fn append_parts(
    edition: Edition,
    text: &[u8],
    scratch: &mut [u8],
    n: usize,
    count: u8,
    key: Key,
    to: &mut [u8],
) -> Option<usize>
    requires { Rooms text.now scratch.old n }
    ensures { WroteIs to.old (parts_of edition (key_as key) (items_in text.now scratch.old n) count) to.new result }
{
    let mut at = 0;
    for part in 0..count {
        let own = scan_parts::own_items(text, scratch, n, part, count);
        let from = own.at;
        at += abc_parts::write_part(
            edition,
            text,
            &mut scratch[from..],
            own.count,
            part,
            key,
            &mut to[at..],
        )?;
    }
    Some(at)
}

// The count of parts and, where that ended, the parts.
fn write_parts(
    edition: Edition,
    text: &[u8],
    scratch: &mut [u8],
    n: usize,
    count: u8,
    key: Key,
    to: &mut [u8],
) -> Option<usize>
    requires { Rooms text.now scratch.old n }
    ensures { WroteIs to.old (bytes_of edition (key_as key) (items_in text.now scratch.old n) count) to.new result }
{
    let at = store_sections::write_u32(to, count as u32)?;
    let m = append_parts(edition, text, scratch, n, count, key, &mut to[at..])?;
    Some(at + m)
}

// After the scan: NoMusic where there is no measure, ReadingShort where the reading has no room; else it is written.
fn finish(
    edition: Edition,
    text: &[u8],
    reading: &mut [u8],
    scratch: &mut [u8],
    h: Shared,
) -> Answer
    requires done { Done edition text.now scratch.old h }
    requires text_len_bound { (length text.now ≤ 67108864) × (scratch_needed (length text.now) ≤ length scratch.old) }
    ensures { Parsed (scanned edition (length reading.old) (length scratch.old) (scan edition (text_lines text.now))) result reading.new scratch.new }
{
    if !h.music {
        return refuse(
            reading,
            scratch,
            Refused {
                refusal: Refusal::NoMusic,
                line: 0,
            },
        );
    }
    let count = count_parts(h.voices);
    let key = h.key;
    let w = write_parts(edition, text, scratch, h.items, count, key, reading);
    store::clear(scratch, 0);
    store_sections::seal(reading, w);
    w.ok_or(Refused {
        refusal: Refusal::ReadingShort,
        line: 0,
    })
}

// The whole of it: any bytes, stores of any length, in the edition that the caller names.
pub fn parse_abc(text: &[u8], reading: &mut [u8], scratch: &mut [u8], edition: Edition) -> Answer
    ensures result_value { answer_as result ≡ answer_of (parse_abc edition text.now (length reading.old) (length scratch.old)).verdict }
    ensures reading_after { reading.new ≡ (parse_abc edition text.now (length reading.old) (length scratch.old)).reading }
    ensures scratch_after { scratch.new ≡ (parse_abc edition text.now (length reading.old) (length scratch.old)).scratch }
{
    match test_text(text, scratch.len()) {
        Err(refusal) => refuse(reading, scratch, Refused { refusal, line: 0 }),
        Ok(()) => match scan::scan_lines(edition, text, scratch) {
            Err(refused) => refuse(reading, scratch, refused),
            Ok(h) => finish(edition, text, reading, scratch, h),
        },
    }
}
