// The measures of a part of a reading in the order in which a player walks them: a count, then the numbers.
#![tactic(auto)]

ghost use Rattle.std.specs.Prelude.{◌≡◌, true, ◌<◌, length};
ghost use Rattle.laws.specs.Bytes.{u32_at};
ghost use Rattle.reading_records.specs.Widths.{first_part};
ghost use Rattle.refusals.specs.Numbers.{number_of};
ghost use Rattle.reading_answers.specs.Answers.{answer_as};
ghost use Rattle.reading_sections.specs.Sections.{part_at};
ghost use Rattle.reading_whole.specs.Whole.{is_whole};
ghost use Rattle.reading_walk.specs.Played.{has_part, listed_in, played_measures, refused_with};
ghost use Rattle.reading_passes.specs.Walks.{all_of};

use reading_answers::Answer;
use reading_bars::Part;
use refusals::{Refusal, Refused};

// Where part q begins, from 0.
fn part_at(reading: &[u8], q: usize) -> usize
    requires { (is_whole reading.now ≡ true) × (q < u32_at reading.now 0) }
    ensures { result ≡ part_at reading.now first_part q }
{
    let mut at = reading_records::FIRST_PART;
    for i in 0..q {
        at = reading_sections::part_end(reading, at);
    }
    at
}

// A refusal, which no line brings about: the store is zeros.
fn refuse(list: &mut [u8], refusal: Refusal) -> Answer
    ensures result_value { answer_as result ≡ (refused_with (number_of refusal) (length list.old)).answer }
    ensures list_after { list.new ≡ (refused_with (number_of refusal) (length list.old)).store }
{
    store::clear(list, 0);
    Err(Refused { refusal, line: 0 })
}

// Whether the bytes are a whole reading with a part of this number, from 1.
fn has_part(reading: &[u8], part: u32) -> bool
    ensures { result ≡ has_part reading.now part }
{
    if !reading_whole::is_whole(reading) {
        return false;
    }
    1 <= part && part <= store::get_u32(reading, 0)
}

// Writes the list of a part: its count, its numbers, then zeros. ListShort where it has no room.
fn write_list(part: &Part, list: &mut [u8]) -> Answer
    ensures result_value { answer_as result ≡ (listed_in (all_of part.now.reading.now part.now.at) (length list.old)).answer }
    ensures list_after { list.new ≡ (listed_in (all_of part.now.reading.now part.now.at) (length list.old)).store }
{
    if list.len() < reading_records::COUNT {
        return refuse(list, Refusal::ListShort);
    }
    let room = reading_list::room_of(list.len());
    let Some(count) = reading_passes::play(part, list, room) else {
        return refuse(list, Refusal::ListShort);
    };
    store::put_u32(list, 0, count as u32);
    let end = reading_records::COUNT + reading_records::COUNT * count;
    store::clear(list, end);
    Ok(end)
}

// The measures of part `part`, from 1, of a reading as they are played: a count, then the numbers. Answers the list's length in bytes, or NoSuchPart or ListShort.
pub fn played_measures(reading: &[u8], part: u32, list: &mut [u8]) -> Answer
    ensures result_value { answer_as result ≡ (played_measures reading.now part (length list.old)).answer }
    ensures list_after { list.new ≡ (played_measures reading.now part (length list.old)).store }
{
    if !has_part(reading, part) {
        return refuse(list, Refusal::NoSuchPart);
    }
    let at = part_at(reading, part as usize - 1);
    let part = Part {
        reading,
        at,
        measures: store::get_u32(reading, at) as usize,
    };
    write_list(&part, list)
}
