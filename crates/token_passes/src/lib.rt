// Pass lists of endings behind `[`: numbers 1 to 32 without leading zero, or a-b with a below b, strictly rising, commas between; and by which refusal what is none is refused.
#![tactic(auto)]

ghost use Rattle.std.specs.Prelude.{◌≡◌, cond, ◌&&◌, suc, ◌+◌, ◌-◌, ◌≤◌, ◌<◌, drop};
ghost use Rattle.laws.specs.Spans.{run, end_of};
ghost use Rattle.standard.specs.Bytes.{is_digit};
ghost use Rattle.standard.specs.Passes.{rising};
ghost use Rattle.reader.specs.PassLists.{list_number, is_pass_byte};
ghost use Rattle.reader.specs.PassesInTurn.{pass_number, list_fault};
ghost use Rattle.reader.specs.Records.{pass_bits};
ghost use Rattle.refusals.specs.Numbers.{number_of};
ghost use Rattle.token_passes.specs.Passes.{pass_for, is_item_byte, item_at, item_for, passes_at, passes_for, first_for};
ghost use Rattle.token_passes.specs.Faults.{number_shape, list_item_at, item_shape, list_items_at};

use refusals::Refusal;
use text_bytes::Read;
use text_numbers::NumberError;

const LAST_PASS: u64 = 32;

// The passes from one to another, or to itself.
#[derive(Clone, Copy)]
struct Item {
    from: u8,
    to: u8,
}

// The first pass, and pass p as bit p - 1.
#[derive(Clone, Copy, Debug, PartialEq, Eq)]
pub struct Passes {
    pub first: u8,
    pub bits: u32,
}

// A number of 1 to 32.
fn pass_number(line: &[u8], at: usize) -> Option<Read<u8>>
    ensures { result ≡ pass_for (end_of is_digit line.now at) (pass_number (run is_digit (drop at line.now))) }
{
    if text_bytes::byte_at(line, at) == b'0' {
        return None;
    }
    let read = text_numbers::read_number(line, at, LAST_PASS);
    let Ok(value) = read.value else {
        return None;
    };
    Some(Read {
        value: value as u8,
        next: read.next,
    })
}

// A pass, or two with a hyphen between; above `low`.
fn pass_item(line: &[u8], at: usize, low: u8) -> Option<Read<Item>>
    ensures { result ≡ item_for (end_of is_item_byte line.now at) (item_at low line.now at) }
{
    let first = pass_number(line, at)?;
    let from = first.value;
    if from <= low {
        return None;
    }
    if text_bytes::byte_at(line, first.next) != b'-' {
        return Some(Read {
            value: Item { from, to: from },
            next: first.next,
        });
    }
    let last = pass_number(line, first.next + 1)?;
    let to = last.value;
    if to <= from {
        return None;
    }
    if text_bytes::byte_at(line, last.next) == b'-' {
        return None;
    }
    Some(Read {
        value: Item { from, to },
        next: last.next,
    })
}

// The passes from one to another as bits.
fn range_bits(from: u8, to: u8) -> u64
    requires { (1 ≤ from) × (from ≤ to) × (to ≤ 32) }
    ensures { result ≡ pass_bits (rising from (suc (to - from))) }
{
    (1u64 << to) - (1u64 << (from - 1))
}

// The first pass, 0 where none was met before.
fn first_of(first: u8, from: u8) -> u8
    ensures { result ≡ first_for first from }
{
    if first == 0 {
        return from;
    }
    first
}

// The pass list at `at`, behind the `[`; or none (refused as `list_fault` says). Items are read at one place, so that the compiler draws the reading of one into the loop.
pub fn parse_passes(line: &[u8], at: usize) -> Option<Read<Passes>>
    ensures { result ≡ passes_for (end_of is_pass_byte line.now at) (passes_at 0 line.now at) }
{
    let mut first: u8 = 0;
    let mut bits: u64 = 0;
    let mut low: u8 = 0;
    let mut i = at;
    loop {
        let item = pass_item(line, i, low)?;
        first = first_of(first, item.value.from);
        bits += range_bits(item.value.from, item.value.to);
        let goes_on = text_bytes::byte_at(line, item.next) == b',';
        if !goes_on {
            return Some(Read {
                value: Passes {
                    first,
                    bits: bits as u32,
                },
                next: item.next,
            });
        }
        low = item.value.to;
        i = item.next + 1;
    }
}

// Whether the number is one of 1 to 32: a number of any length without leading zero, or a 0 by itself. None where it is misshapen.
fn number_shape(line: &[u8], at: usize) -> Option<Read<bool>>
    ensures { result ≡ number_shape (end_of is_digit line.now at) (list_number (run is_digit (drop at line.now))) }
{
    let number = text_numbers::read_number(line, at, LAST_PASS);
    let next = number.next;
    if text_bytes::byte_at(line, at) == b'0' {
        if 1 < next - at {
            return None;
        }
        return Some(Read { value: false, next });
    }
    match number.value {
        Ok(_) => Some(Read { value: true, next }),
        Err(error) => match error {
            NumberError::Empty => None,
            NumberError::TooLarge => Some(Read { value: false, next }),
        },
    }
}

// As a function, so that what calls it has one way on and not two.
fn both(a: bool, b: bool) -> bool
    ensures { result ≡ (a && b) }
{
    a && b
}

// Whether the numbers of an item are of 1 to 32: a number, or two with one hyphen between. None where it is misshapen.
fn item_shape(line: &[u8], at: usize) -> Option<Read<bool>>
    ensures { result ≡ item_shape (end_of is_item_byte line.now at) (list_item_at line.now at) }
{
    let first = number_shape(line, at)?;
    if text_bytes::byte_at(line, first.next) != b'-' {
        return Some(first);
    }
    let second = number_shape(line, first.next + 1)?;
    if text_bytes::byte_at(line, second.next) == b'-' {
        return None;
    }
    Some(Read {
        value: both(first.value, second.value),
        next: second.next,
    })
}

// The refusal of a list that is well shaped: 17 by a number out of range, else 18.
fn range_or_order(in_range: bool) -> Refusal
    ensures { number_of result ≡ cond in_range 18 17 }
{
    if in_range {
        Refusal::PassOrder
    } else {
        Refusal::PassRange
    }
}

// The refusal of the list at `at`, behind the `[`, which `parse_passes` does not read: 14 by the shape of the whole list, whatever its numbers are; 17 by a number out of range; else 18, for its numbers do not rise.
pub fn list_fault(line: &[u8], at: usize) -> Refusal
    ensures { number_of result ≡ list_fault (list_items_at line.now at) }
{
    let mut in_range = true;
    let mut i = at;
    loop {
        let Some(shape) = item_shape(line, i) else {
            return Refusal::Passes;
        };
        in_range = both(in_range, shape.value);
        if text_bytes::byte_at(line, shape.next) != b',' {
            return range_or_order(in_range);
        }
        i = shape.next + 1;
    }
}
