// The written value of a length: the search of the forty from the eighth outward, and what is answered before it.
#![tactic(auto)]

ghost use Rattle.std.specs.Prelude.{◌≡◌, ◌+◌, ◌-◌, ◌*◌, ◌<◌, ◌≤◌, ◌^◌, min, max, get_or};
ghost use Rattle.standard.specs.Lengths.{length_fraction, ticks, forty};
ghost use Rattle.reader.specs.Lengths.{quarter_note, written_as};
ghost use Rattle.reader.specs.Search.{search_in, outward, limit_of};
ghost use Rattle.token_lengths.specs.Values.{written, length_as};
ghost use Rattle.token_values.specs.Found.{fraction, found_as, frequent_of};

use token_lengths::Length;

// Past 2^43 parts every value is above every length of 32 bits: the bound keeps the products below in 64 bits.
const MOST_PARTS: u64 = 1 << 43;

// The size of a value with its dots, in 1024ths of a whole note.
fn size(value: u8, dots: u8) -> u64
    requires { (value < 10) × (dots < 4) }
    ensures { result ≡ ticks (written value dots) }
{
    (4096u64 >> (value + dots)) * ((2u64 << dots) - 1)
}

// What no search decides: denominator 0 gives a longa with 3 dots, 0/0 a plain longa, length 0 a plain quarter.
fn limit_value(num: u32, parts: u64) -> Option<Length>
    ensures { result ≡ found_as (limit_of (fraction num parts)) }
{
    match (num, parts) {
        (0, 0) => Some(Length::Written(0, 0)),
        (_, 0) => Some(Length::Written(0, 3)),
        (0, _) => Some(Length::Written(4, 0)),
        _ => None,
    }
}

// The values from a half to a sixteenth that are most frequent, where the length is that value exactly: told without the search, which answers the same.
fn frequent_value(num: u32, parts: u64) -> Option<Length>
    requires { parts ≤ 2 ^ 43 }
    ensures { result ≡ found_as (frequent_of (fraction num parts)) }
{
    let length = (num as u64) * 1024;
    if 128 * parts == length {
        return Some(Length::Written(5, 0));
    }
    if 256 * parts == length {
        return Some(Length::Written(4, 0));
    }
    if 64 * parts == length {
        return Some(Length::Written(6, 0));
    }
    if 512 * parts == length {
        return Some(Length::Written(3, 0));
    }
    if 192 * parts == length {
        return Some(Length::Written(5, 1));
    }
    if 384 * parts == length {
        return Some(Length::Written(4, 1));
    }
    None
}

// The ten values from the eighth outward, the longer of two equally far first.
// A match and no array, which would be stored again for each length (docs/DECISIONS.md, 107).
fn outward_value(k: u8) -> u8
    ensures { result ≡ get_or outward k 0 }
{
    match k {
        0 => 5,
        1 => 4,
        2 => 6,
        3 => 3,
        4 => 7,
        5 => 2,
        6 => 8,
        7 => 1,
        8 => 9,
        _ => 0,
    }
}

// The longest of the `count` shortest of the forty; a plain quarter where there are none.
fn longest_of(count: u8) -> Length
    requires { count ≤ 40 }
    ensures { result ≡ length_as (get_or forty (40 - count) quarter_note) }
{
    if count == 0 {
        return Length::Written(4, 0);
    }
    let place = 40 - count;
    Length::Written(place / 4, 3 - place % 4)
}

// The written value of num / parts of a whole note: the longest of the forty that is not above it.
// The search leaves both of its loops where the length is met exactly. Else the values below it are the shortest of the forty: how many they are tells the longest.
fn search_value(num: u32, parts: u64) -> Length
    requires { (0 < parts) × (parts ≤ 2 ^ 43) }
    ensures { result ≡ length_as (search_in outward (fraction num parts)) }
{
    let length = (num as u64) * 1024;
    let mut met = None;
    let mut below = 0u8;
    'search: for k in 0u8..10 {
        let value = outward_value(k);
        for dots in 0u8..4 {
            let scaled = size(value, dots) * parts;
            if scaled == length {
                met = Some(Length::Written(value, dots));
                break 'search;
            }
            if scaled < length {
                below += 1;
            }
        }
    }
    let Some(length) = met else {
        return longest_of(below);
    };
    length
}

// The written value of num / den of the unit, which is 1 / unit_den of a whole note.
pub fn abc_note_value(unit_den: u32, num: u32, den: u32) -> Length
    ensures { result ≡ length_as (written_as (length_fraction unit_den num den)) }
{
    let parts = (u64::from(den) * u64::from(unit_den.max(1))).min(MOST_PARTS);
    if let Some(length) = limit_value(num, parts) {
        return length;
    }
    if let Some(length) = frequent_value(num, parts) {
        return length;
    }
    search_value(num, parts)
}
