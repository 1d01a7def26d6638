// Replays a fixed sample of the second implementation's answers: lists of measures as they are played, and which readings are whole. Prints how many answers there are and how many differ.
//
// A row, in hex digits on standard input, two to a byte; other characters count for nothing:
//   2 bytes   length of the reading
//   4 bytes   number of the part
//   2 bytes   length of the list's store
//   1 byte    1 where the reading is whole, else 0
//   1 byte    number of the refusal, 0 where the part is listed
//   2 bytes   length of the list, 0 where it is refused
//   the reading
//   the list
// The store is full of noise before each call. What is compared: both answers, and every byte of the store.
#![tactic(auto)]

ghost use Rattle.std.specs.Prelude.{◌+◌, ◌≤◌, ◌<◌, length};

use reading_answers::Answer;
use std::io::Result;
use test_rows::{Counts, decode, fill, holds, number, print_counts, short_number, with_row};

// The length of the row that `rows` begins with.
fn row_length(rows: &[u8]) -> usize
    requires { 12 ≤ length rows.now }
    ensures { (12 ≤ result) × (result < 131084) }
{
    12 + short_number(rows, 0) + short_number(rows, 10)
}

// The answer is the row's. No refusal has a line.
fn is_answer(answer: Answer, refusal: u8, n: usize) -> bool {
    match answer {
        Ok(m) => refusal == 0 && m == n,
        Err(refused) => u8::from(refused.refusal) == refusal && refused.line == 0,
    }
}

// A part is answered as it should be, in a store of just the row's length.
fn answers(
    reading: &[u8],
    part: u32,
    want: &[u8],
    refusal: u8,
    is_whole: bool,
    list: &mut [u8],
) -> bool {
    fill(list);
    let answer = reading_played::played_measures(reading, part, list);
    is_answer(answer, refusal, want.len())
        && holds(list, want)
        && reading_whole::is_whole(reading) == is_whole
}

// A row's answers are the second implementation's.
fn agrees(row: &[u8], list: &mut [u8]) -> bool
    requires { 12 ≤ length row.now }
{
    let end = 12 + short_number(row, 0);
    let room = short_number(row, 6);
    if row.len() < end {
        return false;
    }
    if list.len() < room {
        return false;
    }
    answers(
        &row[12..end],
        number(row, 2) as u32,
        &row[end..],
        row[9],
        row[8] == 1,
        &mut list[..room],
    )
}

fn replay(rt: &impl Print, rows: &[u8], list: &mut [u8]) -> Result<Counts> {
    let mut c = Counts { rows: 0, differ: 0 };
    let mut at: usize = 0;
    while 12 <= rows.len() - at {
        let n = row_length(&rows[at..]);
        if rows.len() - at < n {
            return Ok(c);
        }
        let end = at + n;
        c = with_row(rt, c, agrees(&rows[at..end], list))?;
        at = end;
    }
    Ok(c)
}

fn main(rt: HostRuntime) -> Result<()> {
    let mut text = [0u8; 196608];
    let n = tally_input::read_full(&mut rt.stdin(), &mut text)?;
    let mut rows = [0u8; 98304];
    let m = decode(&text[..n], &mut rows);
    let mut list = [0u8; 4096];
    let counts = replay(&rt, &rows[..m], &mut list)?;
    print_counts(&rt, counts)
}
