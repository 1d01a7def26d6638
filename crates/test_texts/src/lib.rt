// Replays answers to whole texts in an edition, and prints how many there are and how many differ: the programs test_replay and test_editions.
//
// A row, in hex digits on standard input, two to a byte; other characters count for nothing:
//   2 bytes   length of the text
//   4 bytes   length of the reading store
//   1 byte    number of the refusal, 0 where the text is read
//   4 bytes   line of the refusal, or length of the reading
//   the text
//   the reading, where there is one
// Both stores are full of noise before each call. What is compared: the answer, every byte of the reading store, and that scratch is all zeros.
#![tactic(auto)]

ghost use Rattle.std.specs.Prelude.{◌+◌, ◌≤◌, ◌<◌, length};

use editions::Edition;
use reading_answers::Answer;
use std::io::{Read, Result};
use test_rows::{
    Counts, decode, fill, holds, is_clear, number, print_counts, short_number, with_row,
};

// The length of the row that `rows` begins with.
fn row_length(rows: &[u8]) -> usize
    requires { 11 ≤ length rows.now }
    ensures { (11 ≤ result) × (result < 4295032843) }
{
    let text = 11 + short_number(rows, 0);
    if rows[6] == 0 {
        text + number(rows, 7)
    } else {
        text
    }
}

// THE ANSWERS

// The answer is the row's.
fn is_answer(answer: Answer, refusal: u8, number: usize) -> bool {
    match answer {
        Ok(n) => refusal == 0 && n == number,
        Err(refused) => u8::from(refused.refusal) == refusal && refused.line as usize == number,
    }
}

// A text is answered as it should be, in a reading store of just the row's length.
fn answers(
    edition: Edition,
    text: &[u8],
    want: &[u8],
    refusal: u8,
    number: usize,
    reading: &mut [u8],
    scratch: &mut [u8],
) -> bool {
    fill(reading);
    fill(scratch);
    let answer = abc_text::parse_abc(text, reading, scratch, edition);
    is_answer(answer, refusal, number) && holds(reading, want) && is_clear(scratch, 0)
}

// A row's answer is the reader's.
fn agrees(edition: Edition, row: &[u8], reading: &mut [u8], scratch: &mut [u8]) -> bool
    requires { 11 ≤ length row.now }
{
    let end = 11 + short_number(row, 0);
    let room = number(row, 2);
    if row.len() < end {
        return false;
    }
    if reading.len() < room {
        return false;
    }
    answers(
        edition,
        &row[11..end],
        &row[end..],
        row[6],
        number(row, 7),
        &mut reading[..room],
        scratch,
    )
}

// THE REPLAY

fn replay(
    rt: &impl Print,
    edition: Edition,
    rows: &[u8],
    reading: &mut [u8],
    scratch: &mut [u8],
) -> Result<Counts> {
    let mut c = Counts { rows: 0, differ: 0 };
    let mut at: usize = 0;
    while 11 <= rows.len() - at {
        let n = row_length(&rows[at..]);
        if rows.len() - at < n {
            return Ok(c);
        }
        let end = at + n;
        c = with_row(rt, c, agrees(edition, &rows[at..end], reading, scratch))?;
        at = end;
    }
    Ok(c)
}

// The rows that the input gives.
pub fn run<R: Read>(rt: &impl Print, input: &mut R, edition: Edition) -> Result<()> {
    let mut text = [0u8; 393216];
    let n = tally_input::read_full(input, &mut text)?;
    let mut rows = [0u8; 196608];
    let m = decode(&text[..n], &mut rows);
    let mut reading = [0u8; 41216];
    let mut scratch = io::large_buffer();
    let counts = replay(rt, edition, &rows[..m], &mut reading, &mut scratch)?;
    print_counts(rt, counts)
}
