// The program `tally`: a text in, its tally out.
#![tactic(auto)]

ghost use Rattle.std.specs.Prelude.{◌≡◌, ◌≤◌, length, take, drop};
ghost use Rattle.io.specs.Counts as io_counts;
ghost use Rattle.tally_text.specs.Printed.{reading_bytes, scratch_bytes, out_bytes, printed, reading_left, scratch_left};

use editions::Edition;
use std::io::{Read, Result};

// The longest input that is read.
const MOST_INPUT: usize = 1792;
// The stores of reading and of what is printed, in bytes; scratch is `io::large_buffer`'s.
const READING: usize = 41216;

const OUT: usize = 8192;

// Puts into `out` what the program prints for an input; how many bytes. The rest of `out` is as it was; the other stores are as `parse_abc` leaves them, and as they
// were where the input is too long.
pub fn tally(input: &[u8], reading: &mut [u8], scratch: &mut [u8], out: &mut [u8]) -> usize
    requires { (length reading.old ≡ reading_bytes) × (length scratch.old ≡ scratch_bytes) × (out_bytes ≤ length out.old) }
    ensures prefix_len { io_counts.IsPrefixLen result out.new }
    ensures out_after { take result out.new ≡ printed input.now }
    ensures out_unchanged { drop result out.new ≡ drop result out.old }
    ensures reading_after { reading.new ≡ reading_left input.now reading.old }
    ensures scratch_after { scratch.new ≡ scratch_left input.now scratch.old }
{
    if MOST_INPUT < input.len() {
        return tally_text::append_bytes(out, 0, b"too long\n");
    }
    match abc_text::parse_abc(input, reading, scratch, Edition::First) {
        Ok(_) => tally_text::append_reading(reading, out),
        Err(refused) => { tally_text::append_refusal(out, u8::from(refused.refusal), refused.line) }
    }
}

// The tally of what is read from `input`, to standard output. One byte more than the longest input is read, to tell a longer one. A read that fails is an error and
// not the input's end: it is said on standard error, and nothing is printed. What cannot be written is an error of the call.
pub fn run<R: Read>(rt: &(impl Print + Eprint), input: &mut R) -> Result<()> {
    let mut text = [0u8; MOST_INPUT + 1];
    match tally_input::read_full(input, &mut text) {
        Ok(n) => print_tally(rt, &text[..n]),
        Err(e) => eprintln!(rt; "tally: the input cannot be read: {e}"),
    }
}

// Prints the tally of an input.
fn print_tally(rt: &impl Print, input: &[u8]) -> Result<()> {
    let mut reading = [0u8; READING];
    let mut scratch = io::large_buffer();
    let mut out = [0u8; OUT];
    let k = tally(input, &mut reading, &mut scratch, &mut out);
    rt.write_all(&out[..k])
}
