// The tally's text, written into a store: numbers in decimal, a line for each part.
#![tactic(auto)]

ghost use Rattle.std.specs.Prelude.{◌≡◌, ◌+◌, ◌*◌, ◌≤◌, length};
ghost use Rattle.laws.specs.Bytes.{u32_at};
ghost use Rattle.reader.specs.Tally as tally;
ghost use Rattle.reading_records.specs.Widths.{first_part};
ghost use Rattle.reading_sections.specs.Sections.{PartsWithin};
ghost use Rattle.tally_counts.specs.Counted.{counts_from};
ghost use Rattle.tally_text.specs.Printed.{decimal, field, line, lines, parts_text, refused_text, out_bytes, Adds};

use tally_counts::Counts;

// Puts the bytes of src at `at`; where they end.
pub fn append_bytes(out: &mut [u8], at: usize, src: &[u8]) -> usize
    requires { at + length src.now ≤ length out.old }
    ensures adds { Adds out.old at src.now out.new result }
    ensures value { result ≡ at + length src.now }
{
    let n = src.len();
    store::copy(src, 0, out, at, n);
    at + n
}

// Puts n in decimal digits.
fn append_decimal(out: &mut [u8], at: usize, n: u64) -> usize
    requires { at + 20 ≤ length out.old }
    ensures { Adds out.old at (decimal n) out.new result }
{
    let mut digits = [0u8; 20];
    let k = io::decimal(n, &mut digits);
    append_bytes(out, at, &digits[..k])
}

// Puts a word and a number.
fn append_field(out: &mut [u8], at: usize, word: &[u8], n: u64) -> usize
    requires { at + length word.now + 20 ≤ length out.old }
    ensures adds { Adds out.old at (field word.now n) out.new result }
    ensures upper_bound { result ≤ at + length word.now + 20 }
{
    let behind = append_bytes(out, at, word);
    append_decimal(out, behind, n)
}

// Puts the line of part number i.
fn append_line(out: &mut [u8], at: usize, i: u64, c: Counts) -> usize
    requires { at + 143 ≤ length out.old }
    ensures { Adds out.old at (line i (record { measures = c.measures; sounded = c.sounded; rests = c.rests; syllables = c.syllables })) out.new result }
{
    let a = append_field(out, at, b"part ", i);
    let b = append_field(out, a, b" measures ", c.measures as u64);
    let d = append_field(out, b, b" sounded ", c.sounded as u64);
    let e = append_field(out, d, b" rests ", c.rests as u64);
    let f = append_field(out, e, b" syllables ", c.syllables as u64);
    append_bytes(out, f, b"\n")
}

// Puts the lines of the n parts of the reading.
fn append_lines(reading: &[u8], n: usize, out: &mut [u8], at: usize) -> usize
    requires parts_within { PartsWithin reading.now first_part n }
    requires room { at + 143 * n ≤ length out.old }
    ensures { Adds out.old at (lines 1 (counts_from reading.now first_part n)) out.new result }
{
    let mut end = at;
    let mut place = reading_records::FIRST_PART;
    for i in 0..n {
        let c = tally_counts::count_part(reading, place);
        end = append_line(out, end, (i + 1) as u64, c);
        place = c.end;
    }
    end
}

// Puts the tally of a reading.
pub fn append_reading(reading: &[u8], out: &mut [u8]) -> usize
    requires first_part_in_bounds { (first_part ≤ length reading.now) × (u32_at reading.now 0 ≤ 32) × PartsWithin reading.now first_part (u32_at reading.now 0) }
    requires out_bytes_in_bounds { out_bytes ≤ length out.old }
    ensures { Adds out.old 0 (parts_text (u32_at reading.now 0) (counts_from reading.now first_part (u32_at reading.now 0))) out.new result }
{
    let n = store::get_u32(reading, 0);
    let a = append_field(out, 0, b"parts ", n as u64);
    let b = append_bytes(out, a, b"\n");
    append_lines(reading, n as usize, out, b)
}

// Puts a refusal.
pub fn append_refusal(out: &mut [u8], n: u8, l: u32) -> usize
    requires { out_bytes ≤ length out.old }
    ensures { Adds out.old 0 (refused_text n l) out.new result }
{
    let a = append_field(out, 0, b"refused ", u64::from(n));
    let b = append_field(out, a, b" ", u64::from(l));
    append_bytes(out, b, b"\n")
}
