// What the programs that replay a sample of answers share: rows in hex digits, stores full of noise, and the counts that are printed.
#![tactic(auto)]

ghost use Rattle.std.specs.Prelude.{◌+◌, ◌≤◌, ◌<◌, IfSome, length};

use std::io::Result;

// How many rows there are, and how many of them differ.
#[derive(Clone, Copy)]
pub struct Counts {
    pub rows: u32,
    pub differ: u32,
}

// Bytes decoded so far, and the first of two digits, if one waits.
#[derive(Clone, Copy)]
struct Decoded {
    high: Option<u8>,
    n: usize,
}

// THE SAMPLE

// The value of a hex digit; none for any other byte.
fn digit(b: u8) -> Option<u8>
    ensures { IfSome result (λ d. d < 16) }
{
    match b {
        b'0'..=b'9' => Some(b - b'0'),
        b'a'..=b'f' => Some(b - b'a' + 10),
        _ => None,
    }
}

// One digit more: the second of two writes a byte, as long as `out` has room.
fn with_digit(out: &mut [u8], s: Decoded, d: u8) -> Decoded
    requires { IfSome s.high (λ high. high < 16) × (s.n ≤ length out.old) × (d < 16) }
    ensures { IfSome result.high (λ high. high < 16) × (result.n ≤ length out.new) }
{
    let Some(high) = s.high else {
        return Decoded {
            high: Some(d),
            n: s.n,
        };
    };
    if s.n < out.len() {
        out[s.n] = high * 16 + d;
        return Decoded {
            high: None,
            n: s.n + 1,
        };
    }
    Decoded { high: None, n: s.n }
}

// The bytes that hex digits write, as many as `out` can hold; how many.
pub fn decode(text: &[u8], out: &mut [u8]) -> usize
    ensures { result ≤ length out.new }
{
    let mut s = Decoded { high: None, n: 0 };
    for b in text {
        if let Some(d) = digit(*b) {
            s = with_digit(out, s, d);
        }
    }
    s.n
}

// The number of 16 bits at a position.
pub fn short_number(row: &[u8], at: usize) -> usize
    requires { at + 2 ≤ length row.now }
    ensures { result < 65536 }
{
    usize::from(row[at]) * 256 + usize::from(row[at + 1])
}

// The number of 32 bits at a position.
pub fn number(row: &[u8], at: usize) -> usize
    requires { at + 4 ≤ length row.now }
    ensures { result < 4294967296 }
{
    let high = short_number(row, at);
    let low = short_number(row, at + 2);
    high * 65536 + low
}

// THE STORES

// The next byte of noise, never 0.
fn noise(b: u8) -> u8
    ensures { 1 ≤ result }
{
    if b < 250 { b + 5 } else { b - 249 }
}

// A store full of noise.
pub fn fill(store: &mut [u8]) {
    let mut b: u8 = 165;
    for byte in store.iter_mut() {
        *byte = b;
        b = noise(b);
    }
}

// All bytes from `from` on are zeros.
pub fn is_clear(store: &[u8], from: usize) -> bool {
    store.iter().skip(from).all(|b| *b == 0)
}

// The store holds these bytes, and zeros behind them.
pub fn holds(store: &[u8], want: &[u8]) -> bool {
    store.starts_with(want) && is_clear(store, want.len())
}

// THE COUNTS

// One row more; one that differs is printed by its number, the first being 1.
pub fn with_row(rt: &impl Print, c: Counts, agreed: bool) -> Result<Counts> {
    let rows = c.rows.saturating_add(1);
    if agreed {
        return Ok(Counts {
            rows,
            differ: c.differ,
        });
    }
    println!(rt; "row {rows} differs")?;
    Ok(Counts {
        rows,
        differ: c.differ.saturating_add(1),
    })
}

pub fn print_counts(rt: &impl Print, c: Counts) -> Result<()> {
    let Counts { rows, differ } = c;
    println!(rt; "{rows} answers, {differ} differ")
}
