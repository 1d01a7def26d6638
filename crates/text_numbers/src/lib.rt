// Decimal numbers in a line: one digit loop for every width.
#![tactic(auto)]

ghost use Rattle.std.specs.Prelude.{◌≡◌, true, ◌+◌, ◌-◌, ◌*◌, get_or};
ghost use Rattle.standard.specs.Bytes.{is_digit, digits};
ghost use Rattle.reader.specs.Pieces.{numeral};
ghost use Rattle.text_bytes.specs.Options.{option};
ghost use Rattle.text_numbers.specs.Digits.{with_digit, at_most, number_at, most};

use text_bytes::Read;

// Why a run of digits is no number: there is none, or it is past the bound.
#[derive(Clone, Copy, Debug, PartialEq, Eq)]
pub enum NumberError {
    Empty,
    TooLarge,
}

// One digit more, up to 64 bits.
#[tactic(auto, unfolding(crate::specs::Digits::with_digit))]
fn with_digit(number: Result<u64, NumberError>, b: u8) -> Result<u64, NumberError>
    requires { is_digit b ≡ true }
    ensures { result ≡ with_digit number b }
{
    let digit = u64::from(b - b'0');
    match number {
        Err(NumberError::Empty) => Ok(digit),
        Err(NumberError::TooLarge) => number,
        Ok(n) => n
            .checked_mul(10)
            .and_then(|tens| tens.checked_add(digit))
            .ok_or(NumberError::TooLarge),
    }
}

// The digits at `at` as a number of up to 64 bits, and the position after them.
#[tactic(auto, using(crate::proofs::Numbers::reading_start, crate::proofs::Numbers::reading_end, crate::proofs::Numbers::reading_over, crate::proofs::Numbers::reading_past), unfolding(crate::specs::Digits::number_at))]
fn read_digits(line: &[u8], at: usize) -> Read<Result<u64, NumberError>>
    ensures { result ≡ number_at most line.now at }
{
    let mut number = Err(NumberError::Empty);
    for i in at..line.len() {
        if !text_bytes::is_digit(line[i]) {
            return Read {
                value: number,
                next: i,
            };
        }
        number = with_digit(number, line[i]);
    }
    Read {
        value: number,
        next: at.max(line.len()),
    }
}

// A number above `top` is too large.
fn at_most(number: Result<u64, NumberError>, top: u64) -> Result<u64, NumberError>
    ensures { result ≡ at_most top number }
{
    match number {
        Ok(n) if top < n => Err(NumberError::TooLarge),
        _ => number,
    }
}

// The digits at `at` as a number of up to `top`, and the position after them.
#[tactic(auto, using(crate::proofs::Numbers::at_most_at))]
pub fn read_number(line: &[u8], at: usize, top: u64) -> Read<Result<u64, NumberError>>
    ensures { result ≡ number_at top line.now at }
{
    let read = read_digits(line, at);
    Read {
        value: at_most(read.value, top),
        next: read.next,
    }
}

// The number of up to `top` that the text is, all of it digits.
#[tactic(auto, using(crate::proofs::Numbers::whole_short, crate::proofs::Numbers::whole_all))]
fn whole_number(text: &[u8], top: u64) -> Option<u64>
    ensures { option result ≡ digits top text.now }
{
    let read = read_number(text, 0, top);
    if read.next < text.len() {
        return None;
    }
    read.value.ok()
}

// The same with a plus sign allowed before it, as Rust's `parse` takes one.
#[tactic(auto, using(crate::proofs::Numbers::numeral_plus, crate::proofs::Numbers::numeral_plain, crate::proofs::Numbers::plus_within, crate::proofs::Numbers::plus_rest))]
pub fn parse_number(text: &[u8], top: u64) -> Option<u64>
    ensures { option result ≡ numeral top text.now }
{
    if text_bytes::byte_at(text, 0) == b'+' {
        return whole_number(&text[1..], top);
    }
    whole_number(text, top)
}
