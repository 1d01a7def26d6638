// The length as it is written behind a note, a chord and a rest: one rule for all three, by edition.
#![tactic(auto)]

ghost use Rattle.std.specs.Prelude.{◌≡◌, ◌<◌, ◌+◌, length};
ghost use Rattle.token_suffixes.specs.Suffixes.{number_or, is_run, halved_by, suffix_at};

use editions::Edition;
use refusals::Refusal;
use text_bytes::Read;

// A length as written, a fraction of the unit.
#[derive(Clone, Copy, Debug, PartialEq, Eq)]
pub struct Fraction {
    pub num: u32,
    pub den: u32,
}

// The number of 32 bits at `at`; `other` where there is none, or it is past 32 bits. Most have one digit, or none.
fn number_or(line: &[u8], at: usize, other: u32) -> Read<u32>
    ensures { result ≡ number_or other line.now at }
{
    let first = text_bytes::byte_at(line, at);
    if !text_bytes::is_digit(first) {
        return Read {
            value: other,
            next: at,
        };
    }
    if !text_bytes::is_digit(text_bytes::byte_at(line, at + 1)) {
        return Read {
            value: (first - 48) as u32,
            next: at + 1,
        };
    }
    let read = text_numbers::read_number(line, at, 4294967295);
    match read.value {
        Ok(v) => Read {
            value: v as u32,
            next: read.next,
        },
        Err(_) => Read {
            value: other,
            next: read.next,
        },
    }
}

// Whether the slash at `at` begins a run that halves: the second edition, and another slash behind it.
fn is_run(edition: Edition, line: &[u8], at: usize) -> bool
    requires { at < length line.now }
    ensures { result ≡ is_run edition line.now at }
{
    match edition {
        Edition::First => false,
        Edition::Second => text_bytes::byte_at(line, at + 1) == b'/',
    }
}

// `num` halved by each of the slashes from `at` on, 31 at most; or refusal 22, a 32nd slash that would halve.
fn halvings(line: &[u8], num: u32, at: usize) -> Result<Read<Fraction>, Refusal>
    ensures { result ≡ halved_by num line.now at }
{
    let end = text_runs::run_end(line, at, b'/');
    let count = end - at;
    if 31 < count {
        return Err(Refusal::ManySlashes);
    }
    Ok(Read {
        value: Fraction {
            num,
            den: 1u32 << (count as u32),
        },
        next: end,
    })
}

// The length suffix at `at`, or refusal 22: digits, then a slash and digits, or in the second edition two slashes or more. What slashes and digits stand behind it is left where it is.
pub fn parse_duration_suffix(
    edition: Edition,
    line: &[u8],
    at: usize,
) -> Result<Read<Fraction>, Refusal>
    ensures { result ≡ suffix_at edition line.now at }
{
    let num = number_or(line, at, 1);
    let slash = num.next;
    if text_bytes::byte_at(line, slash) != b'/' {
        return Ok(Read {
            value: Fraction {
                num: num.value,
                den: 1,
            },
            next: slash,
        });
    }
    if is_run(edition, line, slash) {
        return halvings(line, num.value, slash);
    }
    let den = number_or(line, slash + 1, 2);
    Ok(Read {
        value: Fraction {
            num: num.value,
            den: den.value,
        },
        next: den.next,
    })
}
