// What a `[` begins with: an ending, an inline field or a chord, in 000's order of tests.
// A line and a position in it stay two arguments: each reader goes on at other positions of the line, and a struct of both would be made anew for each.
#![tactic(auto)]

ghost use Rattle.std.specs.Prelude.{◌≡◌, ℕ, Ok, not, ◌+◌, ◌-◌, ◌≤◌, ◌<◌, eqb, length, drop};
ghost use Rattle.laws.specs.Spans.{end_of};
ghost use Rattle.reader.specs.Inline.{is_inline, field_token};
ghost use Rattle.reader.specs.Sounds.{chord_at};
ghost use Rattle.reader.specs.Tokens.{bracket, token_as};
ghost use Rattle.laws.specs.Bytes.{between};
ghost use Rattle.reader.specs.Token.{taken};
ghost use Rattle.field_values.specs.Values as fields;
ghost use Rattle.token_lexemes.specs.Lexemes.{IsNumbered, lexeme_for, cut_for};

use editions::Edition;
use field_values::Field;
use refusals::Refusal;
use text_bytes::Read;
use token_lexemes::Token;
use token_suffixes::Fraction;

// A field has a `]` to come, at `close`, a colon before it, and no quote right behind the `[`.
fn is_inline(line: &[u8], from: usize, close: usize) -> bool
    requires { (from ≤ length line.now) × (close ≡ end_of (λ c. not (eqb c 93)) line.now from) }
    ensures { result ≡ is_inline (drop from line.now) }
{
    if line.len() <= close {
        return false;
    }
    if text_bytes::byte_at(line, from) == b'"' {
        return false;
    }
    text_runs::find(line, from, close, b':') < close
}

// The chord whose `[` stands at `at`, with its length and what stands behind it, or refusal 12 or 22. An empty one takes its length, no more.
fn chord(edition: Edition, line: &[u8], at: usize, close: usize) -> Read<Token<Fraction>>
    requires { (at < length line.now) × (close ≡ end_of (λ c. not (eqb c 93)) line.now (at + 1)) }
    ensures { result ≡ cut_for at (chord_at edition (drop (at + 1) line.now)) }
{
    let Ok(pitches) = token_pitches::parse_abc_chord(line, at + 1, close) else {
        return Read {
            value: Token::Refused(Refusal::Octave),
            next: line.len(),
        };
    };
    let Ok(suffix) = token_suffixes::parse_duration_suffix(edition, line, pitches.next) else {
        return Read {
            value: Token::Refused(Refusal::ManySlashes),
            next: line.len(),
        };
    };
    let count = pitches.value;
    if count == 0 {
        return Read {
            value: Token::Nothing,
            next: suffix.next,
        };
    }
    let behind = text_runs::apply_abc_note_annotations(line, suffix.next);
    Read {
        value: Token::Chord {
            place: at + 1,
            count,
            length: suffix.value,
            tie: behind.tie,
            slur: behind.slur,
        },
        next: behind.next,
    }
}

// An inline field that is not refused, as a token.
#[tactic(auto, unfolding(token_lexemes::specs::Lexemes::lexeme_for))]
fn field_token(field: Field) -> Token<Fraction>
    ensures { (at : ℕ) → result ≡ lexeme_for at (fields.token_as (Ok field)) }
{
    match field {
        Field::Unit(unit) => Token::Unit(unit),
        Field::Meter(meter) => Token::Meter {
            top: meter.top,
            bottom: meter.bottom,
        },
        Field::Key(key) => Token::Key {
            fifths: key.fifths,
            minor: key.minor,
        },
        Field::Other => Token::Field,
    }
}

// The inline field whose `[` stands at `at` and whose `]` at `close`.
fn inline_field(edition: Edition, line: &[u8], at: usize, close: usize) -> Read<Token<Fraction>>
    requires { (at < close) × (close < length line.now) }
    ensures { result ≡ cut_for at (taken (field_token edition (between line.now (at + 1) close)) (close + 1 - at)) }
{
    let value = match field_values::parse_inline_field(edition, &line[at + 1..close]) {
        Ok(field) => field_token(field),
        Err(refusal) => Token::Refused(refusal),
    };
    Read {
        value,
        next: close + 1,
    }
}

// The token whose `[` stands at `at`.
pub fn bracket(edition: Edition, line: &[u8], at: usize) -> Read<Token<Fraction>>
    requires { at < length line.now }
    ensures token { result ≡ cut_for at (token_as edition bracket (drop at line.now)) }
    ensures number { IsNumbered (token_as edition bracket (drop at line.now)).token }
{
    let from = at + 1;
    if text_bytes::is_digit(text_bytes::byte_at(line, from)) {
        return token_lexemes::volta(line, at);
    }
    let close = text_runs::find(line, from, line.len(), b']');
    if is_inline(line, from, close) {
        return inline_field(edition, line, at, close);
    }
    chord(edition, line, at, close)
}
