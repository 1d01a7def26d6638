// One token of a music line: the reader by letter class; the token with its written value; and what the scan of the whole text wants of it.
// A line and a position in it stay two arguments: each reader goes on at other positions of the line, and a struct of both would be made anew for each.
#![tactic(auto)]

ghost use Rattle.std.specs.Prelude.{◌≡◌, ◌≢◌, ◌+◌, ◌<◌, length, drop, get_or};
ghost use Rattle.std.proofs.Math.Option.{none};
ghost use Rattle.reader.specs.Sounds.{note_as, note_of};
ghost use Rattle.reader.specs.Tokens.{class_of, token_of, effect_of};
ghost use Rattle.token_symbols.specs.Classes.{class_for};
ghost use Rattle.token_symbols.specs.declared.Class.{Class};
ghost use Rattle.token_lexemes.specs.Lexemes.{IsNumbered, cut_for};
ghost use Rattle.tokens.specs.Tokens.{tokenised_for, value_for, kind_length, valued_for, tokenised_in, effect_in, effect_as, effected_for};

use editions::Edition;
use refusals::Refusal;
use text_bytes::Read;
use token_lengths::Length;
use token_lexemes::{NoteKind, Token};
use token_suffixes::Fraction;
use token_symbols::{Class, Classes};

// What the scan wants of a token: a note counted, a refusal, L set, M set; or nothing.
#[derive(Clone, Copy)]
pub enum Effect {
    Counts,
    Refuses(Refusal),
    SetsUnit(u32),
    SetsMeter { top: u8, bottom: u8 },
    NoEffect,
}

// The token at `at` as it stands there, by the class of its first byte, but for a note: the callers read that themselves, so that there is one call that the compiler
// draws into the loop.
fn lexeme_at(edition: Edition, line: &[u8], at: usize, class: Class) -> Read<Token<Fraction>>
    requires { (at < length line.now) × (class ≡ class_for (class_of (get_or line.now at 0))) × (class ≢ Class.Pitched) }
    ensures { result ≡ cut_for at (token_of edition (drop at line.now)) }
{
    match class {
        Class::Skip => Read {
            value: Token::Skipped,
            next: at + 1,
        },
        Class::White => Read {
            value: Token::Space,
            next: at + 1,
        },
        Class::Ampersand => Read {
            value: Token::Overlay,
            next: at + 1,
        },
        Class::Quote => token_lexemes::quoted_text(line, at),
        Class::More => token_lexemes::broken(line, at, b'>', true),
        Class::Less => token_lexemes::broken(line, at, b'<', false),
        Class::Paren => token_lexemes::tuplet_or_slur(edition, line, at),
        Class::BraceOpen => Read {
            value: Token::GraceOpen,
            next: at + 1,
        },
        Class::BraceClose => Read {
            value: Token::GraceClose,
            next: at + 1,
        },
        Class::Bang => token_lexemes::decoration(line, at, b'!'),
        Class::Plus => token_lexemes::decoration(line, at, b'+'),
        Class::Bars => token_lexemes::bar_line(line, at),
        Class::Bracket => token_brackets::bracket(edition, line, at),
        Class::Rest => token_lexemes::rest(edition, line, at, u8::from(NoteKind::Rest)),
        Class::InvisibleRest => token_lexemes::rest(
            edition,
            line,
            at,
            u8::from(NoteKind::InvisibleRest),
        ),
        Class::BarRest => token_lexemes::rest(edition, line, at, u8::from(NoteKind::BarRest)),
        Class::InvisibleBarRest => token_lexemes::rest(
            edition,
            line,
            at,
            u8::from(NoteKind::InvisibleBarRest),
        ),
        Class::Pitched => unreachable!(),
    }
}

// The written value of a length of the unit 1 / `unit`.
fn written(length: Fraction, unit: u32) -> Length
    ensures { result ≡ value_for unit length }
{
    token_values::abc_note_value(unit, length.num, length.den)
}

// The length of a rest by the number of its kind: Z and X are a whole bar.
fn rest_length(kind: u8, length: Fraction, unit: u32) -> Length
    ensures { result ≡ kind_length unit kind length }
{
    if kind < 3 {
        return written(length, unit);
    }
    Length::WholeBar(0)
}

// A token with the written value of its length.
#[tactic(auto, unfolding(crate::specs::Tokens::valued_for))]
fn valued(token: Token<Fraction>, unit: u32) -> Token<Length>
    ensures { result ≡ valued_for unit token }
{
    match token {
        Token::Space => Token::Space,
        Token::Overlay => Token::Overlay,
        Token::Quoted => Token::Quoted,
        Token::Broken { up, count } => Token::Broken { up, count },
        Token::Tuplet {
            actual,
            normal,
            count,
        } => Token::Tuplet {
            actual,
            normal,
            count,
        },
        Token::Slur => Token::Slur,
        Token::GraceOpen => Token::GraceOpen,
        Token::GraceClose => Token::GraceClose,
        Token::Decoration => Token::Decoration,
        Token::Barline { right, left, opens } => Token::Barline { right, left, opens },
        Token::Volta { first, passes } => Token::Volta { first, passes },
        Token::Unit(den) => Token::Unit(den),
        Token::Meter { top, bottom } => Token::Meter { top, bottom },
        Token::Key { fifths, minor } => Token::Key { fifths, minor },
        Token::Field => Token::Field,
        Token::Chord {
            place,
            count,
            length,
            tie,
            slur,
        } => Token::Chord {
            place,
            count,
            length: written(length, unit),
            tie,
            slur,
        },
        Token::Rest { kind, length } => Token::Rest {
            kind,
            length: rest_length(kind, length, unit),
        },
        Token::Note {
            pitch,
            length,
            tie,
            slur,
        } => Token::Note {
            pitch,
            length: written(length, unit),
            tie,
            slur,
        },
        Token::Nothing => Token::Nothing,
        Token::Skipped => Token::Skipped,
        Token::Refused(refusal) => Token::Refused(refusal),
    }
}

// A token with the written value of its length, and the position after it. Most are notes: these are looked for first.
fn tokenise(read: Read<Token<Fraction>>, unit: u32) -> Read<Token<Length>>
    ensures { result ≡ tokenised_in unit read }
{
    let Token::Note {
        pitch,
        length,
        tie,
        slur,
    } = read.value
    else {
        return Read {
            value: valued(read.value, unit),
            next: read.next,
        };
    };
    Read {
        value: Token::Note {
            pitch,
            length: written(length, unit),
            tie,
            slur,
        },
        next: read.next,
    }
}

// The token at `at`, under the unit 1 / `unit`. `classes` is what `letter_classes` makes, once for a call. A note and white space are read without the
// switch of `lexeme_at`.
pub fn token_at(
    edition: Edition,
    line: &[u8],
    at: usize,
    unit: u32,
    classes: &Classes,
) -> Read<Token<Length>>
    requires { at < length line.now }
    ensures token { result ≡ tokenised_for at unit (token_of edition (drop at line.now)) }
    ensures number { IsNumbered (token_of edition (drop at line.now)).token }
{
    let class = classes.class_of(line[at]);
    if let Class::Pitched = class {
        return tokenise(token_lexemes::note(edition, line, at), unit);
    }
    if let Class::White = class {
        return Read {
            value: Token::Space,
            next: at + 1,
        };
    }
    tokenise(lexeme_at(edition, line, at, class), unit)
}

#[tactic(auto, unfolding(crate::specs::Tokens::effect_in))]
fn effect_of(token: Token<Fraction>) -> Effect
    ensures { result ≡ effect_in token }
{
    match token {
        Token::Unit(den) => Effect::SetsUnit(den),
        Token::Meter { top, bottom } => Effect::SetsMeter { top, bottom },
        Token::Chord { .. } => Effect::Counts,
        Token::Rest { .. } => Effect::Counts,
        Token::Note { .. } => Effect::Counts,
        Token::Refused(refusal) => Effect::Refuses(refusal),
        _ => Effect::NoEffect,
    }
}

// What the scan wants of a note from its letter on, which stands at `at`: its end alone is sought, and most lengths have one byte.
fn letter_effect(edition: Edition, line: &[u8], at: usize) -> Read<Effect>
    requires { at < length line.now }
    ensures { result ≡ effected_for at (note_as edition (record { sign = none; used = 0 }) (get_or line.now at 0) (drop (at + 1) line.now)) }
{
    let behind = text_bytes::byte_at(line, at + 1);
    if token_lexemes::is_plain(behind) {
        return Read {
            value: Effect::Counts,
            next: at + 1,
        };
    }
    if token_lexemes::is_short(behind, text_bytes::byte_at(line, at + 2)) {
        return Read {
            value: Effect::Counts,
            next: at + 2,
        };
    }
    let letter = token_pitches::abc_note_char(line[at]);
    let Ok(octave) = token_pitches::octave_marks(line, at + 1, letter.octave) else {
        return Read {
            value: Effect::Refuses(Refusal::Octave),
            next: line.len(),
        };
    };
    let Ok(suffix) = token_suffixes::parse_duration_suffix(edition, line, octave.next) else {
        return Read {
            value: Effect::Refuses(Refusal::ManySlashes),
            next: line.len(),
        };
    };
    let annotations = text_runs::apply_abc_note_annotations(line, suffix.next);
    Read {
        value: Effect::Counts,
        next: annotations.next,
    }
}

// What the scan wants of a note with its accidentals.
fn note_effect(edition: Edition, line: &[u8], at: usize) -> Read<Effect>
    requires { at < length line.now }
    ensures { result ≡ effected_for at (note_of edition (drop at line.now)) }
{
    let before = token_pitches::accidental_before(line, at);
    let place = before.next;
    if line.len() <= place {
        return Read {
            value: Effect::NoEffect,
            next: place,
        };
    }
    if token_pitches::is_letter(line[place]) {
        return letter_effect(edition, line, place);
    }
    Read {
        value: Effect::NoEffect,
        next: place + 1,
    }
}

// What the scan wants of the token at `at`: no written value is sought, and of a note, white space or a byte that means nothing no token is made.
pub fn effect_at(edition: Edition, line: &[u8], at: usize, classes: &Classes) -> Read<Effect>
    requires { at < length line.now }
    ensures effect { effect_as result.value ≡ effect_of (token_of edition (drop at line.now)).token }
    ensures next { result.next ≡ at + (token_of edition (drop at line.now)).used }
{
    let class = classes.class_of(line[at]);
    if let Class::Pitched = class {
        return note_effect(edition, line, at);
    }
    if let Class::White = class {
        return Read {
            value: Effect::NoEffect,
            next: at + 1,
        };
    }
    if let Class::Skip = class {
        return Read {
            value: Effect::NoEffect,
            next: at + 1,
        };
    }
    let read = lexeme_at(edition, line, at, class);
    Read {
        value: effect_of(read.value),
        next: read.next,
    }
}
