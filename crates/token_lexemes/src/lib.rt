// Tokens as they stand in a music line, each read by a function of its own: all but what a `[` begins with.
// A line and a position in it stay two arguments: each reader goes on at other positions of the line, and a struct of both would be made anew for each.
#![tactic(auto)]

ghost use Rattle.std.specs.Prelude.{◌≡◌, suc, ◌+◌, ◌<◌, eqb, length, drop, get_or};
ghost use Rattle.laws.specs.Lists.{count_while};
ghost use Rattle.reader.specs.Token.{decoration, skipped, taken};
ghost use Rattle.reader.specs.PassLists.{volta_of};
ghost use Rattle.reader.specs.Sounds.{note_as, note_of};
ghost use Rattle.reader.specs.Barlines.{barline_of};
ghost use Rattle.reader.specs.Codes.{kind_code};
ghost use Rattle.reader.specs.Tokens.{closed_by, quoted_of, broken_of, paren, token_as};
ghost use Rattle.token_pitches.specs.Pitches.{sign_of};
ghost use Rattle.token_lexemes.specs.Lexemes.{IsNumbered, as_kind, is_plain, is_short, cut_for, rest_for};

use editions::Edition;
use refusals::Refusal;
use text_bytes::Read;
use token_pitches::{Pitch, Sign};
use token_suffixes::Fraction;
use token_symbols::Barline;

// What a note of a record is: sounded, or a rest of one of four kinds.
#[derive(Clone, Copy, Debug, PartialEq, Eq)]
pub enum NoteKind {
    Sounded,
    Rest,
    InvisibleRest,
    BarRest,
    InvisibleBarRest,
}

// Its number in the record.
impl From<NoteKind> for u8 {
    ghost from_gives = { λ kind number. number ≡ kind_code (as_kind kind) };

    #[tactic(auto, unfolding(reader::specs::Codes::kind_code))]
    fn from(kind: NoteKind) -> u8 {
        match kind {
            NoteKind::Sounded => 0,
            NoteKind::Rest => 1,
            NoteKind::InvisibleRest => 2,
            NoteKind::BarRest => 3,
            NoteKind::InvisibleBarRest => 4,
        }
    }
}

// A token, with its length as it is written, a fraction of the unit, or by its written value. A chord's pitches are read again from `place` on (`next_chord_pitch`): no array in an enum.
// `Nothing` and `Refused` are tokens among the others, as in the definition, and each ends at a position of its own.
#[derive(Clone, Copy)]
pub enum Token<L> {
    Space,
    Overlay,
    Quoted,
    Broken {
        up: bool,
        count: u8,
    },
    Tuplet {
        actual: u8,
        normal: u8,
        count: u64,
    },
    Slur,
    GraceOpen,
    GraceClose,
    Decoration,
    Barline {
        right: Barline,
        left: Barline,
        opens: bool,
    },
    Volta {
        first: u8,
        passes: u32,
    },
    Unit(u32),
    Meter {
        top: u8,
        bottom: u8,
    },
    Key {
        fifths: u8,
        minor: bool,
    },
    Field,
    Chord {
        place: usize,
        count: usize,
        length: L,
        tie: bool,
        slur: bool,
    },
    Rest {
        kind: u8,
        length: L,
    },
    Note {
        pitch: Pitch,
        length: L,
        tie: bool,
        slur: bool,
    },
    Nothing,
    Skipped,
    Refused(Refusal),
}

// A quoted text, or, unclosed, the rest of the line.
pub fn quoted_text(line: &[u8], at: usize) -> Read<Token<Fraction>>
    requires { at < length line.now }
    ensures { result ≡ cut_for at (quoted_of (drop at line.now)) }
{
    let close = text_runs::find(line, at + 1, line.len(), b'"');
    if close < line.len() {
        return Read {
            value: Token::Quoted,
            next: close + 1,
        };
    }
    Read {
        value: Token::Quoted,
        next: line.len(),
    }
}

// `!name!` or `+name+`; an unclosed `b` means nothing.
pub fn decoration(line: &[u8], at: usize, b: u8) -> Read<Token<Fraction>>
    requires { at < length line.now }
    ensures { result ≡ cut_for at (closed_by (λ c. eqb c b) decoration (drop 1 (drop at line.now)) (taken skipped 1)) }
{
    let close = text_runs::find(line, at + 1, line.len(), b);
    if close < line.len() {
        return Read {
            value: Token::Decoration,
            next: close + 1,
        };
    }
    Read {
        value: Token::Skipped,
        next: at + 1,
    }
}

// Broken rhythm: the equal signs `b` from `at` on, 255 at most (refusal 13).
pub fn broken(line: &[u8], at: usize, b: u8, up: bool) -> Read<Token<Fraction>>
    requires { at < length line.now }
    ensures token { result ≡ cut_for at (broken_of up (suc (count_while (λ c. eqb c b) (drop 1 (drop at line.now)))) (drop at line.now)) }
    ensures number { IsNumbered (broken_of up (suc (count_while (λ c. eqb c b) (drop 1 (drop at line.now)))) (drop at line.now)).token }
{
    let end = text_runs::run_end(line, at + 1, b);
    let count = end - at;
    if 255 < count {
        return Read {
            value: Token::Refused(Refusal::BrokenRhythm),
            next: line.len(),
        };
    }
    Read {
        value: Token::Broken {
            up,
            count: count as u8,
        },
        next: end,
    }
}

// A tuplet, or a slur start instead.
pub fn tuplet_or_slur(edition: Edition, line: &[u8], at: usize) -> Read<Token<Fraction>>
    requires { at < length line.now }
    ensures { result ≡ cut_for at (token_as edition paren (drop at line.now)) }
{
    let Some(tuplet) = token_symbols::parse_abc_tuplet(edition, line, at) else {
        return Read {
            value: Token::Slur,
            next: at + 1,
        };
    };
    Read {
        value: Token::Tuplet {
            actual: tuplet.value.actual,
            normal: tuplet.value.normal,
            count: tuplet.value.count,
        },
        next: tuplet.next,
    }
}

// A barline, and whether a measure opens behind it; a lone `:` means nothing.
pub fn bar_line(line: &[u8], at: usize) -> Read<Token<Fraction>>
    requires { at < length line.now }
    ensures { result ≡ cut_for at (barline_of (drop at line.now)) }
{
    let Some(bar) = token_symbols::parse_barline(line, at) else {
        return Read {
            value: Token::Skipped,
            next: at + 1,
        };
    };
    let opens = text_bytes::byte_at(line, bar.next) != b']';
    Read {
        value: Token::Barline {
            right: bar.value.right,
            left: bar.value.left,
            opens,
        },
        next: bar.next,
    }
}

// An ending with its passes, or refusal 14, 17 or 18.
pub fn volta(line: &[u8], at: usize) -> Read<Token<Fraction>>
    requires { at < length line.now }
    ensures token { result ≡ cut_for at (volta_of (drop (at + 1) line.now)) }
    ensures number { IsNumbered (volta_of (drop (at + 1) line.now)).token }
{
    let Some(passes) = token_passes::parse_passes(line, at + 1) else {
        return Read {
            value: Token::Refused(token_passes::list_fault(line, at + 1)),
            next: line.len(),
        };
    };
    Read {
        value: Token::Volta {
            first: passes.value.first,
            passes: passes.value.bits,
        },
        next: passes.next,
    }
}

// A rest by the number of its kind and its length, or refusal 22.
pub fn rest(edition: Edition, line: &[u8], at: usize, kind: u8) -> Read<Token<Fraction>>
    requires { at < length line.now }
    ensures { result ≡ rest_for edition at kind (drop (at + 1) line.now) }
{
    let Ok(suffix) = token_suffixes::parse_duration_suffix(edition, line, at + 1) else {
        return Read {
            value: Token::Refused(Refusal::ManySlashes),
            next: line.len(),
        };
    };
    Read {
        value: Token::Rest {
            kind,
            length: suffix.value,
        },
        next: suffix.next,
    }
}

// Behind a note's letter `b` ends the note: it is none of `'`, `)`, `,`, `-`, `/` and the digits.
pub fn is_plain(b: u8) -> bool
    ensures { result ≡ is_plain b }
{
    b < 39 || 57 < b
}

// Behind a note's letter `b` is its length, a slash or a digit, and `next` ends the note.
pub fn is_short(b: u8, next: u8) -> bool
    ensures { result ≡ is_short b next }
{
    if text_bytes::is_within(b'/', b'9', b) {
        return is_plain(next);
    }
    false
}

// A note from its letter on, which stands at `at`, with the accidental before it; or refusal 12 or 22. Most are a letter alone.
fn note_from_letter(edition: Edition, line: &[u8], at: usize, sign: Sign) -> Read<Token<Fraction>>
    requires { at < length line.now }
    ensures { result ≡ cut_for at (note_as edition (record { sign = sign_of sign; used = 0 }) (get_or line.now at 0) (drop (at + 1) line.now)) }
{
    let letter = token_pitches::abc_note_char(line[at]);
    if is_plain(text_bytes::byte_at(line, at + 1)) {
        return Read {
            value: Token::Note {
                pitch: Pitch {
                    step: letter.step,
                    octave: letter.octave,
                    sign,
                },
                length: Fraction { num: 1, den: 1 },
                tie: false,
                slur: false,
            },
            next: at + 1,
        };
    }
    let Ok(octave) = token_pitches::octave_marks(line, at + 1, letter.octave) else {
        return Read {
            value: Token::Refused(Refusal::Octave),
            next: line.len(),
        };
    };
    let Ok(suffix) = token_suffixes::parse_duration_suffix(edition, line, octave.next) else {
        return Read {
            value: Token::Refused(Refusal::ManySlashes),
            next: line.len(),
        };
    };
    let behind = text_runs::apply_abc_note_annotations(line, suffix.next);
    Read {
        value: Token::Note {
            pitch: Pitch {
                step: letter.step,
                octave: octave.value,
                sign,
            },
            length: suffix.value,
            tie: behind.tie,
            slur: behind.slur,
        },
        next: behind.next,
    }
}

// A note with its accidentals, which take the byte behind them even if that is no letter.
pub fn note(edition: Edition, line: &[u8], at: usize) -> Read<Token<Fraction>>
    requires { at < length line.now }
    ensures token { result ≡ cut_for at (note_of edition (drop at line.now)) }
    ensures number { IsNumbered (note_of edition (drop at line.now)).token }
{
    let before = token_pitches::accidental_before(line, at);
    let sign = before.value;
    let place = before.next;
    if line.len() <= place {
        return Read {
            value: Token::Nothing,
            next: place,
        };
    }
    if token_pitches::is_letter(line[place]) {
        return note_from_letter(edition, line, place, sign);
    }
    Read {
        value: Token::Nothing,
        next: place + 1,
    }
}
