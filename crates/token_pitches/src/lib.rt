// Pitches in a music line, as written: letters, accidentals, octave marks, chords. Signed numbers have 128 added.
#![tactic(auto)]

ghost use Rattle.std.specs.Prelude.{◌≡◌, ◌+◌, ◌<◌, ◌≤◌, eqb, length, drop, get_or};
ghost use Rattle.std.proofs.Math.Option.{none};
ghost use Rattle.laws.specs.Lists.{count_while};
ghost use Rattle.standard.specs.Pitches.{is_letter};
ghost use Rattle.reader.specs.Pitches as written;
ghost use Rattle.token_pitches.specs.Pitches.{note_char, sign_of, before_for, octave_for, quarter_for};
ghost use Rattle.token_pitches.specs.Chords.{sign_in, letter_met, pitch_met, met_for, closed_at, chord_for};

use refusals::Refusal;
use text_bytes::Read;

// An accidental: half tones up, and hundredths of one, each with 128 added.
#[derive(Clone, Copy, Debug, PartialEq, Eq)]
pub struct Accidental {
    pub alter: u8,
    pub cents: u8,
}

// An accidental, or none.
// An enum of its own for speed: with an Option of an `Accidental` here, and a Result of an Option in place of `Met`, a text of chords takes 22 % more instructions.
#[derive(Clone, Copy, Debug, PartialEq, Eq)]
pub enum Sign {
    Nothing,
    Written { alter: u8, cents: u8 },
}

#[derive(Clone, Copy, Debug, PartialEq, Eq)]
pub struct Pitch {
    pub step: u8,
    pub octave: u8,
    pub sign: Sign,
}

// What the walk through a chord meets next: its end, refusal 12, or a pitch with the position after it.
// An enum of its own for speed, as `Sign`.
#[derive(Clone, Copy, Debug, PartialEq, Eq)]
pub enum Met {
    Over,
    Out,
    Pitch { pitch: Pitch, next: usize },
}

// A letter's step, C is 0 and B is 6, and octave.
#[derive(Clone, Copy, Debug, PartialEq, Eq)]
pub struct NoteChar {
    pub step: u8,
    pub octave: u8,
}

// 000's step goes by a match; this is the same for each letter.
pub fn abc_note_char(c: u8) -> NoteChar
    ensures { result ≡ note_char c }
{
    let step = (c % 32 + 4) % 7;
    if c < 97 {
        return NoteChar { step, octave: 132 };
    }
    NoteChar { step, octave: 133 }
}

// A to G, a to g: a capital and its small letter differ by 32 alone.
pub fn is_letter(c: u8) -> bool
    ensures { result ≡ is_letter c }
{
    let small = c | 32;
    97 <= small && small <= 103
}

// n half tones up or down, held at 127 and −128.
fn moved(up: bool, n: usize, from: u8) -> u8
    ensures { result ≡ written.moved up n from }
{
    let from = from as usize;
    if up {
        return from.saturating_add(n).min(255) as u8;
    }
    from.saturating_sub(n) as u8
}

fn quarter_tone(up: bool) -> Sign
    ensures { result ≡ quarter_for up }
{
    let cents = if up { 178 } else { 78 };
    Sign::Written { alter: 128, cents }
}

// A run of equal signs `b`; a single one with a slash behind it is a quarter tone.
fn signs(line: &[u8], at: usize, up: bool, b: u8) -> Read<Sign>
    ensures { result ≡ before_for at (written.signs up (count_while (λ c. eqb c b) (drop at line.now)) (drop at line.now)) }
{
    let end = text_runs::run_end(line, at, b);
    let n = end - at;
    if n == 1 && text_bytes::byte_at(line, end) == b'/' {
        return Read {
            value: quarter_tone(up),
            next: end + 1,
        };
    }
    Read {
        value: Sign::Written {
            alter: moved(up, n, 128),
            cents: 128,
        },
        next: end,
    }
}

// The accidental before a single note: a run of `^`, a run of `_`, or one `=` (000, append_abc_pitched_note).
pub fn accidental_before(line: &[u8], at: usize) -> Read<Sign>
    ensures { result ≡ before_for at (written.accidental_of (drop at line.now)) }
{
    let first = text_bytes::byte_at(line, at);
    if first == b'^' {
        return signs(line, at, true, b'^');
    }
    if first == b'_' {
        return signs(line, at, false, b'_');
    }
    if first == b'=' {
        return Read {
            value: Sign::Written {
                alter: 128,
                cents: 128,
            },
            next: at + 1,
        };
    }
    Read {
        value: Sign::Nothing,
        next: at,
    }
}

// The octave by commas, then apostrophes, from the octave `start` on; or refusal 12 for marks that leave −128 to 127. No byte above the comma is a mark: most letters have none.
pub fn octave_marks(line: &[u8], at: usize, start: u8) -> Result<Read<u8>, Refusal>
    ensures { result ≡ octave_for at (written.octave_from start (drop at line.now)) }
{
    if b',' < text_bytes::byte_at(line, at) {
        return Ok(Read {
            value: start,
            next: at,
        });
    }
    let down = text_runs::run_end(line, at, b',');
    let up = text_runs::run_end(line, down, b'\'');
    let first = start as usize;
    if first < down - at {
        return Err(Refusal::Octave);
    }
    let low = first - (down - at);
    if 255 - low < up - down {
        return Err(Refusal::Octave);
    }
    Ok(Read {
        value: (low + (up - down)) as u8,
        next: up,
    })
}

// A sign `^` or `_` at `at` in a chord, where an accidental waits: signs add up, and one with nothing before it and a slash behind it is a quarter tone.
fn chord_sign(line: &[u8], at: usize, up: bool, waits: Sign) -> Read<Sign>
    requires { at < length line.now }
    ensures { result ≡ before_for at (sign_in up (sign_of waits) (drop (at + 1) line.now)) }
{
    match waits {
        Sign::Nothing => {
            if text_bytes::byte_at(line, at + 1) == b'/' {
                return Read {
                    value: quarter_tone(up),
                    next: at + 2,
                };
            }
            Read {
                value: Sign::Written {
                    alter: moved(up, 1, 128),
                    cents: 128,
                },
                next: at + 1,
            }
        }
        Sign::Written { alter, cents: _ } => Read {
            value: Sign::Written {
                alter: moved(up, 1, alter),
                cents: 128,
            },
            next: at + 1,
        },
    }
}

// The letter at `at` with its octave marks.
fn chord_letter(line: &[u8], at: usize, waits: Sign) -> Met
    requires { at < length line.now }
    ensures { result ≡ met_for at (letter_met (get_or line.now at 0) (sign_of waits) (written.octave_of (get_or line.now at 0) (drop (at + 1) line.now))) }
{
    let letter = abc_note_char(line[at]);
    match octave_marks(line, at + 1, letter.octave) {
        Err(_) => Met::Out,
        Ok(octave) => Met::Pitch {
            pitch: Pitch {
                step: letter.step,
                octave: octave.value,
                sign: waits,
            },
            next: octave.next,
        },
    }
}

// The next pitch of a chord from `at` on, behind its `[` or behind the pitch before: the loop of 000's parse_abc_chord up to where it keeps a pitch.
pub fn next_chord_pitch(line: &[u8], at: usize) -> Met
    ensures { result ≡ met_for at (pitch_met 0 none (drop at line.now)) }
{
    // no `for`: a sign takes one byte, or two with the slash behind it
    let mut waits = Sign::Nothing;
    let mut i = at;
    while i < line.len() {
        let c = line[i];
        if c == b']' {
            return Met::Over;
        }
        if c == b'^' {
            let sign = chord_sign(line, i, true, waits);
            waits = sign.value;
            i = sign.next;
            continue;
        }
        if c == b'_' {
            let sign = chord_sign(line, i, false, waits);
            waits = sign.value;
            i = sign.next;
            continue;
        }
        if c == b'=' {
            waits = Sign::Written {
                alter: 128,
                cents: 128,
            };
            i += 1;
            continue;
        }
        if is_letter(c) {
            return chord_letter(line, i, waits);
        }
        i += 1;
    }
    Met::Over
}

// How many pitches the chord has whose `[` stands before `at`, and whose `]`, or the line's end, is at `close`, and the position after its bracket; or refusal 12. The pitches are read again, one by one, by `next_chord_pitch`.
pub fn parse_abc_chord(line: &[u8], at: usize, close: usize) -> Result<Read<usize>, Refusal>
    requires { close ≤ length line.now }
    ensures { result ≡ chord_for (closed_at line.now close) (written.chord_of 0 none (drop at line.now)) }
{
    let mut count: usize = 0;
    let mut i = at;
    loop {
        match next_chord_pitch(line, i) {
            Met::Over => return Ok(Read {
                value: count,
                next: past(line, close),
            }),
            Met::Out => return Err(Refusal::Octave),
            Met::Pitch { pitch: _, next } => {
                count += 1;
                i = next;
            }
        }
    }
}

// The position after a closing byte, or the line's end.
fn past(line: &[u8], close: usize) -> usize
    requires { close ≤ length line.now }
    ensures { result ≡ closed_at line.now close }
{
    if close < line.len() {
        return close + 1;
    }
    close
}
