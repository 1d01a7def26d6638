// Symbols in a music line: the letter classes, barlines, tuplets.
#![tactic(auto)]

ghost use Rattle.std.specs.Prelude.{◌≡◌, ◌+◌, ◌<◌, ◌≤◌, length, drop};
ghost use Rattle.std.proofs.Math.Option.{none};
ghost use Rattle.laws.specs.Spans.{end_of};
ghost use Rattle.standard.specs.Bytes.{is_digit};
ghost use Rattle.standard.specs.Bars.{bar_symbols, symbol_at};
ghost use Rattle.reader.specs.Codes.{barline_code};
ghost use Rattle.reader.specs.Tokens.{class_of};
ghost use Rattle.editions.specs.declared.Edition.TheVariants.{First, Second};
ghost use Rattle.reader.specs.Tuplets.{tuplet_of, positive, normal_for, part_or};
ghost use Rattle.token_symbols.specs.Classes.{class_for, class_table};
ghost use Rattle.token_symbols.specs.Bars.{as_barline, left_for, bar_read, bar_for};
ghost use Rattle.token_symbols.specs.Tuplets.{number_for, tuplet_for};

use editions::Edition;
use text_bytes::Read;

// The class of a byte, which says how its token is read.
#[derive(Clone, Copy, Debug, PartialEq, Eq)]
pub enum Class {
    Skip,
    White,
    Ampersand,
    Quote,
    More,
    Less,
    Paren,
    BraceOpen,
    BraceClose,
    Bang,
    Plus,
    Bars,
    Bracket,
    Rest,
    InvisibleRest,
    BarRest,
    InvisibleBarRest,
    Pitched,
}

#[derive(Clone, Copy, Debug, PartialEq, Eq)]
pub enum Barline {
    Normal,
    RepeatStart,
    RepeatEnd,
    RepeatBoth,
    Double,
    Final,
}

// A barline, as the right one of the measure that it ends and the left one of the next.
#[derive(Clone, Copy, Debug, PartialEq, Eq)]
pub struct Bar {
    pub right: Barline,
    pub left: Barline,
}

// A tuplet: actual notes in the time of normal ones, for the next count notes.
#[derive(Clone, Copy, Debug, PartialEq, Eq)]
pub struct Tuplet {
    pub actual: u8,
    pub normal: u8,
    pub count: u64,
}

// A normal number that the meter decides, where the tuplet stands: the definition's own 0, which an empty part passes on as its number (an Option would have to be made of it and undone again).
pub const BY_METER: u8 = 0;

// The classes of the bytes below 128, by the definition's rules.
#[derive(Clone, Copy)]
pub struct Classes {
    pub table: [Class; 128],
    pub ghost is_table: { table ≡ class_table },
}

// Every entry "skipped", then notes, marks and bars set. Made once, and lent to each reader of a token.
pub fn letter_classes() -> Classes {
    let mut t = [Class::Skip; 128];
    // A to G, a to g, and the signs ^ _ =
    t[65] = Class::Pitched;
    t[66] = Class::Pitched;
    t[67] = Class::Pitched;
    t[68] = Class::Pitched;
    t[69] = Class::Pitched;
    t[70] = Class::Pitched;
    t[71] = Class::Pitched;
    t[97] = Class::Pitched;
    t[98] = Class::Pitched;
    t[99] = Class::Pitched;
    t[100] = Class::Pitched;
    t[101] = Class::Pitched;
    t[102] = Class::Pitched;
    t[103] = Class::Pitched;
    t[94] = Class::Pitched;
    t[95] = Class::Pitched;
    t[61] = Class::Pitched;
    // white space
    t[9] = Class::White;
    t[10] = Class::White;
    t[11] = Class::White;
    t[12] = Class::White;
    t[13] = Class::White;
    t[32] = Class::White;
    // & " > < ( { } ! + and the bars | :
    t[38] = Class::Ampersand;
    t[34] = Class::Quote;
    t[62] = Class::More;
    t[60] = Class::Less;
    t[40] = Class::Paren;
    t[123] = Class::BraceOpen;
    t[125] = Class::BraceClose;
    t[33] = Class::Bang;
    t[43] = Class::Plus;
    t[124] = Class::Bars;
    t[58] = Class::Bars;
    // [ and the rests z x Z X
    t[91] = Class::Bracket;
    t[122] = Class::Rest;
    t[120] = Class::InvisibleRest;
    t[90] = Class::BarRest;
    t[88] = Class::InvisibleBarRest;
    Classes { table: t }
}

impl Classes {
    // The class of a byte: what the table has for it, and "skipped" above 127.
    pub fn class_of(&self, b: u8) -> Class
        ensures { result ≡ class_for (class_of b) }
    {
        let k = b as usize;
        if k < 128 { self.table[k] } else { Class::Skip }
    }
}

// A barline's number in the reading.
impl From<Barline> for u8 {
    ghost from_gives = { λ barline number. number ≡ barline_code (as_barline barline) };

    fn from(barline: Barline) -> u8 {
        match barline {
            Barline::Normal => 0,
            Barline::RepeatStart => 1,
            Barline::RepeatEnd => 2,
            Barline::RepeatBoth => 3,
            Barline::Double => 4,
            Barline::Final => 5,
        }
    }
}

// A repeat start, a repeat of both kinds and a double bar stand at the next measure's left too.
fn left_of(barline: Barline) -> Barline
    ensures { result ≡ left_for barline }
{
    match barline {
        Barline::RepeatEnd => Barline::Normal,
        Barline::Final => Barline::Normal,
        _ => barline,
    }
}

fn read_bar(barline: Barline, next: usize) -> Option<Read<Bar>>
    ensures { result ≡ bar_read barline (left_for barline) next }
{
    Some(Read {
        value: Bar {
            right: barline,
            left: left_of(barline),
        },
        next,
    })
}

pub fn parse_barline(line: &[u8], at: usize) -> Option<Read<Bar>>
    requires { at < length line.now }
    ensures { result ≡ bar_for at (symbol_at bar_symbols (drop at line.now)) }
{
    let first = line[at];
    let second = text_bytes::byte_at(line, at + 1);
    match first {
        b'|' => match second {
            b':' => read_bar(Barline::RepeatStart, at + 2),
            b'|' => read_bar(Barline::Double, at + 2),
            b']' => read_bar(Barline::Final, at + 2),
            _ => read_bar(Barline::Normal, at + 1),
        },
        b':' => match second {
            b'|' => read_bar(Barline::RepeatEnd, at + 2),
            b':' => read_bar(Barline::RepeatBoth, at + 2),
            _ => None,
        },
        _ => None,
    }
}

// The digits at `at` as a number from 1 to `top`.
fn positive(line: &[u8], at: usize, top: u64) -> Option<Read<u64>>
    ensures { result ≡ number_for (end_of is_digit line.now at) (positive top (drop at line.now)) }
{
    let read = text_numbers::read_number(line, at, top);
    let Ok(value) = read.value else {
        return None;
    };
    if value == 0 {
        return None;
    }
    Some(Read {
        value,
        next: read.next,
    })
}

// The first edition's normal number of notes where none is written.
#[tactic(auto, unfolding(reader::specs::Tuplets::normal_for, reader::specs::Tuplets::or_one_less, standard::specs::Tuplets::usual_normal))]
fn usual_normal(actual: u8) -> u8
    requires { 1 ≤ actual }
    ensures { result ≡ normal_for First actual }
{
    match actual {
        2 => 3,
        3 => 2,
        4 => 3,
        _ => actual - 1,
    }
}

// The second edition's; of 5, 7 and 9 the meter decides.
#[tactic(auto, unfolding(reader::specs::Tuplets::normal_for, reader::specs::Tuplets::or_one_less, standard::specs::Tuplets::default_normal, standard::specs::Tuplets::usual_normal))]
fn standard_normal(actual: u8) -> u8
    requires { 1 ≤ actual }
    ensures { result ≡ normal_for Second actual }
{
    match actual {
        5 => BY_METER,
        6 => 2,
        7 => BY_METER,
        8 => 3,
        9 => BY_METER,
        _ => usual_normal(actual),
    }
}

fn default_normal(edition: Edition, actual: u8) -> u8
    requires { 1 ≤ actual }
    ensures { result ≡ normal_for edition actual }
{
    match edition {
        Edition::First => usual_normal(actual),
        Edition::Second => standard_normal(actual),
    }
}

// The part of a tuplet marker behind its `:`, which stands before `at`: a number from 1 to `top`. In the second edition an empty one is its default.
fn part_or(edition: Edition, line: &[u8], at: usize, default: u64, top: u64) -> Option<Read<u64>>
    ensures { result ≡ number_for (end_of is_digit line.now at) (part_or edition default top (drop at line.now)) }
{
    match edition {
        Edition::First => positive(line, at, top),
        Edition::Second => {
            if text_bytes::is_digit(text_bytes::byte_at(line, at)) {
                return positive(line, at, top);
            }
            Some(Read {
                value: default,
                next: at,
            })
        }
    }
}

// The tuplet marker `(p`, `(p:q` or `(p:q:r` whose `(` stands at `at`.
pub fn parse_abc_tuplet(edition: Edition, line: &[u8], at: usize) -> Option<Read<Tuplet>>
    requires { at < length line.now }
    ensures { result ≡ tuplet_for at (tuplet_of edition (drop (at + 1) line.now)) }
{
    let p = positive(line, at + 1, 255)?;
    if p.value < 2 {
        return None;
    }
    let actual = p.value as u8;
    let default = default_normal(edition, actual);
    if text_bytes::byte_at(line, p.next) != b':' {
        return Some(Read {
            value: Tuplet {
                actual,
                normal: default,
                count: p.value,
            },
            next: p.next,
        });
    }
    let q = part_or(edition, line, p.next + 1, default as u64, 255)?;
    let normal = q.value as u8;
    if text_bytes::byte_at(line, q.next) != b':' {
        return Some(Read {
            value: Tuplet {
                actual,
                normal,
                count: p.value,
            },
            next: q.next,
        });
    }
    let r = part_or(edition, line, q.next + 1, p.value, 18446744073709551615)?;
    Some(Read {
        value: Tuplet {
            actual,
            normal,
            count: r.value,
        },
        next: r.next,
    })
}
