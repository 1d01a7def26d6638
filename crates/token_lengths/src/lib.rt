// Lengths of notes as read, and broken rhythm.
#![tactic(auto)]

ghost use Rattle.std.specs.Prelude.{◌≡◌, ◌+◌, min};
ghost use Rattle.token_lengths.specs.Values.{broken_length, as_value};

// A length as read: a written value, 0 (longa) to 9 (128th), with its dots; or the whole bar, with its dots.
#[derive(Clone, Copy, Debug, PartialEq, Eq)]
pub enum Length {
    Written(u8, u8),
    WholeBar(u8),
}

// a + b, at most `top`.
fn sum_up_to(top: u8, a: u8, b: u8) -> u8
    ensures { result ≡ min top (a + b) }
{
    a.saturating_add(b).min(top)
}

// One note of a broken pair: `count` dots more, three at most, or halved as often, down to the 128th.
// A whole bar is not halved.
pub fn apply_abc_broken_rhythm(length: Length, lengthen: bool, count: u8) -> Length
    ensures { result ≡ broken_length lengthen count length }
{
    match length {
        Length::Written(value, dots) => {
            if lengthen {
                return Length::Written(value, sum_up_to(3, dots, count));
            }
            Length::Written(sum_up_to(9, value, count), dots)
        }
        Length::WholeBar(dots) => {
            if lengthen {
                return Length::WholeBar(sum_up_to(3, dots, count));
            }
            length
        }
    }
}

// The value in a record: 10 for a whole bar.
pub fn value_of(length: Length) -> u8
    ensures { result ≡ (as_value length).value }
{
    match length {
        Length::Written(value, _) => value,
        Length::WholeBar(_) => 10,
    }
}

// The dots in a record.
pub fn dots_of(length: Length) -> u8
    ensures { result ≡ (as_value length).dots }
{
    match length {
        Length::Written(_, dots) => dots,
        Length::WholeBar(dots) => dots,
    }
}
