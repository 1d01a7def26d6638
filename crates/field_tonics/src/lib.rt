// The tonic's name of a key, and the fifths of the fifteen major and fifteen minor names: `parse_key`'s two lists of names in the Rust source.
// Fifths have 128 added: 128 is none, one sharp more is one more.
#![tactic(auto)]

ghost use Rattle.std.specs.Prelude.{◌≡◌};
ghost use Rattle.standard.specs.Bytes.{is_capital};
ghost use Rattle.reader.specs.Keys.{fifths_of};
ghost use Rattle.field_tonics.specs.Names.{with_byte, tonic_in, first_of, lookup_in, looked_up};

// A name as far as it was read, without white space around it: nothing yet; one byte; one byte with white space behind it; two
// bytes; more than any name has. The first byte stays known.
#[derive(Clone, Copy, Debug, PartialEq, Eq)]
pub enum Name {
    Empty,
    One(u8),
    Gap(u8),
    Two(u8, u8),
    Long(u8),
}

// A key's name, of one byte or two, and its fifths.
#[derive(Clone, Copy, Debug, PartialEq, Eq)]
struct KeyName {
    name: Name,
    fifths: u8,
}

const MAJOR: [KeyName; 15] = [
    KeyName {
        name: Name::Two(b'C', b'b'),
        fifths: 121,
    },
    KeyName {
        name: Name::Two(b'G', b'b'),
        fifths: 122,
    },
    KeyName {
        name: Name::Two(b'D', b'b'),
        fifths: 123,
    },
    KeyName {
        name: Name::Two(b'A', b'b'),
        fifths: 124,
    },
    KeyName {
        name: Name::Two(b'E', b'b'),
        fifths: 125,
    },
    KeyName {
        name: Name::Two(b'B', b'b'),
        fifths: 126,
    },
    KeyName {
        name: Name::One(b'F'),
        fifths: 127,
    },
    KeyName {
        name: Name::One(b'C'),
        fifths: 128,
    },
    KeyName {
        name: Name::One(b'G'),
        fifths: 129,
    },
    KeyName {
        name: Name::One(b'D'),
        fifths: 130,
    },
    KeyName {
        name: Name::One(b'A'),
        fifths: 131,
    },
    KeyName {
        name: Name::One(b'E'),
        fifths: 132,
    },
    KeyName {
        name: Name::One(b'B'),
        fifths: 133,
    },
    KeyName {
        name: Name::Two(b'F', b'#'),
        fifths: 134,
    },
    KeyName {
        name: Name::Two(b'C', b'#'),
        fifths: 135,
    },
];

const MINOR: [KeyName; 15] = [
    KeyName {
        name: Name::Two(b'A', b'b'),
        fifths: 121,
    },
    KeyName {
        name: Name::Two(b'E', b'b'),
        fifths: 122,
    },
    KeyName {
        name: Name::Two(b'B', b'b'),
        fifths: 123,
    },
    KeyName {
        name: Name::One(b'F'),
        fifths: 124,
    },
    KeyName {
        name: Name::One(b'C'),
        fifths: 125,
    },
    KeyName {
        name: Name::One(b'G'),
        fifths: 126,
    },
    KeyName {
        name: Name::One(b'D'),
        fifths: 127,
    },
    KeyName {
        name: Name::One(b'A'),
        fifths: 128,
    },
    KeyName {
        name: Name::One(b'E'),
        fifths: 129,
    },
    KeyName {
        name: Name::One(b'B'),
        fifths: 130,
    },
    KeyName {
        name: Name::Two(b'F', b'#'),
        fifths: 131,
    },
    KeyName {
        name: Name::Two(b'C', b'#'),
        fifths: 132,
    },
    KeyName {
        name: Name::Two(b'G', b'#'),
        fifths: 133,
    },
    KeyName {
        name: Name::Two(b'D', b'#'),
        fifths: 134,
    },
    KeyName {
        name: Name::Two(b'A', b'#'),
        fifths: 135,
    },
];

// One byte more.
#[tactic(auto, unfolding(crate::specs::Names::with_byte))]
pub fn with_byte(name: Name, c: u8) -> Name
    ensures { result ≡ with_byte name c }
{
    let space = text_bytes::is_space(c);
    match name {
        Name::Empty => if space { name } else { Name::One(c) },
        Name::One(f) => if space { Name::Gap(f) } else { Name::Two(f, c) },
        Name::Gap(f) => if space { name } else { Name::Long(f) },
        Name::Two(f, _) => if space { name } else { Name::Long(f) },
        Name::Long(_) => name,
    }
}

// Its first byte, 0 if there is none.
pub fn first_of(name: Name) -> u8
    ensures { result ≡ first_of name }
{
    match name {
        Name::Empty => 0,
        Name::One(first) | Name::Gap(first) | Name::Two(first, _) | Name::Long(first) => first,
    }
}

// Its first byte is a capital.
pub fn begins_with_capital(name: Name) -> bool
    ensures { result ≡ is_capital (first_of name) }
{
    text_bytes::is_within(b'A', b'Z', first_of(name))
}

// The fifths of a name in a table of fifteen.
fn fifths_in(names: [KeyName; 15], name: Name) -> Option<u8>
    ensures { result ≡ lookup_in names name }
{
    for key in names {
        if key.name == name {
            return Some(key.fifths);
        }
    }
    None
}

// The fifths of a name in the table of its mode, none where it is none of them.
fn looked_up(minor: bool, name: Name) -> u8
    ensures { result ≡ looked_up minor name }
{
    fifths_in(if minor { MINOR } else { MAJOR }, name).unwrap_or(128)
}

// The fifths of the key on a tonic.
pub fn fifths_of(minor: bool, name: Name) -> u8
    ensures { result ≡ fifths_of minor (tonic_in name) }
{
    match name {
        Name::One(first) => looked_up(minor, Name::One(first)),
        Name::Gap(first) => looked_up(minor, Name::One(first)),
        Name::Two(first, second) => looked_up(minor, Name::Two(first, second)),
        Name::Empty | Name::Long(_) => 128,
    }
}
