// A place in a music line, lent by `&mut` and moved on: one token is taken, and the cursor stands behind it.
// Thin over the token reader.
#![tactic(auto)]

ghost use Rattle.std.specs.Prelude.{◌≡◌, ◌+◌, ◌<◌, length, drop};
ghost use Rattle.reader.specs.Tokens.{token_of, effect_of};
ghost use Rattle.tokens.specs.Tokens.{effect_as};
ghost use Rattle.token_cursors.specs.Cursors.{moved_to};

use editions::Edition;
use token_symbols::Classes;
use tokens::Effect;

// The next byte to read, and the line's end: two numbers, lent by `&mut`, as 000 has them.
#[derive(Clone, Copy)]
pub struct Cursor {
    pub at: usize,
    pub end: usize,
}

// What the scan wants of the token at the cursor, which moves behind it.
pub fn next_effect(edition: Edition, line: &[u8], cursor: &mut Cursor, classes: &Classes) -> Effect
    requires { cursor.old.at < length line.now }
    ensures effect { effect_as result ≡ effect_of (token_of edition (drop cursor.old.at line.now)).token }
    ensures moved { cursor.new ≡ moved_to cursor.old (cursor.old.at + (token_of edition (drop cursor.old.at line.now)).used) }
{
    let read = tokens::effect_at(edition, line, cursor.at, classes);
    cursor.at = read.next;
    read.value
}
