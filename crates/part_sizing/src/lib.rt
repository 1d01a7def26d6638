// Where the tables of a part stand in scratch: one pass over the bytes of its music lines says how many rows each can need.
#![tactic(auto)]

ghost use Rattle.std.specs.Prelude.{◌≡◌, [], ◌∷◌, ◌+◌, ◌*◌, ◌^◌, ◌≤◌, ◌<◌, length};
ghost use Rattle.reader.specs.Steps.{items_of};
ghost use Rattle.capacity.specs.Sizes.{is_bar, is_rest, is_sign};
ghost use Rattle.capacity.specs.Music.{music_of};
ghost use Rattle.scan_table.specs.Rows.{item_at, item_in, items_in, table_end};
ghost use Rattle.part_sizing.specs.Counting.{made_of, more, both, Few, Under, Adds, tables_at};
ghost use Rattle.part_sizing.specs.Room.{PartRoom, Sized};

use part_registers::Tables;
use scan_table::Kind;

// How many bytes of music can open a measure, name a pitch, be a rest, be an accidental's sign.
#[derive(Clone, Copy)]
pub struct Made<N> {
    pub bars: N,
    pub letters: N,
    pub rests: N,
    pub signs: N,
}

// The bytes that are counted in one go. Counts of one byte let a loop take many bytes at a time.
const BLOCK: usize = 240;

fn is_bar(c: u8) -> bool
    ensures { result ≡ is_bar c }
{
    c == b'|' || c == b':'
}

fn is_rest(c: u8) -> bool
    ensures { result ≡ is_rest c }
{
    c == b'z' || c == b'x' || c == b'Z' || c == b'X'
}

fn is_sign(c: u8) -> bool
    ensures { result ≡ is_sign c }
{
    c == b'^' || c == b'_' || c == b'='
}

// One byte more.
fn with_byte(m: Made<u8>, c: u8) -> Made<u8>
    requires { Under 255 m }
    ensures { result ≡ more m (c ∷ []) }
{
    Made {
        bars: m.bars + u8::from(is_bar(c)),
        letters: m.letters + u8::from(token_pitches::is_letter(c)),
        rests: m.rests + u8::from(is_rest(c)),
        signs: m.signs + u8::from(is_sign(c)),
    }
}

// The bytes of a block.
fn block_made(block: &[u8]) -> Made<u8>
    requires { length block.now ≤ 240 }
    ensures { result ≡ made_of block.now }
{
    let mut q = Made {
        bars: 0,
        letters: 0,
        rests: 0,
        signs: 0,
    };
    for c in block {
        q = with_byte(q, *c);
    }
    q
}

// A block more.
fn with_block(m: Made<usize>, b: Made<u8>) -> Made<usize>
    requires { Adds m b }
    ensures { result ≡ both m b }
{
    Made {
        bars: m.bars + b.bars as usize,
        letters: m.letters + b.letters as usize,
        rests: m.rests + b.rests as usize,
        signs: m.signs + b.signs as usize,
    }
}

// The bytes of a line more, block by block.
fn with_line(line: &[u8], m: Made<usize>) -> Made<usize>
    requires { Few m (length line.now + 1) }
    ensures { result ≡ more m line.now }
{
    let mut q = m;
    for block in line.chunks(BLOCK) {
        q = with_block(q, block_made(block));
    }
    q
}

// Item i more, if it is a music line of the part.
fn with_item(text: &[u8], scratch: &[u8], i: usize, part: u8, m: Made<usize>) -> Made<usize>
    requires { (table_end (i + 1) ≤ length scratch.now) × Few m (length text.now + 1) }
    ensures { result ≡ more m (music_of (items_of part (item_in text.now (item_at scratch.now i) ∷ []))) }
{
    let item = scan_table::get_item(text, scratch, i);
    let Kind::MusicLine = item.kind else {
        return m;
    };
    if item.part != part {
        return m;
    }
    let at = item.at;
    let end = item.end;
    with_line(&text[at..end], m)
}

// The music of a part, which is among the first n items.
fn made_by(text: &[u8], scratch: &[u8], n: usize, part: u8) -> Made<usize>
    requires { PartRoom text.now scratch.now n part }
    ensures { result ≡ made_of (music_of (items_of part (items_in text.now scratch.now n))) }
{
    let mut q = Made {
        bars: 0,
        letters: 0,
        rests: 0,
        signs: 0,
    };
    for i in 0..n {
        q = with_item(text, scratch, i, part, q);
    }
    q
}

// The tables behind n items, one behind the other: measures, notes, pitches, accidentals in force.
fn tables_at(n: usize, m: Made<usize>) -> Tables
    requires { (tables_at n m).end < 2 ^ 32 }
    ensures { result ≡ tables_at n m }
{
    let heads = scan_table::ITEMS + scan_table::ITEM * n;
    let notes = heads + part_measures::MEASURE * (m.bars + 1);
    let pitches = notes + part_rows::NOTE_ROW * (m.letters + m.rests);
    let scopes = pitches + part_rows::PITCH_ROW * m.letters;
    let end = scopes + part_rows::SCOPE_INDEX + part_rows::SCOPE_ROW * m.signs;
    Tables {
        heads,
        notes,
        pitches,
        scopes,
        end,
    }
}

// The tables of a part, whose items are among the first n. The sheet of its lyrics has room too, from the last table on, which is over by then.
pub fn size_part(text: &[u8], scratch: &[u8], n: usize, part: u8) -> Tables
    requires { PartRoom text.now scratch.now n part }
    ensures { Sized text.now scratch.now n part result }
{
    tables_at(n, made_by(text, scratch, n, part))
}
