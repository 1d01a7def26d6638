// The voices and the line table at the front of scratch: one reader and one writer for each kind of row. Rows hold places in the text, no copies.
#![tactic(auto)]

ghost use Rattle.std.specs.Prelude.{◌≡◌, ◌++◌, ◌+◌, ◌*◌, ◌^◌, ◌≤◌, ◌<◌, length};
ghost use Rattle.laws.specs.Bytes.{part, splice, le32};
ghost use Rattle.scan_table.specs.Rows.{voice_row_width, item_row_width, row_from, byte_of, kind_of, plain_row, dec_voice, voice_in, voices_in, FoundVoice, item_at, enc_item, with_lyric, Cut, RowIs};

// Where the items begin, behind the rows of 32 voices; the bytes of an item's row and of a voice's.
pub const ITEMS: usize = 256;

pub const ITEM: usize = 16;

pub const VOICE: usize = 8;

// Where the fields of a row stand: of a voice's, behind where its identifier begins; of an item's, behind its kind.
const VOICE_END: usize = 4;

const PART: usize = 1;

const A: usize = 2;

const B: usize = 3;

const AT: usize = 4;

const END: usize = 8;

const UNIT: usize = 12;

// The kinds of items, in the order of their bytes.
#[derive(Clone, Copy, Debug, PartialEq, Eq)]
pub enum Kind {
    VoiceDeclared,
    Reset,
    KeyInHeader,
    KeyChange,
    MeterChange,
    LyricLine,
    MusicLine,
}

// The byte of a kind.
impl From<Kind> for u8 {
    ghost from_gives = { λ kind byte. byte ≡ byte_of kind };

    fn from(kind: Kind) -> u8 {
        match kind {
            Kind::VoiceDeclared => 0,
            Kind::Reset => 1,
            Kind::KeyInHeader => 2,
            Kind::KeyChange => 3,
            Kind::MeterChange => 4,
            Kind::LyricLine => 5,
            Kind::MusicLine => 6,
        }
    }
}

// The kind of a byte: one past the last is read as a music line's.
impl From<u8> for Kind {
    ghost from_gives = { λ byte kind. kind ≡ kind_of byte };

    fn from(byte: u8) -> Kind {
        match byte {
            0 => Kind::VoiceDeclared,
            1 => Kind::Reset,
            2 => Kind::KeyInHeader,
            3 => Kind::KeyChange,
            4 => Kind::MeterChange,
            5 => Kind::LyricLine,
            _ => Kind::MusicLine,
        }
    }
}

// A part of the text, from `at` up to `end`.
#[derive(Clone, Copy, Debug, PartialEq, Eq)]
pub struct Place {
    pub at: usize,
    pub end: usize,
}

// An item of the scan. What its fields hold goes by its kind:
//   a voice declared: a = 1 in the header;  a key change: a fifths, b = 1 minor;  a meter change: a top, b bottom
//   a lyric line: a = 1 placed, at and end its words; once its part was read, b its verse and unit its first note
//   a music line: unit, a top and b bottom where it begins, at and end the line;  a reset, the header's key: nothing
// The fields stay flat, as a row's 16 bytes hold them: a lyric line gets its verse and its first note later, in bytes of which other kinds make another use.
#[derive(Clone, Copy, Debug, PartialEq, Eq)]
pub struct Row {
    pub kind: Kind,
    pub part: u8,
    pub a: u8,
    pub b: u8,
    pub at: usize,
    pub end: usize,
    pub unit: u32,
}

impl Row {
    // An item of a part that has no more than its kind.
    pub fn of(kind: Kind, part: u8) -> Row
        ensures { result ≡ plain_row kind part }
    {
        Row {
            kind,
            part,
            a: 0,
            b: 0,
            at: 0,
            end: 0,
            unit: 0,
        }
    }
}

// The place from `at` up to `end` in a text of `len` bytes: what reaches past the text is cut off.
pub fn cut_place(len: usize, at: usize, end: usize) -> Place
    ensures { Cut len at end result }
{
    let end = end.min(len);
    if at < end {
        Place { at, end }
    } else {
        Place { at: 0, end: 0 }
    }
}

// VOICES

// The identifier of voice i.
pub fn get_voice<'t>(text: &'t [u8], scratch: &[u8], i: usize) -> &'t [u8]
    requires { voice_row_width * i + voice_row_width ≤ length scratch.now }
    ensures { result.now ≡ voice_in text.now (dec_voice (part scratch.now (voice_row_width * i) voice_row_width)) }
{
    let at = store::get_u32(scratch, VOICE * i) as usize;
    let end = store::get_u32(scratch, VOICE * i + VOICE_END) as usize;
    let place = cut_place(text.len(), at, end);
    &text[place.at..place.end]
}

// The place of the identifier of voice n, one more.
pub fn push_voice(scratch: &mut [u8], n: usize, id: Place)
    requires { (voice_row_width * n + voice_row_width ≤ length scratch.old) × (id.at < 2 ^ 32) × (id.end < 2 ^ 32) }
    ensures { scratch.new ≡ splice scratch.old (voice_row_width * n) (le32 id.at ++ le32 id.end) }
{
    store::put_u32(scratch, VOICE * n, id.at as u32);
    store::put_u32(scratch, VOICE * n + VOICE_END, id.end as u32);
}

// The first of the n voices that has these bytes as its identifier.
pub fn find_voice(text: &[u8], scratch: &[u8], n: usize, id: &[u8]) -> Option<usize>
    requires { voice_row_width * n ≤ length scratch.now }
    ensures { FoundVoice id.now (voices_in text.now scratch.now n) result }
{
    for i in 0..n {
        if get_voice(text, scratch, i) == id {
            return Some(i);
        }
    }
    None
}

// ITEMS

// Item i.
pub fn get_item(text: &[u8], scratch: &[u8], i: usize) -> Row
    requires { row_from i + item_row_width ≤ length scratch.now }
    ensures { RowIs text.now (item_at scratch.now i) result }
{
    let from = ITEMS + ITEM * i;
    let at = store::get_u32(scratch, from + AT) as usize;
    let end = store::get_u32(scratch, from + END) as usize;
    let p = cut_place(text.len(), at, end);
    Row {
        kind: Kind::from(scratch[from]),
        part: scratch[from + PART],
        a: scratch[from + A],
        b: scratch[from + B],
        at: p.at,
        end: p.end,
        unit: store::get_u32(scratch, from + UNIT),
    }
}

// The number of item i's part.
pub fn part_of(scratch: &[u8], i: usize) -> u8
    requires { row_from i + item_row_width ≤ length scratch.now }
    ensures { result ≡ (item_at scratch.now i).part }
{
    scratch[ITEMS + ITEM * i + PART]
}

// Writes item i, which may be one more.
pub fn put_item(scratch: &mut [u8], i: usize, r: Row)
    requires { (row_from i + item_row_width ≤ length scratch.old) × (r.at < 2 ^ 32) × (r.end < 2 ^ 32) }
    ensures { scratch.new ≡ splice scratch.old (row_from i) (enc_item r) }
{
    let from = ITEMS + ITEM * i;
    store::put_4(scratch, from, u8::from(r.kind), r.part, r.a, r.b);
    store::put_u32(scratch, from + AT, r.at as u32);
    store::put_u32(scratch, from + END, r.end as u32);
    store::put_u32(scratch, from + UNIT, r.unit);
}

// The verse and the first note of the lyric line that is item i.
pub fn set_lyric(scratch: &mut [u8], i: usize, verse: u8, first: u32)
    requires { row_from i + item_row_width ≤ length scratch.old }
    ensures { scratch.new ≡ with_lyric scratch.old i verse first }
{
    let from = ITEMS + ITEM * i;
    store::put_u8(scratch, from + B, verse);
    store::put_u32(scratch, from + UNIT, first);
}
