// The items of a part in order (the line table, crate scan_table): what each does to the part's tables and registers.
#![tactic(auto)]

ghost use Rattle.std.specs.Prelude.{◌≡◌, cond, List, [], ℕ, ◌+◌, ◌*◌, ◌^◌, ◌≤◌, ◌<◌, length};
ghost use Rattle.standard.specs.Keys.{Key as StandardKey};
ghost use Rattle.standard.specs.Lyrics.{next_verse};
ghost use Rattle.editions.specs.declared.Edition.{Edition};
ghost use Rattle.reader.specs.Scan as scan;
ghost use Rattle.reader.specs.Part.{first_key};
ghost use Rattle.reader.specs.Steps.{items_of};
ghost use Rattle.field_keys.specs.Passed.{key_as};
ghost use Rattle.part_layout.specs.Ends.{on_item};
ghost use Rattle.capacity.specs.Music.{music_of};
ghost use Rattle.scan_table.specs.Rows.{item_at, items_in, with_lyric, RowIs, table_end};
ghost use Rattle.part_invariant.specs.Lines.{RoomForBytes, RepresentedBetween, SimulatesItem};
ghost use Rattle.part_items.specs.Items.{begun, keyed_as, versed, Ready, Taken, Built};

use editions::Edition;
use field_keys::Key;
use part_accidentals::AbcPartParseState;
use part_registers::{Counts, Line, Pending, Registers, Running, Tables, Verses};
use scan_table::{Kind, Row};

// A part before its first item: C major, 4/4, unit 1/8.
pub fn begin_part() -> Registers
    ensures { result ≡ begun }
{
    Registers {
        counts: Counts {
            heads: 0,
            notes: 0,
            pitches: 0,
            scopes: 0,
        },
        key: AbcPartParseState {
            fifths: 128,
            minor: false,
            scopes: [0; 4],
        },
        last: [0; 4],
        pending: Pending {
            tie: false,
            slur: false,
            grace: false,
        },
        line: Line {
            unit: 8,
            top: 4,
            bottom: 4,
            overlay: 0,
            run: 0,
        },
        tuplet: Running::Nothing,
        half: None,
        verses: Verses {
            sounded: 0,
            start: 0,
            verse: 1,
        },
    }
}

// The registers with another key.
fn set_key(r: Registers, key: Key) -> Registers
    ensures { result ≡ keyed_as r (key_as key) }
{
    let mut x = r;
    x.key.fifths = key.fifths;
    x.key.minor = key.minor;
    x
}

// The key of a part that is named for the first time: the header's, but for one that the header names, which in the first edition begins with C major.
#[tactic(auto, unfolding(reader::specs::Part::first_key, standard::specs::Keys::plain_key))]
fn first_key(edition: Edition, in_header: bool, header: Key) -> Key
    ensures { key_as result ≡ first_key edition (key_as header) in_header }
{
    let plain = Key {
        fifths: 128,
        minor: false,
    };
    match edition {
        Edition::First => { if in_header { plain } else { header } }
        Edition::Second => header,
    }
}

// The part is named for the first time.
fn on_voice_declared(edition: Edition, r: Registers, in_header: bool, header: Key) -> Registers
    ensures { (t : Tables) (s : List ℕ) → SimulatesItem t s r s result [] (λ l. on_item edition (key_as header) l (scan.voice_declared in_header)) }
{
    set_key(r, first_key(edition, in_header, header))
}

// The part hears the header's key.
fn on_header_key(r: Registers, header: Key) -> Registers
    ensures { (ed : Edition) (t : Tables) (s : List ℕ) → SimulatesItem t s r s result [] (λ l. on_item ed (key_as header) l scan.key_in_header) }
{
    set_key(r, header)
}

// A V line: nothing is pending any more.
fn on_reset(r: Registers) -> Registers
    ensures { (ed : Edition) (t : Tables) (s : List ℕ) (header : StandardKey) → SimulatesItem t s r s result [] (λ l. on_item ed header l scan.reset) }
{
    let none = Pending {
        tie: false,
        slur: false,
        grace: false,
    };
    let mut x = r;
    x.pending = none;
    x
}

// A K line of the body: it marks the open measure. Where there is none, the header's key is heard.
fn on_key(store: &mut [u8], t: Tables, r: Registers, header: Key, key: Key) -> Registers
    requires { RoomForBytes t r.counts (length store.old) [] × RepresentedBetween t store.old r }
    ensures { (ed : Edition) → SimulatesItem t store.old r store.new result [] (λ l. on_item ed (key_as header) l (scan.key_change (key_as key))) }
{
    let counts = r.counts;
    if counts.heads == 0 {
        return part_steps::hear(r, header);
    }
    let i = (counts.heads - 1) as usize;
    part_measures::set_key_mark(store, t.heads, i, key);
    part_steps::hear(r, key)
}

// An M line of the body, on the open measure, if there is one.
fn on_meter(store: &mut [u8], t: Tables, r: Registers, top: u8, bottom: u8)
    requires { RoomForBytes t r.counts (length store.old) [] × RepresentedBetween t store.old r }
    ensures { (ed : Edition) (header : StandardKey) → SimulatesItem t store.old r store.new r [] (λ l. on_item ed header l (scan.meter_change (top, bottom))) }
{
    let counts = r.counts;
    if counts.heads == 0 {
        return;
    }
    let i = (counts.heads - 1) as usize;
    part_measures::set_meter(store, t.heads, i, top, bottom);
}

// The verse of the next lyric line: it is counted where the part has a place for verses; 32 at most.
#[tactic(auto, unfolding(standard::specs::Lyrics::next_verse))]
fn next_verse(verse: u8, placed: bool) -> u8
    ensures { result ≡ cond placed (next_verse verse) verse }
{
    if placed {
        verse.saturating_add(1).min(32)
    } else {
        verse
    }
}

// A lyric line is kept for the end: its row gets its verse and its first note.
fn on_lyric(store: &mut [u8], i: usize, r: Registers, placed: bool) -> Registers
    requires { table_end (i + 1) ≤ length store.old }
    ensures value { (result ≡ versed r placed) × (r.verses.start < 2 ^ 32) }
    ensures store_after { store.new ≡ with_lyric store.old i r.verses.verse r.verses.start }
{
    let verses = r.verses;
    scan_table::set_lyric(store, i, verses.verse, verses.start);
    let verse = next_verse(verses.verse, placed);
    let mut x = r;
    x.verses.verse = verse;
    x
}

// An item of the part, by its kind.
fn on_item(
    edition: Edition,
    text: &[u8],
    store: &mut [u8],
    i: usize,
    row: Row,
    t: Tables,
    r: Registers,
    header: Key,
) -> Registers
    requires { Ready text.now t row.part i store.old r × RowIs text.now (item_at store.old i) row }
    ensures { Taken edition text.now t (key_as header) row.part i store.old r store.new result }
{
    match row.kind {
        Kind::VoiceDeclared => on_voice_declared(edition, r, row.a == 1, header),
        Kind::Reset => on_reset(r),
        Kind::KeyInHeader => on_header_key(r, header),
        Kind::KeyChange => {
            let key = Key {
                fifths: row.a,
                minor: row.b == 1,
            };
            on_key(store, t, r, header, key)
        }
        Kind::MeterChange => {
            on_meter(store, t, r, row.a, row.b);
            r
        }
        Kind::LyricLine => on_lyric(store, i, r, row.a == 1),
        Kind::MusicLine => {
            let at = row.at;
            let end = row.end;
            part_body::parse_body_line(edition, &text[at..end], store, t, r, row.unit, row.a, row.b)
        }
    }
}

// Item i, if it is one of the part's.
fn take_item(
    edition: Edition,
    text: &[u8],
    store: &mut [u8],
    i: usize,
    part: u8,
    t: Tables,
    r: Registers,
    header: Key,
) -> Registers
    requires { Ready text.now t part i store.old r }
    ensures { Taken edition text.now t (key_as header) part i store.old r store.new result }
{
    let row = scan_table::get_item(text, store, i);
    if row.part != part {
        return r;
    }
    on_item(edition, text, store, i, row, t, r, header)
}

// The part's items among the first n, in order, into empty tables.
pub fn build_items(
    edition: Edition,
    text: &[u8],
    scratch: &mut [u8],
    n: usize,
    part: u8,
    t: Tables,
    header: Key,
) -> Registers
    requires { (table_end n ≤ t.heads) × RoomForBytes t begun.counts (length scratch.old) (music_of (items_of part (items_in text.now scratch.old n))) }
    ensures { Built edition text.now t (key_as header) part n scratch.old scratch.new result }
{
    let mut r = begin_part();
    for i in 0..n {
        r = take_item(edition, text, scratch, i, part, t, r, header);
    }
    r
}
