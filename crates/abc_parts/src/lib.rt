// A part from its items: its tables in scratch, its items in order, its end, its lyrics, and its five sections.
#![tactic(auto)]

ghost use Rattle.std.specs.Prelude.{◌≡◌, ◌≤◌, length};
ghost use Rattle.reader.specs.Part.{build};
ghost use Rattle.reader.specs.Records as Records;
ghost use Rattle.reader.specs.Steps.{items_of};
ghost use Rattle.field_keys.specs.Passed.{key_as};
ghost use Rattle.scan_table.specs.Rows.{items_in};
ghost use Rattle.lyrics.specs.Items.{Fits};
ghost use Rattle.store_sections.specs.Writes.{WroteIs};
ghost use Rattle.part_sizing.specs.Room.{PartRoom, Sized};
ghost use Rattle.abc_parts.specs.Parts.{sheet_at, stops_at, StopsReady, PartRead, PartSung};

use editions::Edition;
use field_keys::Key;
use lyric_stops::Stops;
use lyrics::Sheet;
use part_registers::Tables;
use write_notes::{PartTables, Rows};

// A part that is read and ended: its tables, and how many of its notes are sung to.
#[derive(Clone, Copy)]
pub struct Ended {
    pub tables: PartTables,
    pub sounded: usize,
}

// The part's items in order, and its end.
fn read_part(
    edition: Edition,
    text: &[u8],
    scratch: &mut [u8],
    n: usize,
    part: u8,
    t: Tables,
    key: Key,
) -> Ended
    requires { (length text.now ≤ 67108864) × Sized text.now scratch.old n part t }
    ensures { PartRead edition text.now scratch.old n part (key_as key) t scratch.new result }
{
    let r = part_items::build_items(edition, text, scratch, n, part, t, key);
    let counts = r.counts;
    let verses = r.verses;
    let count = part_ends::end_part(scratch, t.heads, counts.heads as usize, key);
    let measures = Rows { at: t.heads, count };
    let notes = Rows {
        at: t.notes,
        count: counts.notes as usize,
    };
    let pitches = Rows {
        at: t.pitches,
        count: counts.pitches as usize,
    };
    let tables = PartTables {
        measures,
        notes,
        pitches,
    };
    Ended {
        tables,
        sounded: verses.sounded as usize,
    }
}

// The part's lyric lines, sung to its notes: the sheet stands where the accidentals in force stood, which are over.
fn sing_part(
    edition: Edition,
    text: &[u8],
    scratch: &mut [u8],
    n: usize,
    part: u8,
    t: Tables,
    d: Ended,
) -> Sheet
    requires { Fits text.now scratch.old n part (sheet_at t d.sounded 0) × StopsReady scratch.old d.tables (stops_at t d.sounded) }
    ensures { (result ≡ sheet_at t d.sounded result.count) × PartSung edition text.now scratch.old scratch.new n part t d result.count }
{
    let heads = t.scopes;
    let sounded = d.sounded;
    let at = heads + lyrics::HEAD * sounded;
    let log = at + lyric_stops::STOP * sounded;
    match edition {
        Edition::First => {
            let sheet = Sheet {
                heads,
                sounded,
                log,
                count: 0,
            };
            let count = lyric_items::apply_abc_lyrics(
                Edition::First,
                text,
                scratch,
                n,
                part,
                sheet,
            );
            Sheet {
                heads,
                sounded,
                log,
                count,
            }
        }
        Edition::Second => {
            let tables = d.tables;
            let measures = tables.measures;
            let notes = tables.notes;
            let stops = Stops { at, count: sounded };
            part_stops::write_stops(scratch, measures.at, measures.count, notes.at, stops);
            let sheet = Sheet {
                heads,
                sounded,
                log,
                count: 0,
            };
            let count = lyric_items::apply_abc_lyrics(
                Edition::Second,
                text,
                scratch,
                n,
                part,
                sheet,
            );
            Sheet {
                heads,
                sounded,
                log,
                count,
            }
        }
    }
}

// The five sections of a part, whose items are among the first n; the line table stays as it is but for verses and first notes of the part's lyric lines.
pub fn write_part(
    edition: Edition,
    text: &[u8],
    scratch: &mut [u8],
    n: usize,
    part: u8,
    key: Key,
    to: &mut [u8],
) -> Option<usize>
    requires { PartRoom text.now scratch.old n part }
    ensures wrote_is { WroteIs to.old (Records.sections (build edition (key_as key) (items_of part (items_in text.now scratch.old n)))) to.new result }
    ensures items_unchanged { (items_in text.now scratch.new n ≡ items_in text.now scratch.old n) × (length scratch.new ≡ length scratch.old) }
{
    let t = part_sizing::size_part(text, scratch, n, part);
    let d = read_part(edition, text, scratch, n, part, t, key);
    let sheet = sing_part(edition, text, scratch, n, part, t, d);
    let tables = d.tables;
    write_part::write_sections(text, scratch, tables, sheet, to)
}
