// The lyric lines of a part, which are among the items of the line table, sung in order to its notes: each by the rules of the edition.
#![tactic(auto)]

ghost use Rattle.std.specs.Prelude.{◌+◌, ◌*◌, ◌<◌, [], replicate};
ghost use Rattle.lyrics.specs.Sheet.{with_count, syllables_in, Kept};
ghost use Rattle.lyrics.specs.Items.{Fits};
ghost use Rattle.lyric_items.specs.Items.{LineFrom, ItemFits, ItemSung, AllSung};

use editions::Edition;
use lyrics::{Line, Sheet};
use scan_table::Kind;

// The lyric line of an item: its verse and its first note stand in its row since the part was read.
fn line_of(item: scan_table::Row) -> Line
    ensures { LineFrom item result }
{
    Line {
        start: item.unit as usize,
        verse: item.b,
        at: item.at,
        end: item.end,
    }
}

// Item i, if it is a lyric line of the part.
fn sing_item(
    edition: Edition,
    text: &[u8],
    scratch: &mut [u8],
    i: usize,
    part: u8,
    sheet: Sheet,
) -> usize
    requires { ItemFits text.now scratch.old part i sheet }
    ensures { ItemSung edition text.now scratch.old scratch.new part i sheet result }
{
    let item = scan_table::get_item(text, scratch, i);
    if item.kind != Kind::LyricLine {
        return sheet.count;
    }
    if item.part != part {
        return sheet.count;
    }
    lyric_lines::sing_line(edition, text, scratch, sheet, line_of(item))
}

// The lyric lines of a part, which are among the first n items, in order.
fn sing_items(
    edition: Edition,
    text: &[u8],
    scratch: &mut [u8],
    n: usize,
    part: u8,
    sheet: Sheet,
) -> usize
    requires { (Fits text.now scratch.old n part sheet) × (Kept scratch.old (with_count sheet 0)) }
    ensures { AllSung edition text.now scratch.old scratch.new n part sheet (syllables_in text.now scratch.old (with_count sheet 0)) result }
{
    let mut count: usize = 0;
    for i in 0..n {
        let now = Sheet { count, ..sheet };
        count = sing_item(edition, text, scratch, i, part, now);
    }
    count
}

// Sings the lyric lines of a part, which are among the first n items, to its notes, whose stops stand behind the sheet's heads in the second edition. Answers how
// many rows are written.
pub fn apply_abc_lyrics(
    edition: Edition,
    text: &[u8],
    scratch: &mut [u8],
    n: usize,
    part: u8,
    sheet: Sheet,
) -> usize
    requires { Fits text.now scratch.old n part sheet }
    ensures { AllSung edition text.now scratch.old scratch.new n part sheet (replicate sheet.sounded []) result }
{
    store::clear_between(
        scratch,
        sheet.heads,
        sheet.heads + lyrics::HEAD * sheet.sounded,
    );
    sing_items(edition, text, scratch, n, part, sheet)
}
