// A part's own items, in a line table of their own: what a part is read from costs by its own lines, however many the other parts have.
#![tactic(auto)]

ghost use Rattle.std.specs.Prelude.{◌≡◌, ◌+◌, ◌≤◌, length};
ghost use Rattle.scan_table.specs.Rows.{table_end};
ghost use Rattle.scan_parts.specs.Own.{Gathered, OwnItems};

use scan_table::{ITEM, ITEMS};

// How many rows of items the bytes before the items take.
const VOICE_ROWS: usize = 16;

// A line table with a part's items: where it begins in scratch, and how many items it has.
#[derive(Clone, Copy)]
pub struct Own {
    pub at: usize,
    pub count: usize,
}

// Copies the part's items, in their order, to a line table behind that of the n items; how many they are.
fn gather_items(text: &[u8], scratch: &mut [u8], n: usize, part: u8) -> usize
    requires { (table_end n + table_end n ≤ length scratch.old) × (length text.now ≤ 67108864) }
    ensures { Gathered text.now scratch.old n part scratch.new result }
{
    let mut count = 0;
    for i in 0..n {
        if scan_table::part_of(scratch, i) != part {
            continue;
        }
        let row = scan_table::get_item(text, scratch, i);
        scan_table::put_item(scratch, n + VOICE_ROWS + count, row);
        count += 1;
    }
    count
}

// The part's items, one of `parts` parts: where there is no other, all that there are.
pub fn own_items(text: &[u8], scratch: &mut [u8], n: usize, part: u8, parts: u8) -> Own
    requires { (table_end n + table_end n ≤ length scratch.old) × (length text.now ≤ 67108864) }
    ensures { OwnItems text.now scratch.old n part scratch.new result }
{
    if parts == 1 {
        return Own { at: 0, count: n };
    }
    let count = gather_items(text, scratch, n, part);
    Own {
        at: ITEMS + ITEM * n,
        count,
    }
}
