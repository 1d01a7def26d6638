// A list of numbers in its store, four bytes each, behind their count.
#![tactic(auto)]

ghost use Rattle.std.specs.Prelude.{◌≡◌, ◌+◌, ◌-◌, ◌/◌, ◌≤◌, ◌<◌, ◌^◌, min, length};
ghost use Rattle.laws.specs.Bytes.{le32, u32_at, splice};
ghost use Rattle.reading_list.specs.Numbers.{number_at, numbers_in, above, most_numbers, Room, CopiedIs};

// The most numbers of a list.
const MOST: usize = 4294967295;

// Number i of the list, from 0.
pub fn number_at(list: &[u8], i: usize) -> usize
    requires { number_at i + 4 ≤ length list.now }
    ensures { (result ≡ u32_at list.now (number_at i)) × (result < 2 ^ 32) }
{
    store::get_u32(list, reading_records::COUNT + reading_records::COUNT * i) as usize
}

pub fn put_number(list: &mut [u8], i: usize, number: usize)
    requires { (number_at i + 4 ≤ length list.old) × (number < 2 ^ 32) }
    ensures { list.new ≡ splice list.old (number_at i) (le32 number) }
{
    store::put_u32(
        list,
        reading_records::COUNT + reading_records::COUNT * i,
        number as u32,
    );
}

// Lists again those of the numbers `from` up to `to` that are above `least`, behind the `listed` that there are. Answers how many numbers are listed then, or None where
// one had no room.
// The store and its room stay two arguments: of a struct with the `&mut` store each function would have to ensure that its reference and its room are still the same, two facts for the one that `Room` says.
pub fn repeat_numbers(
    list: &mut [u8],
    room: usize,
    from: usize,
    to: usize,
    least: usize,
    listed: usize,
) -> Option<usize>
    requires { (Room list.old room) × (from ≤ to) × (to ≤ listed) × (listed ≤ room) }
    ensures { CopiedIs room listed (above least (numbers_in list.old from (to - from))) list.old list.new result }
{
    let mut count = listed;
    for i in from..to {
        let number = number_at(list, i);
        if least < number {
            if count == room {
                return None;
            }
            put_number(list, count, number);
            count += 1;
        }
    }
    Some(count)
}

// How many numbers a store of so many bytes has room for behind the count.
pub fn room_of(length: usize) -> usize
    requires { 4 ≤ length }
    ensures { result ≡ min ((length - 4) / 4) most_numbers }
{
    MOST.min((length - reading_records::COUNT) / reading_records::COUNT)
}
