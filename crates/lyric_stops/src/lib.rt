// The stops of a part in scratch, for lyric lines of the second edition: three bytes for each note of voice 0 that is no rest. A kind, in the two highest bits, says
// whether the note takes a syllable and is the first of its measure that does; a distance, in the other 22, how far a walk may go from it at once. A distance is a
// hint: it passes over nothing that is looked for, and may fall short. Nothing else knows a stop's bytes.
#![tactic(auto)]

ghost use Rattle.std.specs.Prelude.{◌≡◌, ◌+◌, ◌-◌, ◌*◌, ◌≤◌, ◌<◌, min, get_or};
ghost use Rattle.laws.specs.Bytes.{splice};
ghost use Rattle.lyric_stops.specs.Stops.{lyric_stop_width, farthest, bits_of, kind_of, stop_bytes, Inside, stops_in, no_stop, passed_place};
ghost use Rattle.lyric_stops.specs.Walks.{TakerFrom, FirstFrom, BackFrom};

// The bytes of a stop, and where the last of them stands.
pub const STOP: usize = 3;

const TOP: usize = 2;

// A note takes no syllable; takes one, as a note of its measure before it does; is the first of its measure that takes one.
#[derive(Clone, Copy, Debug, PartialEq, Eq)]
pub enum Kind {
    Passed,
    Later,
    First,
}

// The two bits of a kind.
impl From<Kind> for u8 {
    ghost from_gives = { λ kind bits. bits ≡ bits_of kind };

    fn from(kind: Kind) -> u8 {
        match kind {
            Kind::Passed => 0,
            Kind::Later => 1,
            Kind::First => 2,
        }
    }
}

// The kind of two bits: 3, which none has, is read as a later note's.
impl From<u8> for Kind {
    ghost from_gives = { λ bits kind. kind ≡ kind_of bits };

    fn from(bits: u8) -> Kind {
        match bits {
            0 => Kind::Passed,
            2 => Kind::First,
            _ => Kind::Later,
        }
    }
}

// The greatest distance.
const FARTHEST: usize = 4194303;

// Where a part's stops stand, and how many there are.
#[derive(Clone, Copy, Debug, PartialEq, Eq)]
pub struct Stops {
    pub at: usize,
    pub count: usize,
}

#[derive(Clone, Copy, Debug, PartialEq, Eq)]
pub struct Stop {
    pub kind: Kind,
    pub distance: usize,
}

// Stop j. Behind the last one a first note stands, at which every walk ends.
pub fn get_stop(scratch: &[u8], stops: Stops, j: usize) -> Stop
    requires { Inside scratch.now stops }
    ensures { (result ≡ get_or (stops_in scratch.now stops) j no_stop) × (1 ≤ result.distance) × (result.distance ≤ farthest) }
{
    if stops.count <= j {
        return Stop {
            kind: Kind::First,
            distance: 1,
        };
    }
    let place = stops.at + STOP * j;
    let low = store::get_u16(scratch, place);
    let top = scratch[place + TOP];
    Stop {
        kind: Kind::from(top / 64),
        distance: (low as usize + (top % 64) as usize * 65536).max(1),
    }
}

// Writes stop j.
pub fn put_stop(scratch: &mut [u8], stops: Stops, j: usize, kind: Kind, distance: usize)
    requires { (Inside scratch.old stops) × (j < stops.count) }
    ensures { scratch.new ≡ splice scratch.old (stops.at + lyric_stop_width * j) (stop_bytes kind (min distance farthest)) }
{
    let place = stops.at + STOP * j;
    let near = distance.min(FARTHEST);
    store::put_u16(scratch, place, (near % 65536) as u16);
    store::put_u8(
        scratch,
        place + TOP,
        u8::from(kind) * 64 + (near / 65536) as u8,
    );
}

// The first note from `from` on that takes a syllable; at the last note's number or beyond there is none.
pub fn seek_taker(scratch: &[u8], stops: Stops, from: usize) -> usize
    requires { Inside scratch.now stops }
    ensures { TakerFrom (stops_in scratch.now stops) from result }
{
    let mut j = from;
    let mut x = get_stop(scratch, stops, j);
    while x.kind == Kind::Passed {
        j += x.distance;
        x = get_stop(scratch, stops, j);
    }
    j
}

// The first note from `from` on that is the first of its measure; the same.
pub fn seek_first(scratch: &[u8], stops: Stops, from: usize) -> usize
    requires { Inside scratch.now stops }
    ensures { FirstFrom (stops_in scratch.now stops) from result }
{
    let mut j = from;
    let mut x = get_stop(scratch, stops, j);
    while x.kind != Kind::First {
        j += x.distance;
        x = get_stop(scratch, stops, j);
    }
    j
}

// A note, by its place from 1, that takes no syllable.
fn is_passed(scratch: &[u8], stops: Stops, place: usize) -> bool
    requires { Inside scratch.now stops }
    ensures { result ≡ passed_place (stops_in scratch.now stops) place }
{
    place != 0 && get_stop(scratch, stops, place - 1).kind == Kind::Passed
}

// The place that is `distance` before note h, from 1: 0 where there are fewer notes.
fn place_before(h: usize, distance: usize) -> usize
    requires { (h < 18446744073709551615) × (1 ≤ distance) }
    ensures { result ≡ h + 1 - distance }
{
    if h < distance { 0 } else { h - distance + 1 }
}

// The note before h that takes a syllable, by its place from 1, 0 if there is none; h is the first of its measure.
pub fn seek_back(scratch: &[u8], stops: Stops, h: usize) -> usize
    requires { (Inside scratch.now stops) × (h < stops.count) }
    ensures { BackFrom (stops_in scratch.now stops) h result }
{
    let x = get_stop(scratch, stops, h);
    let mut place = place_before(h, x.distance);
    while is_passed(scratch, stops, place) {
        place -= 1;
    }
    place
}
