// The stops of a part's notes (crate lyric_stops), from its measures and notes in scratch: for lyric lines of the second edition. One pass goes forward over the
// measures and their notes and writes each note's kind, and for the first of a measure the distance back; one goes back over the stops and writes the distances
// forward.
#![tactic(auto)]

ghost use Rattle.std.specs.Prelude.{◌≡◌, true, cond, [], ◌∷◌, ◌+◌, ◌*◌, ◌≤◌, ◌<◌};
ghost use Rattle.lyric_stops.specs.Stops.{Inside, stops_in};
ghost use Rattle.part_rows.specs.Encoded.{note_row_width};
ghost use Rattle.part_stops.specs.Marks.{mark_at, begun_after, marks_in, marks_of};
ghost use Rattle.part_stops.specs.Stops.{Marks, Room, AllMarked, HintsFrom, AheadOf, Aimed, AllAimed, Ready, Stopped};

use lyric_stops::{Kind, Stops};
use part_measures::MEASURE;
use part_rows::NOTE_ROW;

// FORWARD

// How many stops are written; the place of the last note that takes a syllable, from 1, or 0, from where the first one counts its distance, so no option; and whether
// a note of the measure does.
#[derive(Clone, Copy)]
pub struct Marked {
    pub count: usize,
    pub last: usize,
    pub begun: bool,
}

// A note that takes a syllable.
fn mark_taker(scratch: &mut [u8], stops: Stops, m: Marked) -> Marked
    requires { Room scratch.old stops m (cond m.begun Kind.Later Kind.First ∷ []) }
    ensures { Marks scratch.old scratch.new stops m result (cond m.begun Kind.Later Kind.First ∷ []) × (result.begun ≡ true) }
{
    let place = m.count + 1;
    if m.begun {
        lyric_stops::put_stop(scratch, stops, m.count, Kind::Later, 1);
        return Marked {
            count: place,
            last: place,
            begun: true,
        };
    }
    lyric_stops::put_stop(scratch, stops, m.count, Kind::First, place - m.last);
    Marked {
        count: place,
        last: place,
        begun: true,
    }
}

// The note of the row at `place`, if it is sung.
fn mark_row(scratch: &mut [u8], stops: Stops, place: usize, m: Marked) -> Marked
    requires { Room scratch.old stops m (mark_at scratch.old m.begun place) × (place + note_row_width ≤ stops.at) }
    ensures { Marks scratch.old scratch.new stops m result (mark_at scratch.old m.begun place) × (result.begun ≡ begun_after scratch.old m.begun place) }
{
    if !part_rows::is_sung(scratch, place) {
        return m;
    }
    if part_rows::is_grace(scratch, place) {
        lyric_stops::put_stop(scratch, stops, m.count, Kind::Passed, 1);
        return Marked {
            count: m.count + 1,
            last: m.last,
            begun: m.begun,
        };
    }
    mark_taker(scratch, stops, m)
}

// The notes of a measure, whose k rows begin at `place`.
fn mark_rows(scratch: &mut [u8], stops: Stops, place: usize, k: usize, m: Marked) -> Marked
    requires { Room scratch.old stops m (marks_in scratch.old m.begun place k) × (place + note_row_width * k ≤ stops.at) }
    ensures { Marks scratch.old scratch.new stops m result (marks_in scratch.old m.begun place k) }
{
    let mut q = m;
    for i in 0..k {
        q = mark_row(scratch, stops, place + NOTE_ROW * i, q);
    }
    q
}

// The notes of n measures, whose rows begin at `notes`.
fn mark_measures(scratch: &mut [u8], stops: Stops, measures: usize, n: usize, notes: usize)
    requires { Ready scratch.old measures n notes stops }
    ensures { AllMarked scratch.old scratch.new stops (marks_of scratch.old measures notes n) }
{
    let mut count: usize = 0;
    let mut last: usize = 0;
    let mut p = notes;
    for i in 0..n {
        let k = part_measures::note_count(scratch, measures + MEASURE * i);
        let m = Marked {
            count,
            last,
            begun: false,
        };
        let r = mark_rows(scratch, stops, p, k, m);
        count = r.count;
        last = r.last;
        p += NOTE_ROW * k;
    }
}

// BACKWARD

// From a note on, the first that takes a syllable and the first that is the first of its measure; behind the last note where there is none.
#[derive(Clone, Copy)]
pub struct Ahead {
    pub taker: usize,
    pub first: usize,
}

// The distance of stop j, from what is ahead of it.
fn aim_stop(scratch: &mut [u8], stops: Stops, j: usize, a: Ahead) -> Ahead
    requires { (Inside scratch.old stops) × (j < stops.count) × (HintsFrom (stops_in scratch.old stops) (j + 1)) × (AheadOf (stops_in scratch.old stops) (j + 1) a) }
    ensures { Aimed scratch.old scratch.new stops j result }
{
    let x = lyric_stops::get_stop(scratch, stops, j);
    match x.kind {
        Kind::First => Ahead { taker: j, first: j },
        Kind::Passed => {
            lyric_stops::put_stop(scratch, stops, j, x.kind, a.taker - j);
            a
        }
        Kind::Later => {
            lyric_stops::put_stop(scratch, stops, j, x.kind, a.first - j);
            Ahead {
                taker: j,
                first: a.first,
            }
        }
    }
}

// The distances forward of all stops.
fn aim_stops(scratch: &mut [u8], stops: Stops)
    requires { Inside scratch.old stops }
    ensures { AllAimed scratch.old scratch.new stops }
{
    let mut a = Ahead {
        taker: stops.count,
        first: stops.count,
    };
    for j in (0..stops.count).rev() {
        a = aim_stop(scratch, stops, j, a);
    }
}

// THE WHOLE TABLE, of n measures from `measures` on, whose notes' rows begin at `notes`.
pub fn write_stops(scratch: &mut [u8], measures: usize, n: usize, notes: usize, stops: Stops)
    requires { Ready scratch.old measures n notes stops }
    ensures { Stopped scratch.old scratch.new measures n notes stops }
{
    mark_measures(scratch, stops, measures, n, notes);
    aim_stops(scratch, stops);
}
