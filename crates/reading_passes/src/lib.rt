// The walk of a part, pass by pass: what each pass lists, where the player goes on, and the whole list in its store.
#![tactic(auto)]

ghost use Rattle.std.specs.Prelude.{◌≡◌, ◌&&◌, ◌<◌, ◌^◌, leb, ltb};
ghost use Rattle.reading_list.specs.Numbers.{Room};
ghost use Rattle.reading_walk.specs.Spans.{open_before};
ghost use Rattle.reading_bars.specs.Bars.{span_of, LimitIs};
ghost use Rattle.reading_passes.specs.Walks.{Lists, entered_at, Starts, WalkedIs, ClosedIs, WentOn, KeptIs, kept_after, NextIs, PlayedIs};

use reading_bars::{Limit, Part};

// A pass of a section: the section's first measure, the pass, the span that is open before the section, the measure before which the player stands, the span that
// is open before that, and how many numbers are listed.
#[derive(Clone, Copy)]
pub struct Pass {
    pub section: usize,
    pub pass: usize,
    pub before: u64,
    pub at: usize,
    pub span: u64,
    pub from: usize,
}

// How a pass went: the pass, where in the list its numbers begin, the measure that closed it and the span that is open behind that, and how many numbers are listed.
// Where none closed it (`closed`) `at` is the measure before which the player stands, in a section that he opened or behind the last: both ends have the same numbers, so
// two cases of an enum would be no plainer than the flag.
#[derive(Clone, Copy)]
pub struct Walked {
    pub section: usize,
    pub pass: usize,
    pub before: u64,
    pub from: usize,
    pub at: usize,
    pub after: u64,
    pub count: usize,
    pub closed: bool,
}

// The last walk of a pass that was closed: from a measure from `least` up to below `end` it lists again those of the numbers `from` up to `to` that are above it; the
// measure before `end` closed it, behind which `span` is open.
#[derive(Clone, Copy)]
pub struct Kept {
    pub least: usize,
    pub end: usize,
    pub from: usize,
    pub to: usize,
    pub span: u64,
}

// Where the player goes on, and the limit that is known.
#[derive(Clone, Copy)]
pub struct Next {
    pub section: usize,
    pub pass: usize,
    pub before: u64,
    pub at: usize,
    pub span: u64,
    pub most: usize,
    pub end: usize,
}

// The pass with which a measure is entered: going forward into a left barline 1 or 3 begins a section.
fn enter(p: Pass, at: usize, left: u8, span: u64, count: usize) -> Pass
    ensures { result ≡ entered_at p at left span count }
{
    if p.section < at && reading_bars::opens(left) {
        return Pass {
            section: at,
            pass: 1,
            before: span,
            at,
            span,
            from: count,
        };
    }
    p
}

// One pass, measure by measure, until a measure closes it or opens another section; None where a number has no room.
fn walk_pass(part: &Part, list: &mut [u8], room: usize, start: Pass) -> Option<Walked>
    requires { (Room list.old room) × (Starts part.now.reading.now part.now.at part.now.measures room start) }
    ensures { WalkedIs part.now.reading.now part.now.at part.now.measures room start list.old list.new result }
{
    let mut span = start.span;
    let mut count = start.from;
    for at in start.at..part.measures {
        let bar = part.bar_at(at, span);
        if !reading_bars::is_skipped(bar.span, start.pass) {
            let p = enter(start, at, bar.left, span, count);
            if count == room {
                return None;
            }
            reading_list::put_number(list, count, at + 1);
            count += 1;
            if reading_bars::closes(bar.right) {
                return Some(Walked {
                    section: p.section,
                    pass: p.pass,
                    before: p.before,
                    from: p.from,
                    at,
                    after: bar.after,
                    count,
                    closed: true,
                });
            }
            if start.section < p.section {
                return Some(Walked {
                    section: p.section,
                    pass: p.pass,
                    before: p.before,
                    from: count,
                    at: at + 1,
                    after: bar.after,
                    count,
                    closed: false,
                });
            }
        }
        span = bar.after;
    }
    Some(Walked {
        section: part.measures,
        pass: 1,
        before: span,
        from: count,
        at: part.measures,
        after: span,
        count,
        closed: false,
    })
}

// A walk of the pass from this measure on is kept.
fn is_kept(kept: Kept, at: usize) -> bool
    ensures { result ≡ (leb kept.least at && ltb at kept.end) }
{
    kept.least <= at && at < kept.end
}

// One pass: listed again as it was kept, or measure by measure.
fn one_pass(part: &Part, list: &mut [u8], room: usize, start: Pass, kept: Kept) -> Option<Walked>
    requires stands { (Room list.old room) × (Starts part.now.reading.now part.now.at part.now.measures room start) }
    requires kept_is { (KeptIs part.now.reading.now part.now.at part.now.measures start.from start.pass kept) × (Lists part.now.reading.now part.now.at list.old start.from) }
    ensures { WalkedIs part.now.reading.now part.now.at part.now.measures room start list.old list.new result }
{
    if !is_kept(kept, start.at) {
        return walk_pass(part, list, room, start);
    }
    let count = reading_list::repeat_numbers(list, room, kept.from, kept.to, start.at, start.from)?;
    Some(Walked {
        section: start.section,
        pass: start.pass,
        before: start.before,
        from: start.from,
        at: kept.end - 1,
        after: kept.span,
        count,
        closed: true,
    })
}

// What is kept of a pass: the walk that was closed, unless what was kept before goes further.
fn keep(kept: Kept, w: Walked) -> Kept
    requires { (w.section < 2 ^ 32) × (w.at < 2 ^ 32) }
    ensures { result ≡ kept_after kept w }
{
    if w.closed && kept.end <= w.at + 1 {
        return Kept {
            least: w.section + 1,
            end: w.at + 1,
            from: w.from,
            to: w.count,
            span: w.after,
        };
    }
    kept
}

// The limit of a section: as it is known, or looked up.
fn limit_of(part: &Part, section: usize, before: u64, known: Limit) -> Limit
    requires { (section < part.now.measures) × (span_of before ≡ open_before part.now.reading.now part.now.at section) × (LimitIs part.now.reading.now part.now.at section known) }
    ensures section_lt_end { section < result.end }
    ensures limit_is { LimitIs part.now.reading.now part.now.at section result }
{
    if section < known.end {
        return known;
    }
    part.limit_from(section, before)
}

// Where the player goes on once measure w.at closed a pass. The limit is 2 at least, so pass 1 does not ask for it.
fn leave(part: &Part, start: Pass, w: Walked, known: Limit) -> Next
    requires { (ClosedIs part.now.reading.now part.now.at part.now.measures start w) × (LimitIs part.now.reading.now part.now.at w.section known) }
    ensures { NextIs part.now.reading.now part.now.at part.now.measures start w.count result }
{
    if w.pass == 1 {
        return Next {
            section: w.section,
            pass: 2,
            before: w.before,
            at: w.section,
            span: w.before,
            most: known.most,
            end: known.end,
        };
    }
    let limit = limit_of(part, w.section, w.before, known);
    if w.pass < limit.most {
        return Next {
            section: w.section,
            pass: w.pass + 1,
            before: w.before,
            at: w.section,
            span: w.before,
            most: limit.most,
            end: limit.end,
        };
    }
    Next {
        section: w.at + 1,
        pass: 1,
        before: w.after,
        at: w.at + 1,
        span: w.after,
        most: limit.most,
        end: limit.end,
    }
}

// Where the player goes on after a pass.
fn go_on(part: &Part, start: Pass, w: Walked, known: Limit) -> Next
    requires { (WentOn part.now.reading.now part.now.at part.now.measures start w) × (LimitIs part.now.reading.now part.now.at start.section known) }
    ensures { NextIs part.now.reading.now part.now.at part.now.measures start w.count result }
{
    if w.closed {
        return leave(part, start, w, known);
    }
    Next {
        section: w.section,
        pass: w.pass,
        before: w.before,
        at: w.at,
        span: w.after,
        most: known.most,
        end: known.end,
    }
}

// Lists the measures of a part as they are played. Answers how many numbers are listed, or None where one has no room.
pub fn play(part: &Part, list: &mut [u8], room: usize) -> Option<usize>
    requires { Room list.old room }
    ensures { PlayedIs part.now.reading.now part.now.at room list.old list.new result }
{
    let none = Kept {
        least: 0,
        end: 0,
        from: 0,
        to: 0,
        span: 0,
    };
    let mut kept = [none; 33];
    let mut x = Next {
        section: 0,
        pass: 1,
        before: 0,
        at: 0,
        span: 0,
        most: 2,
        end: 0,
    };
    let mut count: usize = 0;
    while x.at < part.measures {
        let pass = x.pass;
        let start = Pass {
            section: x.section,
            pass,
            before: x.before,
            at: x.at,
            span: x.span,
            from: count,
        };
        let k = kept[pass];
        let w = one_pass(part, list, room, start, k)?;
        count = w.count;
        let q = w.pass;
        let old = kept[q];
        kept[q] = keep(old, w);
        let known = Limit {
            most: x.most,
            end: x.end,
        };
        x = go_on(part, start, w, known);
    }
    Some(count)
}
