// Measures as a player sees them, read off a part's records, and the limit of a section. A span is kept as a number: 0 is none, else its passes and 1.
#![tactic(auto)]

ghost use Rattle.std.specs.Prelude.{◌≡◌, cond, suc, ◌+◌, ◌≤◌, ◌<◌, ◌^◌, max, leb, length};
ghost use Rattle.reader.specs.Records.{measure_width};
ghost use Rattle.reading_sections.specs.Sections.{record_at};
ghost use Rattle.reading_walk.specs.Walk as walk;
ghost use Rattle.reading_walk.specs.Spans.{span_at, span_after, open_before};
ghost use Rattle.reading_bars.specs.Bars.{span_of, BarIs, LimitIs};
ghost use Rattle.reading_bars.specs.Parts.{Here};

// How many sets of the 32 passes there are.
const PASS_SETS: u64 = 4294967296;

// A part of a reading: where it begins, and how many measures it has. They lie within the reading's bytes.
#[derive(Clone, Copy)]
pub struct Part<'r> {
    pub reading: &'r [u8],
    pub at: usize,
    pub measures: usize,
    pub ghost here: { Here reading.now at measures },
}

// A measure: its barlines, the span that it lies in, and the span that is open behind it.
#[derive(Clone, Copy)]
pub struct Bar {
    pub left: u8,
    pub right: u8,
    pub span: u64,
    pub after: u64,
}

// The limit of sections; it is known for those that start below `end`.
#[derive(Clone, Copy)]
pub struct Limit {
    pub most: usize,
    pub end: usize,
}

// The span of a measure, before which another is open.
fn span_at(before: u64, volta: u8, passes: u64) -> u64
    requires { passes < 2 ^ 32 }
    ensures { span_of result ≡ span_at (span_of before) volta passes }
{
    if volta == 1 {
        return passes + 1;
    }
    if volta == 3 {
        return passes + 1;
    }
    before
}

// The span that is open behind it.
fn span_after(before: u64, volta: u8, passes: u64) -> u64
    requires { passes < 2 ^ 32 }
    ensures { span_of result ≡ span_after (span_of before) volta passes }
{
    if volta == 1 {
        return passes + 1;
    }
    if volta == 0 {
        return before;
    }
    0
}

impl Part<'_> {
    // Where the record of measure i stands.
    fn record_at(&self, i: usize) -> usize
        requires { i < self.now.measures }
        ensures { (result ≡ record_at measure_width self.now.at i) × (result + measure_width ≤ length self.now.reading.now) }
    {
        self.at + reading_records::COUNT + reading_records::MEASURE * i
    }

    // Measure i, before which `before` is open.
    pub fn bar_at(&self, i: usize, before: u64) -> Bar
        requires { i < self.now.measures }
        ensures { BarIs self.now.reading.now (record_at measure_width self.now.at i) before result }
    {
        let at = self.record_at(i);
        let volta = store::get_u8(self.reading, at + reading_records::VOLTA);
        let passes = u64::from(store::get_u32(self.reading, at + reading_records::PASSES));
        Bar {
            left: store::get_u8(self.reading, at + reading_records::LEFT),
            right: store::get_u8(self.reading, at + reading_records::RIGHT),
            span: span_at(before, volta, passes),
            after: span_after(before, volta, passes),
        }
    }

    // The limit of the section that starts at measure `start`, before which `before` is open.
    pub fn limit_from(&self, start: usize, before: u64) -> Limit
        requires start_in_part { start < self.now.measures }
        requires before_value { span_of before ≡ open_before self.now.reading.now self.now.at start }
        ensures start_lt_end { start < result.end }
        ensures limit_is { LimitIs self.now.reading.now self.now.at start result }
    {
        let mut limit = Limit {
            most: 2,
            end: start,
        };
        let mut span = before;
        for i in start..self.measures {
            let bar = self.bar_at(i, span);
            if start < i && opens(bar.left) {
                return limit;
            }
            limit = raised(limit, greatest_pass(bar.span), i);
            span = bar.after;
        }
        limit
    }
}

// A left barline that begins a section.
pub fn opens(left: u8) -> bool
    ensures { result ≡ walk.opens left }
{
    left == 1 || left == 3
}

// A right barline that ends one pass of it.
pub fn closes(right: u8) -> bool
    ensures { result ≡ walk.closes right }
{
    right == 2 || right == 3
}

fn has_pass(passes: u64, pass: usize) -> bool
    requires { (1 ≤ pass) × (pass ≤ 32) }
    ensures { result ≡ walk.has_pass passes pass }
{
    (passes >> (pass - 1)) % 2 == 1
}

// A measure of this span is left out in this pass.
pub fn is_skipped(span: u64, pass: usize) -> bool
    requires { (1 ≤ pass) × (pass ≤ 32) }
    ensures { result ≡ walk.is_skipped (span_of span) pass }
{
    if span == 0 {
        return false;
    }
    !has_pass(span - 1, pass)
}

// The greatest of some passes, 0 if there is none: as often as they can be halved.
fn greatest_of(passes: u64) -> usize
    requires { passes < 2 ^ 32 }
    ensures { result ≡ walk.greatest 32 passes }
{
    let mut rest = passes;
    let mut pass = 0;
    while 0 < rest {
        rest /= 2;
        pass += 1;
    }
    pass
}

// The greatest pass of a span, 0 if there is none.
fn greatest_pass(span: u64) -> usize
    ensures { result ≡ walk.top_of (span_of span) }
{
    if span == 0 {
        return 0;
    }
    greatest_of((span - 1) % PASS_SETS)
}

// The limit of a section of one measure, whose greatest pass is `top`.
fn limit_alone(top: usize) -> usize
    ensures { result ≡ max 2 top }
{
    top.max(2)
}

// The limit where measure i, whose greatest pass is `top`, is looked at too: it holds for every section start up to i if no measure before i has a greater pass.
fn raised(limit: Limit, top: usize, i: usize) -> Limit
    requires { (2 ≤ limit.most) × (i + 1 < 2 ^ 64) }
    ensures { (result.most ≡ max limit.most top) × (result.end ≡ cond (leb limit.most (max 2 top)) (suc i) limit.end) }
{
    let most = limit_alone(top);
    if most < limit.most {
        return limit;
    }
    Limit { most, end: i + 1 }
}
