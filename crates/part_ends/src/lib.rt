// The end of a part, over its measures in scratch (crate part_measures): an empty measure at the end goes, endings are closed, and the first measure gets its key
// mark. A table is where it begins and how many rows it has.
#![tactic(auto)]

ghost use Rattle.std.specs.Prelude.{◌≡◌, List, ◌∷◌, ◌++◌, ℕ, ◌+◌, ◌*◌, ◌≤◌, ◌<◌, length, None, Some};
ghost use Rattle.std.proofs.Math.Option.{Option, none};
ghost use Rattle.laws.specs.Lists.{All};
ghost use Rattle.standard.specs.Bars as standard;
ghost use Rattle.reader.specs.Voltas.{ends_ending};
ghost use Rattle.reader.specs.Codes.{barline_code};
ghost use Rattle.reader.specs.Records.{measure_width};
ghost use Rattle.field_keys.specs.Passed.{key_as};
ghost use Rattle.part_layout.specs.Log.{Head};
ghost use Rattle.part_layout.specs.Ends.{dropped, ends_at, close, marked};
ghost use Rattle.part_rows.specs.Table.{Table, Only};
ghost use Rattle.part_measures.specs.Heads.{head_row};
ghost use Rattle.part_ends.specs.Spans.{Stands, SpanIs, closed_head, span_after, Small};

use field_keys::Key;
use part_measures::Volta;
use token_symbols::Barline;

// An ending that is open: its first pass, and its passes as bits.
#[derive(Clone, Copy)]
pub struct Span {
    pub first: u8,
    pub passes: u32,
}

// THE EMPTY MEASURE AT THE END

// How many measures there are once an empty one at the end is gone.
pub fn drop_empty(store: &[u8], at: usize, n: usize) -> usize
    requires { at + measure_width * n ≤ length store.now }
    ensures upper_bound { result ≤ n }
    ensures value { (heads : List Head) → Table head_row measure_width store.now at heads → length heads ≡ n → All Small heads → (result ≡ length (dropped heads)) × Table head_row measure_width store.now at (dropped heads) }
{
    if n < 2 {
        return n;
    }
    if part_measures::is_empty(store, at, n - 1) {
        n - 1
    } else {
        n
    }
}

// ENDINGS

// Whether a right barline, by the number that is read back from its byte, ends an ending.
fn ends_ending(code: u8) -> bool
    ensures { (b : standard.Barline) → code ≡ barline_code b → result ≡ ends_ending b }
{
    let repeat_end = u8::from(Barline::RepeatEnd);
    let repeat_both = u8::from(Barline::RepeatBoth);
    if code == repeat_end {
        return true;
    }
    if code == repeat_both {
        return true;
    }
    code == u8::from(Barline::Final)
}

// Whether an ending that is open ends at row i: at its barline, or where no row or a start follows.
fn ends_at(store: &[u8], at: usize, n: usize, i: usize) -> bool
    requires { (at + measure_width * n ≤ length store.now) × (i < n) }
    ensures { (a b : List Head) (m : Head) → Stands store.now at n i a m b → result ≡ ends_at m b }
{
    if ends_ending(part_measures::get_right(store, at, i)) {
        return true;
    }
    if i + 1 == n {
        return true;
    }
    part_measures::begins_volta(store, at, i + 1)
}

// One measure with an ending open before it.
fn close_open(store: &mut [u8], at: usize, n: usize, i: usize, span: Span) -> Option<Span>
    requires { (at + measure_width * n ≤ length store.old) × (i < n) }
    ensures only { Only at (at + measure_width * n) store.old store.new }
    ensures table { (a b : List Head) (m : Head) (o : Option (List ℕ)) → Stands store.old at n i a m b → SpanIs (Some span) o → Table head_row measure_width store.new at (a ++ (closed_head o m b ∷ b)) × SpanIs result (span_after o m b) }
{
    if ends_at(store, at, n, i) {
        let code = u8::from(Volta::Ends);
        part_measures::set_volta(store, at, i, code, span.first, span.passes);
        return None;
    }
    Some(span)
}

// One measure with no ending open before it.
fn close_none(store: &mut [u8], at: usize, n: usize, i: usize) -> Option<Span>
    requires { (at + measure_width * n ≤ length store.old) × (i < n) }
    ensures only { Only at (at + measure_width * n) store.old store.new }
    ensures table { (a b : List Head) (m : Head) (o : Option (List ℕ)) → Stands store.old at n i a m b → SpanIs None o → Table head_row measure_width store.new at (a ++ (closed_head o m b ∷ b)) × SpanIs result (span_after o m b) }
{
    if !part_measures::begins_volta(store, at, i) {
        return None;
    }
    if ends_at(store, at, n, i) {
        part_measures::set_volta_kind(store, at, i, Volta::Alone);
        return None;
    }
    Some(Span {
        first: part_measures::get_first_pass(store, at, i),
        passes: part_measures::get_passes(store, at, i),
    })
}

// One measure.
fn close_at(store: &mut [u8], at: usize, n: usize, i: usize, span: Option<Span>) -> Option<Span>
    requires { (at + measure_width * n ≤ length store.old) × (i < n) }
    ensures only { Only at (at + measure_width * n) store.old store.new }
    ensures table { (a b : List Head) (m : Head) (o : Option (List ℕ)) → Stands store.old at n i a m b → SpanIs span o → Table head_row measure_width store.new at (a ++ (closed_head o m b ∷ b)) × SpanIs result (span_after o m b) }
{
    match span {
        None => close_none(store, at, n, i),
        Some(span) => close_open(store, at, n, i, span),
    }
}

// Each ending is closed at its first measure whose right barline ends it, before the next start; else at the last there.
pub fn close_abc_volta_spans(store: &mut [u8], at: usize, n: usize)
    requires { at + measure_width * n ≤ length store.old }
    ensures only { Only at (at + measure_width * n) store.old store.new }
    ensures table { (heads : List Head) → Table head_row measure_width store.old at heads → length heads ≡ n → Table head_row measure_width store.new at (close none heads) }
{
    let mut span = None;
    for i in 0..n {
        span = close_at(store, at, n, i, span);
    }
}

// THE FIRST MEASURE'S KEY

// The header's key on the first measure, if that has no key mark.
pub fn mark_first_key(store: &mut [u8], at: usize, n: usize, header: Key)
    requires { at + measure_width * n ≤ length store.old }
    ensures only { Only at (at + measure_width * n) store.old store.new }
    ensures table { (heads : List Head) → Table head_row measure_width store.old at heads → length heads ≡ n → Table head_row measure_width store.new at (marked (key_as header) heads) }
{
    if n == 0 {
        return;
    }
    if part_measures::has_key_mark(store, at, 0) {
        return;
    }
    part_measures::set_key_mark(store, at, 0, header);
}

// THE WHOLE END: how many measures there are then.
pub fn end_part(store: &mut [u8], at: usize, n: usize, header: Key) -> usize
    requires { at + measure_width * n ≤ length store.old }
    ensures upper_bound { (result ≤ n) × Only at (at + measure_width * n) store.old store.new }
    ensures value { (heads : List Head) → Table head_row measure_width store.old at heads → length heads ≡ n → All Small heads → (result ≡ length (dropped heads)) × Table head_row measure_width store.new at (marked (key_as header) (close none (dropped heads))) }
{
    let count = drop_empty(store, at, n);
    close_abc_volta_spans(store, at, count);
    mark_first_key(store, at, count, header);
    count
}
