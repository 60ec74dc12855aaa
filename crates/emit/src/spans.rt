// The spans of the emitted rows: in the model's slices, or among the terms of the rewritten rows.
ghost use Rattle.std.specs.Prelude.{◌≡◌, suc, ◌≤◌, ◌<◌, length};
ghost use Rattle.space.specs.Store.{numbers_of, HoldsN};
ghost use Rattle.emit.specs.Fates.{out_at};
ghost use Rattle.emit.specs.Filling.{Filled};
ghost use Rattle.emit.specs.Spans.{Spanned, terms_to, start_at, end_at};

use crate::fates::fate_of;
use space::{Context, Folded, Len};
use std::ops::Range;

// How many terms the rewritten rows have up to row r and with it; before is the number before it.
fn terms_with(starts: &[usize], numbers: &[usize], cx: Context, r: usize, before: usize) -> usize
    requires r_lt_rows { (r < cx.rows) × HoldsN cx numbers.now }
    requires spanned { Spanned cx starts.now (numbers_of cx numbers.now) }
    requires before_value { before ≡ terms_to (numbers_of cx numbers.now) r }
    ensures { result ≡ terms_to (numbers_of cx numbers.now) (suc r) }
{
    if fate_of(numbers, cx, r).is_rewritten() {
        let len = space::get::<Len>(numbers, cx, r);
        let folded = space::get::<Folded>(numbers, cx, r);
        return before + (len + folded);
    }
    before
}

// The span of row r, where the rewritten rows have so many terms before it, and so many with it.
fn span_of(
    starts: &[usize],
    numbers: &[usize],
    cx: Context,
    r: usize,
    before: usize,
    with: usize,
) -> Range<usize>
    requires r_lt_rows { (r < cx.rows) × HoldsN cx numbers.now × (cx.rows < length starts.now) }
    requires before_value { before ≡ terms_to (numbers_of cx numbers.now) r }
    requires with_value { with ≡ terms_to (numbers_of cx numbers.now) (suc r) }
    ensures from { result.start ≡ start_at (numbers_of cx numbers.now) starts.now r }
    ensures upto { result.end ≡ end_at (numbers_of cx numbers.now) starts.now r }
{
    if fate_of(numbers, cx, r).is_rewritten() {
        return before..with;
    }
    starts[r]..starts[r + 1]
}

// = from and upto of emitted, at the front of the two slices that C lends. How many there are. (Not by `collect`: where a
// rewritten row's span starts is by the rows before it.)
pub fn write_spans(
    starts: &[usize],
    numbers: &[usize],
    cx: Context,
    from: &mut [usize],
    upto: &mut [usize],
) -> usize
    requires holds_n { HoldsN cx numbers.now × (cx.rows ≤ length from.old) × (cx.rows ≤ length upto.old) }
    requires spanned { Spanned cx starts.now (numbers_of cx numbers.now) }
    ensures filled { Filled (out_at (numbers_of cx numbers.now).fate) (start_at (numbers_of cx numbers.now) starts.now) cx.rows from.old from.new result }
    ensures filled_2 { Filled (out_at (numbers_of cx numbers.now).fate) (end_at (numbers_of cx numbers.now) starts.now) cx.rows upto.old upto.new result }
{
    let mut before = 0;
    let mut n = 0;
    for r in 0..cx.rows {
        let with = terms_with(starts, numbers, cx, r, before);
        if fate_of(numbers, cx, r).is_out() {
            let span = span_of(starts, numbers, cx, r, before, with);
            from[n] = span.start;
            upto[n] = span.end;
            n += 1;
        }
        before = with;
    }
    n
}
