// src/presolve/mod.rs of microlp 0.7.0, changed: the fate of each row, and the bound that a rewritten
// row goes out with, in the working slices.
ghost use Rattle.std.specs.Prelude.{◌≡◌, false, ◌<◌, get_or};
ghost use Rattle.space.specs.Store as store;
ghost use Rattle.space.specs.Store.{floats_of, numbers_of, HoldsF, HoldsN};
ghost use Rattle.view.specs.Acts.{Ready};
ghost use Rattle.view.specs.Known.{Written};
ghost use Rattle.readers.specs.Reading.{Alive};
ghost use Rattle.emit.specs.FateNumbers.{number_of};
ghost use Rattle.readers.specs.Trivial.{TellsTrivial};
ghost use Rattle.emit.specs.Judging.{Judged, JudgedRow};

use definition::Rows;
use emit::Fate;
use space::Context;

fn put_fate(numbers: &mut [usize], cx: Context, r: usize, fate: Fate)
    requires { (r < cx.rows) × HoldsN cx numbers.old }
    ensures { numbers_of cx numbers.new ≡ store.put_fate r (number_of fate) (numbers_of cx numbers.old) }
{
    space::put::<space::Fate>(numbers, cx, r, usize::from(fate));
}

// Row r is at work and has a rewritten coefficient: it goes out rewritten where its bound is finite,
// and as written where not.
fn judge_touched(rows: Rows, floats: &mut [f64], numbers: &mut [usize], cx: Context, r: usize)
    requires r_lt_rows { (r < cx.rows) × HoldsF cx floats.old × HoldsN cx numbers.old × Alive (numbers_of cx numbers.old) r × (get_or (numbers_of cx numbers.old).touched r 0 ≡ 1) }
    requires tells_trivial { TellsTrivial cx rows.starts.now rows.cmp.now rows.rhs.now r false }
    requires ready { Ready (Written rows) cx (floats_of cx floats.old) (numbers_of cx numbers.old) }
    ensures { JudgedRow (Written rows.entry) cx (floats_of cx floats.old) (numbers_of cx numbers.old) (floats_of cx floats.new) (numbers_of cx numbers.new) r }
{
    let b = coeffs::rewritten_bound(rows, floats, numbers, cx, r);
    if floats::is_finite(b) {
        space::put::<space::Bound>(floats, cx, r, b);
        put_fate(numbers, cx, r, Fate::Rewritten);
        return;
    }
    put_fate(numbers, cx, r, Fate::Written);
}

// = fate_of, and the bound of a rewritten row
fn judge_row(rows: Rows, floats: &mut [f64], numbers: &mut [usize], cx: Context, r: usize)
    requires r_lt_rows { (r < cx.rows) × HoldsF cx floats.old × HoldsN cx numbers.old }
    requires ready { Ready (Written rows) cx (floats_of cx floats.old) (numbers_of cx numbers.old) }
    ensures { JudgedRow (Written rows.entry) cx (floats_of cx floats.old) (numbers_of cx numbers.old) (floats_of cx floats.new) (numbers_of cx numbers.new) r }
{
    if readers::is_trivial(rows, cx, r) {
        put_fate(numbers, cx, r, Fate::Trivial);
        return;
    }
    let alive = space::get::<space::Alive>(numbers, cx, r);
    if alive != 1 {
        put_fate(numbers, cx, r, Fate::Dropped);
        return;
    }
    let touched = space::get::<space::Touched>(numbers, cx, r);
    if touched != 1 {
        put_fate(numbers, cx, r, Fate::Written);
        return;
    }
    judge_touched(rows, floats, numbers, cx, r);
}

// All rows are judged.
pub(crate) fn judge_rows(rows: Rows, floats: &mut [f64], numbers: &mut [usize], cx: Context)
    requires holds_f { HoldsF cx floats.old × HoldsN cx numbers.old }
    requires ready { Ready (Written rows) cx (floats_of cx floats.old) (numbers_of cx numbers.old) }
    ensures { Judged (Written rows.entry) cx (floats_of cx floats.old) (numbers_of cx numbers.old) (floats_of cx floats.new) (numbers_of cx numbers.new) cx.rows }
{
    for r in 0..cx.rows {
        judge_row(rows, floats, numbers, cx, r);
    }
}
