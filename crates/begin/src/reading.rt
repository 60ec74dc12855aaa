// src/presolve/mod.rs of microlp 0.7.0, changed: the rows, read by their verdicts.
// A row that is trivially true is never at work, and one that cannot be met ends the call.
ghost use Rattle.std.specs.Prelude.{◌≡◌, ◌≤◌, ◌<◌, get_or};
ghost use Rattle.space.specs.Store.{floats_of, numbers_of, HoldsF, HoldsN};
ghost use Rattle.view.specs.Known.{Written};
ghost use Rattle.folds.specs.Written.{Described};
ghost use Rattle.begin.specs.Reading.{cleared, skipped, joined, Cleared, ReadsOne, RowsRead};

use definition::{Infeasible, Rows};
use readers::verdict;
use space::{
    Alive, CoeffDirty, Context, Dirty, Dropped, Fixed, Passes, Queue, Queued, Rewrote, Tightened,
};

// Nothing is queued, and nothing is counted.
pub(crate) fn clear(numbers: &mut [usize], cx: Context)
    requires { HoldsN cx numbers.old }
    ensures { numbers_of cx numbers.new ≡ cleared (numbers_of cx numbers.old) }
{
    space::put::<Queued>(numbers, cx, 0, 0);
    space::put::<Dropped>(numbers, cx, 0, 0);
    space::put::<Tightened>(numbers, cx, 0, 0);
    space::put::<Fixed>(numbers, cx, 0, 0);
    space::put::<Rewrote>(numbers, cx, 0, 0);
    space::put::<Passes>(numbers, cx, 0, 0);
}

// Row r is trivially true.
fn skip_row(numbers: &mut [usize], cx: Context, r: usize)
    requires { (r < cx.rows) × HoldsN cx numbers.old }
    ensures { numbers_of cx numbers.new ≡ skipped r (numbers_of cx numbers.old) }
{
    space::put::<Alive>(numbers, cx, r, 0);
    space::put::<Dirty>(numbers, cx, r, 0);
    space::put::<CoeffDirty>(numbers, cx, r, 0);
    space::count::<Dropped>(numbers, cx);
}

// Row r joins the queue. Not bounds' `requeue`, which asks whether the row is in it: here no row is yet, and what
// stood in the flags before is not looked at.
fn queue_row(numbers: &mut [usize], cx: Context, r: usize)
    requires { (r < cx.rows) × (get_or (numbers_of cx numbers.old).queued 0 0 < cx.rows) × HoldsN cx numbers.old }
    ensures { numbers_of cx numbers.new ≡ joined r (numbers_of cx numbers.old) }
{
    let q = space::get::<Queued>(numbers, cx, 0);
    space::put::<Dirty>(numbers, cx, r, 1);
    space::put::<CoeffDirty>(numbers, cx, r, 1);
    space::put::<Queue>(numbers, cx, q, r);
    space::put::<Queued>(numbers, cx, 0, q + 1);
}

// = read_row
fn read_row(
    rows: Rows,
    floats: &mut [f64],
    numbers: &mut [usize],
    cx: Context,
    r: usize,
) -> Result<(), Infeasible>
    requires r_lt_rows { (r < cx.rows) × (get_or (numbers_of cx numbers.old).queued 0 0 ≤ r) × HoldsF cx floats.old × HoldsN cx numbers.old }
    requires given { Described (Written rows) cx }
    ensures { ReadsOne (Written rows.entry) cx r
        (floats_of cx floats.old) (numbers_of cx numbers.old) (floats_of cx floats.new) (numbers_of cx numbers.new) result }
{
    match verdict(rows, cx, r) {
        Some(true) => {
            skip_row(numbers, cx, r);
            Ok(())
        }
        Some(false) => Err(Infeasible),
        None => {
            folds::as_written(rows, floats, numbers, cx, r);
            queue_row(numbers, cx, r);
            Ok(())
        }
    }
}

// = read_from. Like reduce's `settle_rows` by chance: each is a loop over the rows, of another step.
pub(crate) fn read_rows(
    rows: Rows,
    floats: &mut [f64],
    numbers: &mut [usize],
    cx: Context,
) -> Result<(), Infeasible>
    requires holds_f { HoldsF cx floats.old × HoldsN cx numbers.old × Cleared cx (numbers_of cx numbers.old) }
    requires given { Described (Written rows) cx }
    ensures { RowsRead (Written rows.entry) cx
        (floats_of cx floats.old) (floats_of cx floats.new) (numbers_of cx numbers.new) result }
{
    for r in 0..cx.rows {
        read_row(rows, floats, numbers, cx, r)?;
    }
    Ok(())
}
