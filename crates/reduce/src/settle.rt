// src/presolve/mod.rs of microlp 0.7.0, changed: the last look at the rows.
// Each is folded, and judged where no term is left: a fixing after the last wave, by dual fixing say,
// can leave a row none, and such a row is judged and not emitted. So the model may still turn out
// infeasible here.
ghost use Rattle.std.specs.Prelude.{◌<◌};
ghost use Rattle.definition.specs.Folds.{fold_fixed};
ghost use Rattle.space.specs.Store.{floats_of, numbers_of, HoldsF, HoldsN};
ghost use Rattle.view.specs.Acts.{Ready, Tries};
ghost use Rattle.view.specs.Known.{Written};
ghost use Rattle.readers.specs.Reading.{row_of, Alive};
ghost use Rattle.view.specs.Settled.{settle_alive, settle_row, settle_from};

use definition::{Infeasible, Rows};
use space::{Context, Len};

// = settle_alive, of the row folded
fn settle_alive(
    rows: Rows,
    floats: &mut [f64],
    numbers: &mut [usize],
    cx: Context,
    r: usize,
) -> Result<(), Infeasible>
    requires r_lt_rows { (r < cx.rows) × HoldsF cx floats.old × HoldsN cx numbers.old × Alive (numbers_of cx numbers.old) r }
    requires ready { Ready (Written rows) cx (floats_of cx floats.old) (numbers_of cx numbers.old) }
    ensures { Tries (Written rows.entry) cx
        (floats_of cx floats.old) (numbers_of cx numbers.old) (floats_of cx floats.new) (numbers_of cx numbers.new) result
        (λ M u. settle_alive M r (fold_fixed M r u (row_of u r)) u) }
{
    folds::fold_row(rows, floats, numbers, cx, r);
    let len = space::get::<Len>(numbers, cx, r);
    if len == 0 {
        return singles::empty_row_check(rows, floats, numbers, cx, r);
    }
    Ok(())
}

// = settle_row
fn settle_row(
    rows: Rows,
    floats: &mut [f64],
    numbers: &mut [usize],
    cx: Context,
    r: usize,
) -> Result<(), Infeasible>
    requires r_lt_rows { (r < cx.rows) × HoldsF cx floats.old × HoldsN cx numbers.old }
    requires ready { Ready (Written rows) cx (floats_of cx floats.old) (numbers_of cx numbers.old) }
    ensures { Tries (Written rows.entry) cx
        (floats_of cx floats.old) (numbers_of cx numbers.old) (floats_of cx floats.new) (numbers_of cx numbers.new) result (λ M. settle_row M r) }
{
    if readers::is_trivial(rows, cx, r) {
        return Ok(());
    }
    let alive = space::get::<space::Alive>(numbers, cx, r);
    if alive == 1 {
        return settle_alive(rows, floats, numbers, cx, r);
    }
    Ok(())
}

// = settle_from, of all rows
pub fn settle_rows(
    rows: Rows,
    floats: &mut [f64],
    numbers: &mut [usize],
    cx: Context,
) -> Result<(), Infeasible>
    requires holds_f { HoldsF cx floats.old × HoldsN cx numbers.old }
    requires ready { Ready (Written rows) cx (floats_of cx floats.old) (numbers_of cx numbers.old) }
    ensures { Tries (Written rows.entry) cx
        (floats_of cx floats.old) (numbers_of cx numbers.old) (floats_of cx floats.new) (numbers_of cx numbers.new) result
        (λ M. settle_from M cx.rows 0) }
{
    for r in 0..cx.rows {
        settle_row(rows, floats, numbers, cx, r)?;
    }
    Ok(())
}
