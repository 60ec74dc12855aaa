// `fold_fixed` and `hold_rewrites` of src/presolve/work.rs of microlp 0.7.0, changed: a row is folded,
// a rewritten one relaxed, and one whose rewrites left it no finite side is given back as written.
ghost use Rattle.std.specs.Prelude.{◌<◌};
ghost use Rattle.definition.specs.Folds.{fold_fixed};
ghost use Rattle.space.specs.Store.{floats_of, numbers_of, HoldsF, HoldsN};
ghost use Rattle.view.specs.Known.{Written};
ghost use Rattle.folds.specs.Stands.{Standing, Turns};
ghost use Rattle.folds.specs.Holding.{HoldsRow};

use crate::folding::fold_loop;
use crate::relaxing::relax_binding;
use crate::written::as_written;
use definition::Rows;
use space::{Binaries, Context, Folded, Hi, Lo};

// = hold_rewrites: whether the row was given back. It is then folded with no binding.
#[cycle(fold_fixed_hold_rewrites)]
pub fn hold_rewrites(
    rows: Rows,
    floats: &mut [f64],
    numbers: &mut [usize],
    cx: Context,
    r: usize,
) -> bool
    requires r_lt_rows { (r < cx.rows) × HoldsF cx floats.old × HoldsN cx numbers.old }
    requires standing { Standing (Written rows) cx r (floats_of cx floats.old) (numbers_of cx numbers.old) }
    ensures { HoldsRow (Written rows.entry) cx r
        (floats_of cx floats.old) (numbers_of cx numbers.old) (floats_of cx floats.new) (numbers_of cx numbers.new) result }
{
    if space::get::<Binaries>(numbers, cx, r) == 0
        || floats::is_finite(space::get::<Lo>(floats, cx, r))
        || floats::is_finite(space::get::<Hi>(floats, cx, r))
    {
        return false;
    }
    as_written(rows, floats, numbers, cx, r);
    fold_fixed(rows, floats, numbers, cx, r);
    true
}

// = fold_fixed
#[cycle(fold_fixed_hold_rewrites)]
pub(crate) fn fold_fixed(
    rows: Rows,
    floats: &mut [f64],
    numbers: &mut [usize],
    cx: Context,
    r: usize,
)
    requires r_lt_rows { (r < cx.rows) × HoldsF cx floats.old × HoldsN cx numbers.old }
    requires standing { Standing (Written rows) cx r (floats_of cx floats.old) (numbers_of cx numbers.old) }
    ensures { Turns (Written rows.entry) cx r
        (floats_of cx floats.old) (numbers_of cx numbers.old) (floats_of cx floats.new) (numbers_of cx numbers.new) (λ M. fold_fixed M r) }
{
    let before = space::get::<Folded>(numbers, cx, r);
    fold_loop(rows.starts, floats, numbers, cx, r);
    let after = space::get::<Folded>(numbers, cx, r);
    if before < after {
        relax_binding(rows.starts, floats, numbers, cx, r);
        hold_rewrites(rows, floats, numbers, cx, r);
    }
}
