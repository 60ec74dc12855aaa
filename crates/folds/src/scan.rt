// A look at a row before it is folded: mostly no term leaves it.
ghost use Rattle.std.specs.Prelude.{◌≡◌, ◌<◌, get_or};
ghost use Rattle.definition.specs.Folds.{fold_fixed};
ghost use Rattle.space.specs.Store.{floats_of, numbers_of, HoldsF, HoldsN};
ghost use Rattle.view.specs.Known.{Spans, Written};
ghost use Rattle.folds.specs.Stands.{Standing, Turns};
ghost use Rattle.folds.specs.Scan.{leaves_at, Scanned};

use crate::folding::fixed;
use crate::holding::fold_fixed;
use definition::Rows;
use space::{Coeffs, Context, Len, Vars};

// Whether the term at place i leaves: its coefficient is zero, or its variable is fixed.
#[tactic(auto, using(crate::specs::Scan::leaves_zero, crate::specs::Scan::leaves_fixed))]
fn leaves(floats: &[f64], numbers: &[usize], cx: Context, i: usize) -> bool
    requires { (i < cx.terms) × HoldsF cx floats.now × HoldsN cx numbers.now × (get_or (numbers_of cx numbers.now).vars i 0 < cx.vars) }
    ensures { result ≡ leaves_at (floats_of cx floats.now) (numbers_of cx numbers.now) i }
{
    space::get::<Coeffs>(floats, cx, i) == 0.0
        || fixed(floats, cx, space::get::<Vars>(numbers, cx, i))
}

// Whether some term of a row leaves. A loop and no `any`: tried, the proof of what the closure asks did not close.
fn folds_any(starts: &[usize], floats: &[f64], numbers: &[usize], cx: Context, r: usize) -> bool
    requires r_lt_rows { (r < cx.rows) × HoldsF cx floats.now × HoldsN cx numbers.now }
    requires standing { Standing (Spans starts.now) cx r (floats_of cx floats.now) (numbers_of cx numbers.now) }
    ensures { Scanned starts.now r (floats_of cx floats.now) (numbers_of cx numbers.now) result }
{
    let a = starts[r];
    let n = space::get::<Len>(numbers, cx, r);
    for i in 0..n {
        if leaves(floats, numbers, cx, a + i) {
            return true;
        }
    }
    false
}

// = fold_fixed
pub fn fold_row(rows: Rows, floats: &mut [f64], numbers: &mut [usize], cx: Context, r: usize)
    requires r_lt_rows { (r < cx.rows) × HoldsF cx floats.old × HoldsN cx numbers.old }
    requires standing { Standing (Written rows) cx r (floats_of cx floats.old) (numbers_of cx numbers.old) }
    ensures { Turns (Written rows.entry) cx r
        (floats_of cx floats.old) (numbers_of cx numbers.old) (floats_of cx floats.new) (numbers_of cx numbers.new) (λ M. fold_fixed M r) }
{
    if folds_any(rows.starts, floats, numbers, cx, r) {
        fold_fixed(rows, floats, numbers, cx, r);
    }
}
