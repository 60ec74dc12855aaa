// `relax_binding` of src/presolve/work.rs of microlp 0.7.0, changed: what a rewritten row's binding
// keeps grows with the terms folded out of it.
ghost use Rattle.std.specs.Prelude.{◌<◌};
ghost use Rattle.definition.specs.Folds.{relax_binding};
ghost use Rattle.space.specs.Store.{floats_of, numbers_of, HoldsF, HoldsN};
ghost use Rattle.view.specs.Known.{Spans};
ghost use Rattle.folds.specs.Stands.{Standing, Turns};
ghost use Rattle.folds.specs.Relaxing.{Widens};

use crate::besides::fixed_besides;
use space::{Binaries, Context, Hi, Kept, Lo, Rewritten, Written};

// = widen
#[tactic(auto, using(crate::specs::Relaxing::widen_hi, crate::specs::Relaxing::widen_lo, space::specs::Blocks::hi_length, space::specs::Blocks::lo_length))]
fn widen(floats: &mut [f64], cx: Context, r: usize, kept: f64, old: f64)
    requires { (r < cx.rows) × HoldsF cx floats.old }
    ensures { Widens cx r kept old (floats_of cx floats.old) (floats_of cx floats.new) }
{
    let hi = space::get::<Hi>(floats, cx, r);
    if floats::is_finite(hi) {
        space::put::<Hi>(floats, cx, r, hi + (kept - old));
    } else {
        let lo = space::get::<Lo>(floats, cx, r);
        space::put::<Lo>(floats, cx, r, lo - (kept - old));
    }
}

// = relax_binding
pub(crate) fn relax_binding(
    starts: &[usize],
    floats: &mut [f64],
    numbers: &[usize],
    cx: Context,
    r: usize,
)
    requires r_lt_rows { (r < cx.rows) × HoldsF cx floats.old × HoldsN cx numbers.now }
    requires standing { Standing (Spans starts.now) cx r (floats_of cx floats.old) (numbers_of cx numbers.now) }
    ensures { Turns (Spans starts.now) cx r (floats_of cx floats.old) (numbers_of cx numbers.now) (floats_of cx floats.new) (numbers_of cx numbers.now) relax_binding }
{
    if space::get::<Binaries>(numbers, cx, r) == 0 {
        return;
    }
    let fixed = fixed_besides(starts, floats, numbers, cx, r);
    let written = space::get::<Written>(floats, cx, r);
    let rewritten = space::get::<Rewritten>(floats, cx, r);
    let kept = formulas::rewrite_room(cx.feas, written, rewritten, fixed);
    let old = space::get::<Kept>(floats, cx, r);
    if kept > old {
        space::put::<Kept>(floats, cx, r, kept);
        widen(floats, cx, r, kept, old);
    }
}
