// `Work::activity` of src/presolve/work.rs of microlp 0.7.0, changed: what is read of an alive row, its
// sides and its activity.
ghost use Rattle.std.specs.Prelude.{◌≡◌, true, ◌&&◌, ◌+◌, ◌-◌, ◌^◌, ◌<◌, get_or};
ghost use Rattle.std.specs.Float.{nan};
ghost use Rattle.tolerances.specs.Tol.{at, term};
ghost use Rattle.tolerances.specs.Usual.{usual};
ghost use Rattle.definition.specs.Activities as definition;
ghost use Rattle.space.specs.Store.{floats_of, numbers_of, HoldsF, HoldsN};
ghost use Rattle.view.specs.Acts.{Ready, Reads, Any};
ghost use Rattle.view.specs.Known.{Spans};
ghost use Rattle.readers.specs.Reading.{row_of, Alive, ReadsF};
ghost use Rattle.readers.specs.Limits.{ReadsLimits};
ghost use Rattle.readers.specs.Knowing.{SpanAt, LimitsOf};
ghost use Rattle.readers.specs.Activity.{los_of, his_of};

use crate::boxes::Bounds;
use crate::vars::bound_tol;
use definition::Activity;
use formulas::{Ends, Limits, activity_step, no_activity};
use space::{Coeffs, Context, Ehi, Elo, FoldScale, Hi, Len, Lo, Shift, Vars};

// = nnz
pub fn written_terms(starts: &[usize], r: usize) -> usize
    requires { SpanAt starts.now r }
    ensures { result ≡ get_or starts.now (r + 1) 0 - get_or starts.now r 0 }
{
    starts[r + 1] - starts[r]
}

// The row's four floats, and a count of terms: some of what reads them does not look at it.
pub fn limits(floats: &[f64], cx: Context, r: usize, terms: usize) -> Limits
    requires { (r < cx.rows) × HoldsF cx floats.now }
    ensures { ReadsLimits cx (floats_of cx floats.now) r terms result }
{
    Limits {
        lo: space::get::<Lo>(floats, cx, r),
        hi: space::get::<Hi>(floats, cx, r),
        fold_scale: space::get::<FoldScale>(floats, cx, r),
        shift: space::get::<Shift>(floats, cx, r),
        feas: cx.feas,
        terms,
    }
}

// The row's limits: with all terms that it has as written.
pub fn written_limits(starts: &[usize], floats: &[f64], cx: Context, r: usize) -> Limits
    requires r_lt_rows { (r < cx.rows) × HoldsF cx floats.now }
    requires span_at { SpanAt starts.now r }
    ensures { LimitsOf starts.now cx (floats_of cx floats.now) r result }
{
    limits(floats, cx, r, written_terms(starts, r))
}

// Whether both emitted bounds of v are of usual size.
fn usual_bounds(floats: &[f64], cx: Context, v: usize) -> bool
    requires { (v < cx.vars) × HoldsF cx floats.now }
    ensures { result ≡ (usual cx.feas (get_or (floats_of cx floats.now).elo v nan) && usual cx.feas (get_or (floats_of cx floats.now).ehi v nan)) }
{
    tolerances::usual(cx.feas, space::get::<Elo>(floats, cx, v))
        && tolerances::usual(cx.feas, space::get::<Ehi>(floats, cx, v))
}

// = activity_step, its variable within lo..hi. Mostly both tolerances are the absolute part alone.
// Variable and coefficient stay two parameters: the walk reads them at once from two slices, and a struct
// of both would be taken apart again at each use.
// Compiled into the walk over a row's terms, so that the activity stays in registers.
#[inline(always)]
fn term_within(
    floats: &[f64],
    cx: Context,
    v: usize,
    a: f64,
    lo: f64,
    hi: f64,
    act: Activity,
) -> Activity
    requires { (v < cx.vars) × HoldsF cx floats.now × (act.ninf_l + 1 < 2 ^ 64) × (act.ninf_u + 1 < 2 ^ 64) }
    ensures { ReadsF Any cx (floats_of cx floats.now) result (λ M u. definition.activity_step M u lo hi (term v a) act) }
{
    if usual_bounds(floats, cx, v) {
        let ends = Ends {
            lo,
            hi,
            tol_lo: cx.feas,
            tol_hi: cx.feas,
        };
        return activity_step(act, a, ends);
    }
    let ends = Ends {
        lo,
        hi,
        tol_lo: bound_tol(floats, cx, v, false),
        tol_hi: bound_tol(floats, cx, v, true),
    };
    activity_step(act, a, ends)
}

// = activity_step over the box that is asked for
fn activity_term<B: Bounds>(
    floats: &[f64],
    cx: Context,
    v: usize,
    a: f64,
    act: Activity,
) -> Activity
    requires { (v < cx.vars) × HoldsF cx floats.now × (act.ninf_l + 1 < 2 ^ 64) × (act.ninf_u + 1 < 2 ^ 64) }
    ensures { ReadsF Any cx (floats_of cx floats.now) result (λ M u. definition.activity_step M u (at (los_of B.working u) v) (at (his_of B.working u) v) (term v a) act) }
{
    term_within(
        floats,
        cx,
        v,
        a,
        B::lo(floats, cx, v),
        B::hi(floats, cx, v),
        act,
    )
}

// = activity, over the working bounds or the emitted ones: `activity::<Working>` is compiled into its
// one caller, since every row of every wave has it.
pub fn activity<B: Bounds>(
    starts: &[usize],
    floats: &[f64],
    numbers: &[usize],
    cx: Context,
    r: usize,
) -> Activity
    requires r_lt_rows { (r < cx.rows) × HoldsF cx floats.now × HoldsN cx numbers.now × Alive (numbers_of cx numbers.now) r }
    requires ready { Ready (Spans starts.now) cx (floats_of cx floats.now) (numbers_of cx numbers.now) }
    ensures { Reads (Spans starts.now) cx (floats_of cx floats.now) (numbers_of cx numbers.now) result (λ M u. definition.activity M u (row_of u r) B.working) }
{
    let a = starts[r];
    let n = space::get::<Len>(numbers, cx, r);
    let mut act = no_activity();
    for i in 0..n {
        let v = space::get::<Vars>(numbers, cx, a + i);
        let x = space::get::<Coeffs>(floats, cx, a + i);
        act = activity_term::<B>(floats, cx, v, x, act);
    }
    act
}
