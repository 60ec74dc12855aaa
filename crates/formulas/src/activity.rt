// `Work::activity` and `term_range` of src/presolve/work.rs and model.rs of microlp 0.7.0, changed: a
// row's activity, term by term.
ghost use Rattle.std.specs.Prelude.{◌≡◌};
ghost use Rattle.std.specs.Float.Ieee.{lt};
ghost use Rattle.floats.specs.Num.{choose, ◌⊕◌, 0f, is_finite};
ghost use Rattle.floats.specs.Num.{abs as abs_of};
ghost use Rattle.definition.specs.Model as model;
ghost use Rattle.definition.specs.Activities.{no_activity};
ghost use Rattle.formulas.specs.Terms.{more, with_min, with_max, with_slacks, step_of};

use crate::Ends;
use definition::Activity;

// The activity of no term.
pub fn no_activity() -> Activity
    ensures { result ≡ no_activity }
{
    Activity {
        l: 0.0,
        u: 0.0,
        ninf_l: 0,
        ninf_u: 0,
        absL: 0.0,
        absU: 0.0,
        slack_l: 0.0,
        slack_u: 0.0,
    }
}

// The smallest of a * x over lo..hi, and the largest: the smallest with the bounds exchanged.
#[tactic(auto, unfolding(floats::specs::Num::choose, definition::specs::Model::range_min))]
pub fn range_min(a: f64, lo: f64, hi: f64) -> f64
    ensures { result ≡ model.range_min a lo hi }
{
    if a > 0.0 { a * lo } else { a * hi }
}

#[tactic(auto, unfolding(floats::specs::Num::choose, definition::specs::Model::range_min, definition::specs::Model::range_max))]
pub fn range_max(a: f64, lo: f64, hi: f64) -> f64
    ensures { result ≡ model.range_max a lo hi }
{
    range_min(a, hi, lo)
}

// A corner's sum, infinite terms and magnitude after a term's part more.
#[tactic(auto, unfolding(floats::specs::Num::choose))]
fn add(sum: f64, ninf: usize, abs: f64, c: f64) -> (f64, usize, f64)
    ensures { result ≡ (choose (is_finite c) (sum ⊕ c) sum, choose (is_finite c) ninf (more ninf), choose (is_finite c) (abs ⊕ abs_of c) abs) }
{
    if floats::is_finite(c) {
        (sum + c, ninf, abs + floats::absolute(c))
    } else {
        (sum, ninf.wrapping_add(1), abs)
    }
}

// A term's parts at the minimum and the maximum corner, and its slacks there.
#[tactic(auto, unfolding(crate::specs::Terms::with_min, crate::specs::Terms::with_max))]
fn add_term(act: Activity, cmin: f64, cmax: f64, slack_l: f64, slack_u: f64) -> Activity
    ensures { result ≡ with_slacks slack_l slack_u (with_max cmax (with_min cmin act)) }
{
    let (l, ninf_l, absL) = add(act.l, act.ninf_l, act.absL, cmin);
    let (u, ninf_u, absU) = add(act.u, act.ninf_u, act.absU, cmax);
    Activity {
        l,
        u,
        ninf_l,
        ninf_u,
        absL,
        absU,
        slack_l: act.slack_l + slack_l,
        slack_u: act.slack_u + slack_u,
    }
}

// The tolerance of the bound that a term takes at the minimum corner: a choice between two of the definition's own values.
#[tactic(auto, unfolding(floats::specs::Num::choose))]
fn tol_min(a: f64, e: Ends) -> f64
    ensures { result ≡ choose (lt a 0f) e.tol_hi e.tol_lo }
{
    if a < 0.0 { e.tol_hi } else { e.tol_lo }
}

// One term more: its coefficient, and its variable's bounds. One jump by the sign costs less than a choice for each corner.
#[tactic(auto, using(crate::specs::Terms::step_positive, crate::specs::Terms::step_other))]
pub fn activity_step(act: Activity, a: f64, e: Ends) -> Activity
    ensures { result ≡ step_of a e.lo e.hi e.tol_lo e.tol_hi act }
{
    let p = floats::absolute(a);
    if a > 0.0 {
        add_term(act, a * e.lo, a * e.hi, p * e.tol_lo, p * e.tol_hi)
    } else {
        add_term(act, a * e.hi, a * e.lo, p * tol_min(a, e), p * e.tol_lo)
    }
}
