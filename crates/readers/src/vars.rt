// `is_int_domain`, `is_int`, `bound_tol` and the value in `empty_row_consistent` of
// src/presolve/model.rs and work.rs of microlp 0.7.0, changed: what is read of one variable.
ghost use Rattle.std.specs.Prelude.{◌≡◌, ◌<◌, length, get_or};
ghost use Rattle.definition.specs.Model.{is_int_domain};
ghost use Rattle.definition.specs.Work.{bound_tol};
ghost use Rattle.definition.specs.Singles.{fixed_value};
ghost use Rattle.space.specs.Store.{floats_of, HoldsF};
ghost use Rattle.view.specs.Acts.{Any};
ghost use Rattle.readers.specs.Reading.{ReadsF, Tells, Domains};
ghost use Rattle.readers.specs.Vars.{ReadsEnds, int_code};

use formulas::Ends;
use space::{Context, Ehi, Elo};

// = is_int_domain
pub fn is_int_domain(domain: &[u8], v: usize) -> bool
    requires { v < length domain.now }
    ensures { Tells (Domains domain.now) result (λ M. is_int_domain M v) }
{
    formulas::is_int_domain(domain[v])
}

// = is_int, by the codes alone: whatever the model is (`int_reads` has it of a model).
#[tactic(auto, unfolding(crate::specs::Vars::int_code, formulas::specs::Fixing::int_domain))]
pub fn is_int(domain: &[u8], cx: Context, v: usize) -> bool
    requires { v < length domain.now }
    ensures { result ≡ int_code cx.mip (get_or domain.now v 0) }
{
    cx.mip && formulas::is_int_domain(domain[v])
}

// = bound_tol. `upper` is a flag, as the definition's bound_tol has it: one function with that parameter is plainer
// than two.
pub fn bound_tol(floats: &[f64], cx: Context, v: usize, upper: bool) -> f64
    requires { (v < cx.vars) × HoldsF cx floats.now }
    ensures { ReadsF Any cx (floats_of cx floats.now) result (λ M u. bound_tol M u v upper) }
{
    if upper {
        tolerances::bound_tolerance(cx.feas, space::get::<Ehi>(floats, cx, v))
    } else {
        tolerances::bound_tolerance(cx.feas, space::get::<Elo>(floats, cx, v))
    }
}

// The emitted bounds of v, each with its tolerance.
pub fn emitted(floats: &[f64], cx: Context, v: usize) -> Ends
    requires { (v < cx.vars) × HoldsF cx floats.now }
    ensures { ReadsEnds cx (floats_of cx floats.now) v result }
{
    Ends {
        lo: space::get::<Elo>(floats, cx, v),
        hi: space::get::<Ehi>(floats, cx, v),
        tol_lo: bound_tol(floats, cx, v, false),
        tol_hi: bound_tol(floats, cx, v, true),
    }
}

// = fixed_value
pub(crate) fn fixed_value(floats: &[f64], cx: Context, v: usize) -> f64
    requires { (v < cx.vars) × HoldsF cx floats.now }
    ensures { ReadsF Any cx (floats_of cx floats.now) result (λ M u. fixed_value u v) }
{
    let lo = space::get::<Elo>(floats, cx, v);
    let hi = space::get::<Ehi>(floats, cx, v);
    if formulas::fixed_at(lo, hi) { lo } else { 0.0 }
}
