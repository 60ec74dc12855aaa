// Values beyond a bound.
ghost use Rattle.std.specs.Prelude.{◌≡◌, ◌<◌, length};
ghost use Rattle.definition.specs.Of.{input_model};
ghost use Rattle.plan.specs.Plan.{first, bound_passed};

use crate::Verdict;
use definition::Input;
use tolerances::{bound_tolerance, outside};

// = bound_passed: each bound is asked by itself, its other side open, within its own tolerance.
#[tactic(auto, unfolding(crate::specs::Plan::bound_passed, crate::specs::Plan::passes_lower, crate::specs::Plan::passes_upper, floats::specs::Num::choose))]
fn bound_passed(input: Input, plan: &[f64], v: usize) -> Option<Verdict>
    requires { (length input.upper.now ≡ length input.lower.now) × (length plan.now ≡ length input.lower.now) × (v < length input.lower.now) }
    ensures { result ≡ bound_passed (input_model input.entry) plan.now v }
{
    let lower = input.lower[v];
    if outside(
        plan[v],
        lower,
        f64::INFINITY,
        bound_tolerance(input.feas, lower),
    ) {
        return Some(Verdict::Lower(v));
    }
    let upper = input.upper[v];
    if outside(
        plan[v],
        f64::NEG_INFINITY,
        upper,
        bound_tolerance(input.feas, upper),
    ) {
        return Some(Verdict::Upper(v));
    }
    None
}

// = bound_passed, of the first variable that it says something of.
pub(crate) fn first_passed(input: Input, plan: &[f64]) -> Option<Verdict>
    requires { (length input.upper.now ≡ length input.lower.now) × (length plan.now ≡ length input.lower.now) }
    ensures { result ≡ first (bound_passed (input_model input.entry) plan.now) (length input.entry.lower.now) }
{
    for v in 0..input.lower.len() {
        let passed = bound_passed(input, plan, v);
        if passed.is_some() {
            return passed;
        }
    }
    None
}
