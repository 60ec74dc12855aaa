// Values that are to be whole numbers.
ghost use Rattle.std.specs.Prelude.{◌≡◌, ◌<◌, length};
ghost use Rattle.definition.specs.Of.{input_model};
ghost use Rattle.plan.specs.Nearest as defs;
ghost use Rattle.plan.specs.Plan.{first, not_whole, whole_missed};

use crate::Verdict;
use definition::Input;

// The whole number nearest to x, of two the lower.
#[tactic(auto, unfolding(crate::specs::Nearest::nearest, floats::specs::Num::choose))]
pub(crate) fn nearest(x: f64) -> f64
    ensures { result ≡ defs.nearest x }
{
    let below = floats::floor(x);
    let above = floats::ceil(x);
    if x - below <= above - x { below } else { above }
}

// = not_whole: Integer and Boolean variables need a whole number, in both modes of Mip.
fn not_whole(input: Input, plan: &[f64], v: usize) -> bool
    requires { (length input.domain.now ≡ length input.lower.now) × (length plan.now ≡ length input.lower.now) × (v < length input.lower.now) }
    ensures { result ≡ not_whole (input_model input.entry) plan.now v }
{
    let value = plan[v];
    let whole = nearest(value);
    (input.mode != 0)
        & (input.domain[v] != 1)
        & tolerances::outside(value, whole, whole, input.int_tol)
}

// = whole_missed, of the first variable that it says something of.
pub(crate) fn first_missed(input: Input, plan: &[f64]) -> Option<Verdict>
    requires { (length input.domain.now ≡ length input.lower.now) × (length plan.now ≡ length input.lower.now) }
    ensures { result ≡ first (whole_missed (input_model input.entry) plan.now) (length input.entry.lower.now) }
{
    for v in 0..input.lower.len() {
        if not_whole(input, plan, v) {
            return Some(Verdict::NotWhole(v));
        }
    }
    None
}
