// `primal_wave` of src/presolve/work.rs of microlp 0.7.0, changed: the implied bound of a term from one
// side of its row.
ghost use Rattle.std.specs.Prelude.{◌≡◌, true};
ghost use Rattle.definition.specs.Implied as implied;
ghost use Rattle.formulas.specs.Bare.{bare, Says};
ghost use Rattle.formulas.specs.Implied.{rest_is, hi_of, lo_of, bounds_above, quotient_of, relax_of};
ghost use Rattle.formulas.specs.Stays.{not_negative, Relaxes};

use crate::{Limits, Side};
use definition::Activity;
use tolerances::ROUNDOFF_FLOOR;

impl Limits {
    // The upper side goes with the minimum corner, the lower side with the maximum corner. One function with a direction would
    // hold both literals.
    pub fn hi_of(self, act: Activity) -> Side
        ensures { result ≡ hi_of (bare self) act }
    {
        Side {
            bound: self.hi,
            sum: act.l,
            ninf: act.ninf_l,
            abs: act.absL,
            slack: act.slack_l,
        }
    }

    pub fn lo_of(self, act: Activity) -> Side
        ensures { result ≡ lo_of (bare self) act }
    {
        Side {
            bound: self.lo,
            sum: act.u,
            ninf: act.ninf_u,
            abs: act.absU,
            slack: act.slack_u,
        }
    }

    // What a side's implied bound is relaxed by: the row's budget where it is attained, round-off and slack.
    #[tactic(auto, unfolding(crate::specs::Implied::relax_of))]
    pub fn relaxation(self, side: Side, c: f64, rest: f64, a: f64) -> f64
        ensures { Says self.feas self.terms result (λ M r. relax_of M r (bare self) side c rest a) }
    {
        let m = self.rhs_mag(side.bound)
            + floats::larger(side.abs - finite_abs(c), 0.0)
            + floats::absolute(side.bound - rest)
            + self.fold_scale;
        (self.budget(m) + ROUNDOFF_FLOOR * side.abs + side.slack) / floats::absolute(a)
    }
}

impl Side {
    // The rest of the row at the corner, c being the term's part there: none where a term of it is infinite.
    #[tactic(auto, unfolding(floats::specs::Num::choose, definition::specs::Implied::rest_of))]
    pub fn rest_of(self, c: f64) -> Option<f64>
        ensures { rest_is result ≡ implied.rest_of self.sum self.ninf c }
    {
        if floats::is_finite(c) {
            if self.ninf == 0 {
                Some(self.sum - c)
            } else {
                None
            }
        } else {
            if self.ninf == 1 { Some(self.sum) } else { None }
        }
    }

    // The bound where the rest of the row is at its corner.
    #[tactic(auto, unfolding(crate::specs::Implied::quotient_of))]
    pub fn quotient(self, rest: f64, a: f64) -> f64
        ensures { result ≡ quotient_of self.bound rest a }
    {
        (self.bound - rest) / a
    }

    // Whether the tolerance and the side's own two numbers are not negative: then what a bound is relaxed by is not, whatever
    // the row's magnitude is.
    #[tactic(auto, unfolding(crate::specs::Stays::not_negative))]
    pub fn relaxes(self, feas: f64) -> bool
        ensures value { result ≡ not_negative feas self.abs self.slack }
        ensures relaxes { result ≡ true → Relaxes feas self.abs self.slack }
    {
        feas >= 0.0 && self.abs >= 0.0 && self.slack >= 0.0
    }
}

// Whether a side bounds the variable from above: upper says whether it bounds the row so.
#[tactic(auto, unfolding(floats::specs::Num::choose, crate::specs::Implied::bounds_above))]
pub fn bounds_above(upper: bool, a: f64) -> bool
    ensures { result ≡ bounds_above upper a }
{
    if a > 0.0 { upper } else { !upper }
}

#[tactic(auto, unfolding(floats::specs::Num::choose, definition::specs::Implied::finite_abs))]
fn finite_abs(c: f64) -> f64
    ensures { result ≡ implied.finite_abs c }
{
    if floats::is_finite(c) {
        floats::absolute(c)
    } else {
        0.0
    }
}
