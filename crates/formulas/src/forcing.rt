// `forcing_fixings` of src/presolve/work.rs of microlp 0.7.0, changed: whether a row leaves a term's
// variable one whole number, and which end that is.
ghost use Rattle.std.specs.Prelude.{◌≡◌};
ghost use Rattle.formulas.specs.Bare.{Says};
ghost use Rattle.formulas.specs.Forcing.{forced_by, sliver_fits, corner_of};

use crate::{Limits, Sliver};
use tolerances::ROUNDOFF_FLOOR;

impl Limits {
    // Whether the corner over the emitted bounds meets the row's bound: before any term is looked at.
    #[tactic(auto, unfolding(crate::specs::Forcing::sliver_fits))]
    pub fn sliver_fits(self, sliver: Sliver) -> bool
        ensures { Says self.feas self.terms result (λ M r. sliver_fits M r sliver.gap sliver.mag) }
    {
        let Sliver { gap, mag } = sliver;
        gap <= ROUNDOFF_FLOOR * mag && -gap <= self.budget(mag)
    }

    // One term, by its coefficient, its variable's emitted bounds, and whether that is an integer one. No `Ends`: it reads no tolerance.
    #[tactic(auto, unfolding(crate::specs::Forcing::forced_by))]
    pub fn forced(self, is_int: bool, a: f64, elo: f64, ehi: f64, sliver: Sliver) -> bool
        ensures { Says self.feas self.terms result (λ M r. forced_by M r is_int a elo ehi sliver.gap sliver.mag) }
    {
        let Sliver { gap, mag } = sliver;
        let p = floats::absolute(a);
        is_int
            && p * (ehi - elo) > floats::larger(gap, 0.0) + ROUNDOFF_FLOOR * mag
            && floats::larger(gap + self.budget(mag), 0.0) / p < 1.0
    }
}

// The end of a variable towards the corner. Two numbers and no `Ends`: it reads no tolerance. The direction is the definition's own
// parameter.
#[tactic(auto, unfolding(floats::specs::Num::choose, crate::specs::Forcing::corner_of))]
pub fn corner(min_corner: bool, a: f64, elo: f64, ehi: f64) -> f64
    ensures { result ≡ corner_of min_corner a elo ehi }
{
    let upper = if a < 0.0 { min_corner } else { !min_corner };
    if upper { ehi } else { elo }
}
