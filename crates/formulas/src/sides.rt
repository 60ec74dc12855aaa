// `primal_wave`, `budget` and `Row::rhs_mag` of src/presolve/work.rs and model.rs of microlp 0.7.0,
// changed: what a row's activities say of it: whether no point meets it, whether it may force its
// variables, whether it is redundant.
ghost use Rattle.std.specs.Prelude.{◌≡◌};
ghost use Rattle.floats.specs.Num.{abs, ◌⊕◌};
ghost use Rattle.definition.specs.Model.{rhs_mag};
ghost use Rattle.definition.specs.Work as work;
ghost use Rattle.definition.specs.Sides as sides;
ghost use Rattle.formulas.specs.Bare.{bare, Says, ByParams};
ghost use Rattle.formulas.specs.Implied.{speaks, side_mag_of};

use crate::params::REDUNDANT_MARGIN;
use crate::{Limits, Side};
use definition::Activity;

// The lower side's tests stand beside the upper's: they read the other side and add where those subtract, a line each, and the
// definition has each spelled out.
// = rhs_mag, by the row's shift alone.
pub fn rhs_mag(b: f64, shift: f64) -> f64
    ensures { result ≡ abs (b ⊕ shift) }
{
    floats::absolute(b + shift)
}

impl Limits {
    // The magnitude of a bound as written.
    #[tactic(auto, unfolding(definition::specs::Model::rhs_mag))]
    pub(crate) fn rhs_mag(self, b: f64) -> f64
        ensures { result ≡ rhs_mag (bare self) b }
    {
        rhs_mag(b, self.shift)
    }

    // The row's magnitude at the corner that meets a side.
    fn mag(self, side: Side) -> f64
        ensures { result ≡ side_mag_of (bare self) side }
    {
        side.abs + self.rhs_mag(side.bound) + self.fold_scale
    }

    // That at its minimum corner, and at its maximum corner.
    #[tactic(auto, unfolding(definition::specs::Sides::mag_l))]
    pub fn mag_l(self, act: Activity) -> f64
        ensures { result ≡ sides.mag_l (bare self) act }
    {
        self.mag(self.hi_of(act))
    }

    #[tactic(auto, unfolding(definition::specs::Sides::mag_u))]
    pub fn mag_u(self, act: Activity) -> f64
        ensures { result ≡ sides.mag_u (bare self) act }
    {
        self.mag(self.lo_of(act))
    }

    // How far the row may be missed at a side.
    fn room(self, side: Side) -> f64
        ensures { Says self.feas self.terms result (λ M r. work.budget M r (side_mag_of (bare self) side)) }
    {
        self.budget(self.mag(side))
    }

    // What the row may be missed by, at a magnitude.
    #[tactic(auto, unfolding(definition::specs::Work::budget))]
    pub(crate) fn budget(self, m: f64) -> f64
        ensures { Says self.feas self.terms result (λ M r. work.budget M r m) }
    {
        tolerances::slack_tol(self.feas, m, self.terms)
    }

    // Infeasibility: the minimum corner lies above the row, or the maximum corner below it.
    #[tactic(auto, unfolding(floats::specs::Num::choose, definition::specs::Sides::above_hi, definition::specs::Sides::hi_side, definition::specs::Sides::budget_l, definition::specs::Sides::mag_l))]
    pub fn above_hi(self, act: Activity) -> bool
        ensures { Says self.feas self.terms result (λ M r. sides.above_hi M r (bare self) act) }
    {
        let side = self.hi_of(act);
        side.speaks() && side.sum - side.slack > side.bound + self.room(side)
    }

    #[tactic(auto, unfolding(floats::specs::Num::choose, definition::specs::Sides::below_lo, definition::specs::Sides::lo_side, definition::specs::Sides::budget_u, definition::specs::Sides::mag_u))]
    pub fn below_lo(self, act: Activity) -> bool
        ensures { Says self.feas self.terms result (λ M r. sides.below_lo M r (bare self) act) }
    {
        let side = self.lo_of(act);
        side.speaks() && side.sum + side.slack < side.bound - self.room(side)
    }

    // Forcing, the precheck over the working bounds.
    #[tactic(auto, unfolding(floats::specs::Num::choose, definition::specs::Sides::near_min, definition::specs::Sides::hi_side, definition::specs::Sides::budget_l, definition::specs::Sides::mag_l))]
    pub fn near_min(self, act: Activity) -> bool
        ensures { Says self.feas self.terms result (λ M r. sides.near_min M r (bare self) act) }
    {
        let side = self.hi_of(act);
        side.speaks() && side.sum >= side.bound - self.room(side)
    }

    #[tactic(auto, unfolding(floats::specs::Num::choose, definition::specs::Sides::near_max, definition::specs::Sides::lo_side, definition::specs::Sides::budget_u, definition::specs::Sides::mag_u))]
    pub fn near_max(self, act: Activity) -> bool
        ensures { Says self.feas self.terms result (λ M r. sides.near_max M r (bare self) act) }
    {
        let side = self.lo_of(act);
        side.speaks() && side.sum <= side.bound + self.room(side)
    }

    // Redundancy: whether each corner, with its slack, keeps to a limit.
    #[tactic(auto, unfolding(definition::specs::Sides::within_lo))]
    fn within_lo(self, limit: f64, act: Activity) -> bool
        ensures { result ≡ sides.within_lo limit (bare self) act }
    {
        !floats::is_finite(self.lo) || act.ninf_l == 0 && act.l - act.slack_l >= limit
    }

    #[tactic(auto, unfolding(definition::specs::Sides::within_hi))]
    fn within_hi(self, limit: f64, act: Activity) -> bool
        ensures { result ≡ sides.within_hi limit (bare self) act }
    {
        !floats::is_finite(self.hi) || act.ninf_u == 0 && act.u + act.slack_u <= limit
    }

    #[tactic(auto, unfolding(definition::specs::Sides::within))]
    pub fn within(self, act: Activity) -> bool
        ensures { result ≡ sides.within (bare self) act }
    {
        self.within_lo(self.lo, act) && self.within_hi(self.hi, act)
    }

    #[tactic(auto, unfolding(definition::specs::Sides::within_by))]
    fn within_by(self, red: f64, act: Activity) -> bool
        ensures { result ≡ sides.within_by red (bare self) act }
    {
        self.within_lo(self.lo + red, act) && self.within_hi(self.hi - red, act)
    }

    // The magnitude of a finite side.
    #[tactic(auto, unfolding(floats::specs::Num::choose, definition::specs::Sides::side_mag))]
    fn side_mag(self, b: f64) -> f64
        ensures { result ≡ sides.side_mag (bare self) b }
    {
        if floats::is_finite(b) {
            self.rhs_mag(b)
        } else {
            0.0
        }
    }

    #[tactic(auto, unfolding(definition::specs::Sides::mag_both))]
    fn mag_both(self, e: Activity) -> f64
        ensures { result ≡ sides.mag_both (bare self) e }
    {
        e.absL + e.absU + self.fold_scale + self.side_mag(self.lo) + self.side_mag(self.hi)
    }

    // The working activity is a precheck, and the emitted one, e, decides.
    #[tactic(auto, unfolding(definition::specs::Sides::redundant))]
    pub fn redundant(self, wact: Activity, e: Activity) -> bool
        ensures { ByParams result (λ M. sides.redundant M (bare self) wact e) }
    {
        self.within(wact)
            && self.within_by(REDUNDANT_MARGIN * floats::larger(self.mag_both(e), 1.0), e)
    }
}

impl Side {
    // Whether the activity can speak of the side.
    fn speaks(self) -> bool
        ensures { result ≡ speaks self }
    {
        floats::is_finite(self.bound) && self.ninf == 0
    }
}
