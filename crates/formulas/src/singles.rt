// `singleton_row` of src/presolve/work.rs of microlp 0.7.0, changed: the bounds that a row of one term
// leaves its variable, and whether the variable's own bounds imply the row.
ghost use Rattle.std.specs.Prelude.{◌≡◌};
ghost use Rattle.definition.specs.Singles as singles;
ghost use Rattle.formulas.specs.Bare.{bare, Says, ByTol};
ghost use Rattle.formulas.specs.Singles.{lower_side, upper_side, misses_at, meets_lower, meets_upper};

use crate::{Ends, Limits};
use tolerances::ROUNDOFF_FLOOR;

// The upper bound's functions stand beside the lower's: they round by floor for ceil, and add where those subtract. One function for
// both, by negation as `ceil` has it, would negate three numbers in and one out, and the definition has each spelled out.
impl Limits {
    // The side of the row that bounds the variable from below, and the one from above, with the sides exchanged: one line each, a
    // choice between two values of the definition.
    #[tactic(auto, unfolding(floats::specs::Num::choose, crate::specs::Singles::lower_side))]
    pub fn lower_side(self, a: f64) -> f64
        ensures { result ≡ lower_side (bare self) a }
    {
        if a > 0.0 { self.lo } else { self.hi }
    }

    #[tactic(auto, unfolding(floats::specs::Num::choose, crate::specs::Singles::upper_side))]
    pub fn upper_side(self, a: f64) -> f64
        ensures { result ≡ upper_side (bare self) a }
    {
        if a > 0.0 { self.hi } else { self.lo }
    }

    // The row's magnitude where the side b is tight.
    #[tactic(auto, unfolding(floats::specs::Num::choose, definition::specs::Singles::finite_mag))]
    fn finite_mag(self, b: f64) -> f64
        ensures { result ≡ singles.finite_mag (bare self) b }
    {
        if floats::is_finite(b) {
            self.rhs_mag(b) + floats::absolute(b) + self.fold_scale
        } else {
            0.0
        }
    }

    // How far past the implied bound the row lets the variable: its budget over |a|.
    #[tactic(auto, unfolding(definition::specs::Singles::room_at))]
    fn room_at(self, a: f64, b: f64) -> f64
        ensures { Says self.feas self.terms result (λ M r. singles.room_at M r (bare self) a b) }
    {
        self.budget(self.finite_mag(b)) / floats::absolute(a)
    }

    // That, widened by the round-off of the folded side.
    #[tactic(auto, unfolding(definition::specs::Singles::widened_at))]
    fn widened_at(self, a: f64, b: f64) -> f64
        ensures { Says self.feas self.terms result (λ M r. singles.widened_at M r (bare self) a b) }
    {
        self.room_at(a, b) + ROUNDOFF_FLOOR * self.finite_mag(b) / floats::absolute(a)
    }

    // What a row that is dropped leaves: its whole tolerance less round-off, over |a|.
    #[tactic(auto, unfolding(definition::specs::Singles::dropped_room))]
    fn dropped_room(self, a: f64, b: f64) -> f64
        ensures { ByTol self.feas result (λ M. singles.dropped_room M (bare self) a b) }
    {
        let m = self.finite_mag(b);
        floats::larger(
            tolerances::row_tolerance(self.feas, m) - ROUNDOFF_FLOOR * m,
            0.0,
        ) / floats::absolute(a)
    }

    // The bounds that the row leaves an integer variable.
    #[tactic(auto, unfolding(floats::specs::Num::choose, definition::specs::Singles::new_lower))]
    pub fn new_lower(self, a: f64, blo: f64, elo: f64) -> f64
        ensures { Says self.feas self.terms result (λ M r. singles.new_lower M r (bare self) a blo elo) }
    {
        let q = blo / a;
        if floats::is_finite(q) {
            floats::larger(elo, floats::ceil(q - self.widened_at(a, blo)))
        } else {
            elo
        }
    }

    #[tactic(auto, unfolding(floats::specs::Num::choose, definition::specs::Singles::new_upper))]
    pub fn new_upper(self, a: f64, bhi: f64, ehi: f64) -> f64
        ensures { Says self.feas self.terms result (λ M r. singles.new_upper M r (bare self) a bhi ehi) }
    {
        let q = bhi / a;
        if floats::is_finite(q) {
            floats::smaller(ehi, floats::floor(q + self.widened_at(a, bhi)))
        } else {
            ehi
        }
    }

    // Whether the row misses the bounds of any other variable, both with their tolerances.
    #[tactic(auto, unfolding(crate::specs::Singles::misses_at))]
    pub fn misses(self, a: f64, blo: f64, bhi: f64, e: Ends) -> bool
        ensures { Says self.feas self.terms result (λ M r. misses_at M r (bare self) a blo bhi e.lo e.hi e.tol_lo e.tol_hi) }
    {
        blo / a - self.room_at(a, blo) > e.hi + e.tol_hi
            || bhi / a + self.room_at(a, bhi) < e.lo - e.tol_lo
    }

    // Whether an emitted bound, with its tolerance, meets its side of the row.
    #[tactic(auto, unfolding(crate::specs::Singles::meets_lower))]
    pub fn lower_meets(self, a: f64, blo: f64, e: Ends) -> bool
        ensures { ByTol self.feas result (λ M. meets_lower M (bare self) a blo e.lo e.tol_lo) }
    {
        let q = blo / a;
        !floats::is_finite(q) || e.lo - e.tol_lo >= q - self.dropped_room(a, blo)
    }

    #[tactic(auto, unfolding(crate::specs::Singles::meets_upper))]
    pub fn upper_meets(self, a: f64, bhi: f64, e: Ends) -> bool
        ensures { ByTol self.feas result (λ M. meets_upper M (bare self) a bhi e.hi e.tol_hi) }
    {
        let q = bhi / a;
        !floats::is_finite(q) || e.hi + e.tol_hi <= q + self.dropped_room(a, bhi)
    }
}
