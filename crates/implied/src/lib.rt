// `primal_wave` of src/presolve/work.rs of microlp 0.7.0, changed: the implied bounds of each term of a
// row, from each side of it.
// With the rest of the row at its corner, a side bounds the term; the bound is relaxed by the row's
// budget there, by the round-off of the rest and by the slack, so that it holds of every solution
// within tolerance. The activity is the one from before the loop: looser than what the loop has
// tightened since, so still valid. Most bounds change nothing, which is seen before what they are
// relaxed by is computed.
#![tactic(auto)]

ghost use Rattle.std.specs.Prelude.{◌+◌, ◌-◌, ◌<◌, ◌≡◌, true, length, get_or};
ghost use Rattle.tolerances.specs.Tol.{term};
ghost use Rattle.definition.specs.Implied as definition;
ghost use Rattle.space.specs.Store.{floats_of, numbers_of, HoldsF, HoldsN};
ghost use Rattle.formulas.specs.Bare.{bare};
ghost use Rattle.formulas.specs.Implied.{rest_is};
ghost use Rattle.view.specs.Acts.{Ready, Tries};
ghost use Rattle.readers.specs.Reading.{row_of, Alive};
ghost use Rattle.readers.specs.Knowing.{BoundingRows};
ghost use Rattle.implied.specs.Sides.{Quiet, rest_at, side_step};

use definition::{Activity, Infeasible};
use formulas::{Limits, Side};
use space::{Coeffs, Context, Len, Vars, Whi, Wlo, get};
use view::Lists;

// A half of what a row says of a term: one side of the row, the upper one where upper, and the term, variable v by coefficient a,
// which has the part c at that side's corner. upper is a flag, as the definition's `side_step` has it.
#[derive(Clone, Copy)]
struct Half {
    upper: bool,
    side: Side,
    c: f64,
    v: usize,
    a: f64,
}

impl Half {
    // The rest of the row at the side's corner: none where the side is infinite or the rest has no sum.
    #[tactic(auto, unfolding(floats::specs::Num::choose, crate::specs::Sides::rest_at))]
    fn rest(self) -> Option<f64>
        ensures { rest_is result ≡ rest_at self.side self.c }
    {
        if floats::is_finite(self.side.bound) {
            self.side.rest_of(self.c)
        } else {
            None
        }
    }

    // Whether the half changes nothing: there is no rest, or what it implies leaves the variable as it is, whatever the row's
    // magnitude relaxes it by.
    fn quiet(self, domain: &[u8], floats: &[f64], cx: Context) -> bool
        requires { (self.v < cx.vars) × HoldsF cx floats.now × (self.v < length domain.now) }
        ensures { result ≡ true → Quiet domain.now cx (floats_of cx floats.now) self.side self.upper self.c self.v self.a }
    {
        match self.rest() {
            Some(rest) => {
                let q = self.side.quotient(rest, self.a);
                let above = formulas::bounds_above(self.upper, self.a);
                self.side.relaxes(cx.feas) && bounds::stays(domain, floats, cx, self.v, q, above)
            }
            None => true,
        }
    }

    // = side_step. Compiled into both its places, so that nothing of the half goes through memory.
    #[inline(always)]
    fn tighten(
        self,
        lists: Lists,
        floats: &mut [f64],
        numbers: &mut [usize],
        cx: Context,
        r: usize,
        x: Limits,
    ) -> Result<(), Infeasible>
        requires v_lt_vars { (self.v < cx.vars) × HoldsF cx floats.old × HoldsN cx numbers.old }
        requires ready { Ready (BoundingRows lists) cx (floats_of cx floats.old) (numbers_of cx numbers.old) }
        requires limits { (x.feas ≡ cx.feas) × (x.terms ≡ get_or lists.rows.starts.now (r + 1) 0 - get_or lists.rows.starts.now r 0) }
        ensures { Tries (BoundingRows lists.entry) cx (floats_of cx floats.old) (numbers_of cx numbers.old) (floats_of cx floats.new) (numbers_of cx numbers.new)
            result (λ M. side_step M self.upper r (bare x) self.side self.c (term self.v self.a)) }
    {
        match self.rest() {
            Some(rest) => {
                let q = self.side.quotient(rest, self.a);
                let above = formulas::bounds_above(self.upper, self.a);
                let relax = x.relaxation(self.side, self.c, rest, self.a);
                bounds::tighten(lists, floats, numbers, cx, self.v, q, relax, above)
            }
            None => Ok(()),
        }
    }
}

// = implied_term: both parts of the term are taken before either side. Mostly neither half changes anything, which is seen
// before either is gone through. lists, floats, numbers, cx and r are every step's (space says why they stay apart), x and act the row's. v and a,
// one term, are read out of two slices and go into both halves.
fn implied_term(
    lists: Lists,
    floats: &mut [f64],
    numbers: &mut [usize],
    cx: Context,
    r: usize,
    x: Limits,
    act: Activity,
    v: usize,
    a: f64,
) -> Result<(), Infeasible>
    requires v_lt_vars { (v < cx.vars) × HoldsF cx floats.old × HoldsN cx numbers.old }
    requires ready { Ready (BoundingRows lists) cx (floats_of cx floats.old) (numbers_of cx numbers.old) }
    requires limits { (x.feas ≡ cx.feas) × (x.terms ≡ get_or lists.rows.starts.now (r + 1) 0 - get_or lists.rows.starts.now r 0) }
    ensures { Tries (BoundingRows lists.entry) cx (floats_of cx floats.old) (numbers_of cx numbers.old)
        (floats_of cx floats.new) (numbers_of cx numbers.new) result (λ M. definition.implied_term M r (bare x) act (term v a)) }
{
    let lo = get::<Wlo>(floats, cx, v);
    let hi = get::<Whi>(floats, cx, v);
    let high = Half {
        upper: true,
        side: x.hi_of(act),
        c: formulas::range_min(a, lo, hi),
        v,
        a,
    };
    let low = Half {
        upper: false,
        side: x.lo_of(act),
        c: formulas::range_max(a, lo, hi),
        v,
        a,
    };
    if high.quiet(lists.domain, floats, cx) && low.quiet(lists.domain, floats, cx) {
        return Ok(());
    }
    high.tighten(lists, floats, numbers, cx, r, x)?;
    low.tighten(lists, floats, numbers, cx, r, x)
}

// = implied_bounds, of the row that stands in the state
pub fn implied_bounds(
    lists: Lists,
    floats: &mut [f64],
    numbers: &mut [usize],
    cx: Context,
    r: usize,
    act: Activity,
) -> Result<(), Infeasible>
    requires r_lt_rows { (r < cx.rows) × HoldsF cx floats.old × HoldsN cx numbers.old × Alive (numbers_of cx numbers.old) r }
    requires ready { Ready (BoundingRows lists) cx (floats_of cx floats.old) (numbers_of cx numbers.old) }
    ensures { Tries (BoundingRows lists.entry) cx (floats_of cx floats.entry.now) (numbers_of cx numbers.old)
        (floats_of cx floats.exit.now) (numbers_of cx numbers.new) result (λ M w. definition.implied_bounds M r (row_of w r) act (row_of w r).terms w) }
{
    let x = readers::written_limits(lists.rows.starts, floats, cx, r);
    let a = lists.rows.starts[r];
    for i in 0..get::<Len>(numbers, cx, r) {
        let v = get::<Vars>(numbers, cx, a + i);
        let c = get::<Coeffs>(floats, cx, a + i);
        implied_term(lists, floats, numbers, cx, r, x, act, v, c)?;
    }
    Ok(())
}
