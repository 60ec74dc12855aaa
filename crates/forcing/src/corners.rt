// `forcing_fixings` of src/presolve/work.rs of microlp 0.7.0, changed: whether a row forces all of its
// variables, a test of each term over the emitted bounds.
ghost use Rattle.std.specs.Prelude.{◌<◌, length};
ghost use Rattle.floats.specs.Num.{choose};
ghost use Rattle.tolerances.specs.Tol.{term};
ghost use Rattle.definition.specs.Forcing as definition;
ghost use Rattle.space.specs.Store.{floats_of, numbers_of, HoldsF, HoldsN};
ghost use Rattle.view.specs.Acts.{Ready, Reads};
ghost use Rattle.readers.specs.Reading.{row_of, Alive, ReadsF};
ghost use Rattle.readers.specs.Knowing.{Looks, LimitsOf};

use definition::Activity;
use formulas::{Limits, Sliver};
use space::{Coeffs, Context, Ehi, Elo, Len, Vars, get};
use view::Lists;

// = forced_term. lists, floats, cx and r are every step's (space says why they stay apart), x and sliver the row's. v and a, one term, are
// read out of two slices and asked for by different calls.
fn forced_term(
    lists: Lists,
    floats: &[f64],
    cx: Context,
    r: usize,
    x: Limits,
    sliver: Sliver,
    v: usize,
    a: f64,
) -> bool
    requires v_lt_vars { (v < cx.vars) × HoldsF cx floats.now × (v < length lists.domain.now) }
    requires limits { LimitsOf lists.rows.starts.now cx (floats_of cx floats.now) r x }
    ensures { ReadsF (Looks lists.entry) cx (floats_of cx floats.now) result (λ M u. definition.forced_term M r sliver.gap sliver.mag u (term v a)) }
{
    let int = readers::is_int(lists.domain, cx, v);
    let lo = get::<Elo>(floats, cx, v);
    let hi = get::<Ehi>(floats, cx, v);
    x.forced(int, a, lo, hi, sliver)
}

// = all_forced
fn all_forced(
    lists: Lists,
    floats: &[f64],
    numbers: &[usize],
    cx: Context,
    r: usize,
    x: Limits,
    sliver: Sliver,
) -> bool
    requires r_lt_rows { (r < cx.rows) × HoldsF cx floats.now × HoldsN cx numbers.now × Alive (numbers_of cx numbers.now) r }
    requires ready { Ready (Looks lists) cx (floats_of cx floats.now) (numbers_of cx numbers.now) }
    requires limits { LimitsOf lists.rows.starts.now cx (floats_of cx floats.now) r x }
    ensures { Reads (Looks lists.entry) cx (floats_of cx floats.now) (numbers_of cx numbers.now) result
        (λ M u. definition.all_forced M r sliver.gap sliver.mag u (row_of u r).terms) }
{
    let a = lists.rows.starts[r];
    (0..get::<Len>(numbers, cx, r)).all(|i| {
        forced_term(
            lists,
            floats,
            cx,
            r,
            x,
            sliver,
            get::<Vars>(numbers, cx, a + i),
            get::<Coeffs>(floats, cx, a + i),
        )
    })
}

// = forcing_at
fn forcing_at(
    lists: Lists,
    floats: &[f64],
    numbers: &[usize],
    cx: Context,
    r: usize,
    x: Limits,
    sliver: Sliver,
) -> bool
    requires r_lt_rows { (r < cx.rows) × HoldsF cx floats.now × HoldsN cx numbers.now × Alive (numbers_of cx numbers.now) r }
    requires ready { Ready (Looks lists) cx (floats_of cx floats.now) (numbers_of cx numbers.now) }
    requires limits { LimitsOf lists.rows.starts.now cx (floats_of cx floats.now) r x }
    ensures { Reads (Looks lists.entry) cx (floats_of cx floats.now) (numbers_of cx numbers.now) result
        (λ M u. definition.forcing_at M r sliver.gap sliver.mag u (row_of u r).terms) }
{
    x.sliver_fits(sliver) && all_forced(lists, floats, numbers, cx, r, x, sliver)
}

// = forces_min of the minimum corner, forces_max of the maximum corner: a bool, as the definition's `corner` has it. lists, floats,
// numbers, cx and r are every step's (space says why they stay apart). act and e are the row's two activities, over two boxes: a struct of the
// two would be made for its two calls alone.
// The corners' blocks stand beside each other: all that they read, near_min and near_max, l and u, hi and lo, differs.
pub fn forces(
    lists: Lists,
    floats: &[f64],
    numbers: &[usize],
    cx: Context,
    r: usize,
    minCorner: bool,
    act: Activity,
    e: Activity,
) -> bool
    requires r_lt_rows { (r < cx.rows) × HoldsF cx floats.now × HoldsN cx numbers.now × Alive (numbers_of cx numbers.now) r }
    requires ready { Ready (Looks lists) cx (floats_of cx floats.now) (numbers_of cx numbers.now) }
    ensures { Reads (Looks lists.entry) cx (floats_of cx floats.now) (numbers_of cx numbers.now) result
        (λ M u. choose minCorner (definition.forces_min M r (row_of u r) act e u) (definition.forces_max M r (row_of u r) act e u)) }
{
    let x = readers::written_limits(lists.rows.starts, floats, cx, r);
    if minCorner {
        if x.near_min(act) && e.ninf_l == 0 {
            let sliver = Sliver {
                gap: x.hi - e.l,
                mag: x.mag_l(e),
            };
            forcing_at(lists, floats, numbers, cx, r, x, sliver)
        } else {
            false
        }
    } else if x.near_max(act) && e.ninf_u == 0 {
        let sliver = Sliver {
            gap: e.u - x.lo,
            mag: x.mag_u(e),
        };
        forcing_at(lists, floats, numbers, cx, r, x, sliver)
    } else {
        false
    }
}
