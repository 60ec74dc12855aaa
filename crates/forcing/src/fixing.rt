// `forcing_fixings` of src/presolve/work.rs of microlp 0.7.0, changed: fixing all variables of a row at
// a corner.
ghost use Rattle.std.specs.Prelude.{◌<◌};
ghost use Rattle.tolerances.specs.Tol.{term};
ghost use Rattle.definition.specs.Bounds.{fix};
ghost use Rattle.definition.specs.Forcing as definition;
ghost use Rattle.space.specs.Store.{floats_of, numbers_of, HoldsF, HoldsN};
ghost use Rattle.view.specs.Acts.{Ready, Acts};
ghost use Rattle.view.specs.Adjacency.{Adj};
ghost use Rattle.readers.specs.Reading.{row_of, Alive};
ghost use Rattle.readers.specs.Knowing.{Marks};

use space::{Coeffs, Context, Ehi, Elo, Len, Vars, get};
use view::Lists;

// = fix, of a term's variable at the corner of its bounds. v and a, one term, are read out of two slices and asked for by
// different calls.
fn fix_term(
    adjacency: &[usize],
    floats: &mut [f64],
    numbers: &mut [usize],
    cx: Context,
    minCorner: bool,
    v: usize,
    a: f64,
)
    requires v_lt_vars { (v < cx.vars) × HoldsF cx floats.old × HoldsN cx numbers.old }
    requires ready { Ready (Adj adjacency.now) cx (floats_of cx floats.old) (numbers_of cx numbers.old) }
    ensures { Acts (Adj adjacency.now) cx (floats_of cx floats.old) (numbers_of cx numbers.old) (floats_of cx floats.new)
        (numbers_of cx numbers.new) (λ M u. fix M v (definition.corner minCorner u (term v a)) u) }
{
    let lo = get::<Elo>(floats, cx, v);
    let hi = get::<Ehi>(floats, cx, v);
    let x = formulas::corner(minCorner, a, lo, hi);
    bounds::fix(adjacency, floats, numbers, cx, v, x);
}

// = fix_all. A row has each variable once, so a variable's bounds are still those from before any was
// fixed when its turn comes.
pub fn fix_all(
    lists: Lists,
    floats: &mut [f64],
    numbers: &mut [usize],
    cx: Context,
    r: usize,
    minCorner: bool,
)
    requires r_lt_rows { (r < cx.rows) × HoldsF cx floats.old × HoldsN cx numbers.old × Alive (numbers_of cx numbers.old) r }
    requires ready { Ready (Marks lists) cx (floats_of cx floats.old) (numbers_of cx numbers.old) }
    ensures { Acts (Marks lists.entry) cx (floats_of cx floats.old) (numbers_of cx numbers.old)
        (floats_of cx floats.new) (numbers_of cx numbers.new) (λ M u. definition.fix_all M minCorner u (row_of u r).terms u) }
{
    let a = lists.rows.starts[r];
    for i in 0..get::<Len>(numbers, cx, r) {
        let v = get::<Vars>(numbers, cx, a + i);
        let c = get::<Coeffs>(floats, cx, a + i);
        fix_term(lists.adjacency, floats, numbers, cx, minCorner, v, c);
    }
}
