// `singleton_row` of src/presolve/work.rs of microlp 0.7.0, changed: a row of one term bounds its
// variable, and leaves where the variable's bounds imply it.
ghost use Rattle.std.specs.Prelude.{◌≡◌, ◌<◌, ◌&&◌, get_or};
ghost use Rattle.definition.specs.Work.{no_term};
ghost use Rattle.definition.specs.Singles as definition;
ghost use Rattle.space.specs.Store.{floats_of, numbers_of, HoldsF, HoldsN};
ghost use Rattle.view.specs.Acts.{Ready, Acts, Tries, Any};
ghost use Rattle.view.specs.Known.{Spans};
ghost use Rattle.readers.specs.Reading.{row_of, Alive};
ghost use Rattle.readers.specs.Knowing.{SpanAt, Marks, BoundingRows};
ghost use Rattle.singles.specs.Singleton.{ReadsRow};

use definition::Infeasible;
use space::{Coeffs, Context, Ehi, Elo, Vars};
use view::Lists;

// The row's one term, and the sides of the row that bound it from below and from above.
#[derive(Clone, Copy)]
struct One {
    v: usize,
    a: f64,
    blo: f64,
    bhi: f64,
}

// = singleton_int
fn singleton_int(
    lists: Lists,
    floats: &mut [f64],
    numbers: &mut [usize],
    cx: Context,
    r: usize,
    one: One,
) -> Result<(), Infeasible>
    requires r_lt_rows { (r < cx.rows) × (one.v < cx.vars) × HoldsF cx floats.old × HoldsN cx numbers.old × Alive (numbers_of cx numbers.old) r }
    requires ready { Ready (Marks lists) cx (floats_of cx floats.old) (numbers_of cx numbers.old) }
    ensures { Tries (Marks lists.entry) cx (floats_of cx floats.old) (numbers_of cx numbers.old)
        (floats_of cx floats.new) (numbers_of cx numbers.new) result (λ M u. definition.singleton_int M r (row_of u r) one.v one.a one.blo one.bhi u) }
{
    let x = readers::written_limits(lists.rows.starts, floats, cx, r);
    let lo = x.new_lower(one.a, one.blo, space::get::<Elo>(floats, cx, one.v));
    let hi = x.new_upper(one.a, one.bhi, space::get::<Ehi>(floats, cx, one.v));
    if lo > hi {
        return Err(Infeasible);
    }
    bounds::emit_bounds(lists.adjacency, floats, numbers, cx, one.v, lo, hi);
    Ok(())
}

// = singleton_misses
fn singleton_misses(starts: &[usize], floats: &[f64], cx: Context, r: usize, one: One) -> bool
    requires r_lt_rows { (r < cx.rows) × (one.v < cx.vars) × HoldsF cx floats.now }
    requires span_at { SpanAt starts.now r }
    ensures { ReadsRow (Spans starts.now) cx (floats_of cx floats.now) r result (λ M u. definition.singleton_misses M r (row_of u r) one.v one.a one.blo one.bhi u) }
{
    let x = readers::written_limits(starts, floats, cx, r);
    x.misses(one.a, one.blo, one.bhi, readers::emitted(floats, cx, one.v))
}

// = singleton_bounds
fn singleton_bounds(
    lists: Lists,
    floats: &mut [f64],
    numbers: &mut [usize],
    cx: Context,
    r: usize,
    one: One,
) -> Result<(), Infeasible>
    requires r_lt_rows { (r < cx.rows) × (one.v < cx.vars) × HoldsF cx floats.old × HoldsN cx numbers.old × Alive (numbers_of cx numbers.old) r }
    requires ready { Ready (BoundingRows lists) cx (floats_of cx floats.old) (numbers_of cx numbers.old) }
    ensures { Tries (BoundingRows lists.entry) cx (floats_of cx floats.old) (numbers_of cx numbers.old)
        (floats_of cx floats.new) (numbers_of cx numbers.new) result (λ M u. definition.singleton_bounds M r (row_of u r) one.v one.a one.blo one.bhi u) }
{
    if readers::is_int(lists.domain, cx, one.v) {
        return singleton_int(lists, floats, numbers, cx, r, one);
    }
    if singleton_misses(lists.rows.starts, floats, cx, r, one) {
        return Err(Infeasible);
    }
    Ok(())
}

// = the test of singleton_drop
fn row_implied(floats: &[f64], cx: Context, r: usize, one: One) -> bool
    requires { (r < cx.rows) × (one.v < cx.vars) × HoldsF cx floats.now }
    ensures { ReadsRow Any cx (floats_of cx floats.now) r result (λ M u. definition.lower_meets M (row_of u r) one.v one.a one.blo u && definition.upper_meets M (row_of u r) one.v one.a one.bhi u) }
{
    // Neither test asks how many terms the row has.
    let x = readers::limits(floats, cx, r, 1);
    let e = readers::emitted(floats, cx, one.v);
    x.lower_meets(one.a, one.blo, e) && x.upper_meets(one.a, one.bhi, e)
}

// = singleton_drop
fn singleton_drop(floats: &[f64], numbers: &mut [usize], cx: Context, r: usize, one: One)
    requires { (r < cx.rows) × (one.v < cx.vars) × HoldsF cx floats.now × HoldsN cx numbers.old × Alive (numbers_of cx numbers.old) r }
    ensures { Acts Any cx (floats_of cx floats.now) (numbers_of cx numbers.old) (floats_of cx floats.now) (numbers_of cx numbers.new)
        (λ M u. definition.singleton_drop M r (row_of u r) one.v one.a one.blo one.bhi u) }
{
    if row_implied(floats, cx, r, one) {
        bounds::drop_row(numbers, cx, r);
    }
}

// = singleton_row
pub fn singleton_row(
    lists: Lists,
    floats: &mut [f64],
    numbers: &mut [usize],
    cx: Context,
    r: usize,
) -> Result<(), Infeasible>
    requires r_lt_rows { (r < cx.rows) × HoldsF cx floats.old × HoldsN cx numbers.old × Alive (numbers_of cx numbers.old) r × (get_or (numbers_of cx numbers.old).len r 0 ≡ 1) }
    requires ready { Ready (BoundingRows lists) cx (floats_of cx floats.old) (numbers_of cx numbers.old) }
    ensures { Tries (BoundingRows lists.entry) cx (floats_of cx floats.old) (numbers_of cx numbers.old)
        (floats_of cx floats.new) (numbers_of cx numbers.new) result (λ M u. definition.singleton_row M r (row_of u r) (get_or (row_of u r).terms 0 no_term) u) }
{
    let i = lists.rows.starts[r];
    let a = space::get::<Coeffs>(floats, cx, i);
    let x = readers::limits(floats, cx, r, 1);
    let one = One {
        v: space::get::<Vars>(numbers, cx, i),
        a,
        blo: x.lower_side(a),
        bhi: x.upper_side(a),
    };
    singleton_bounds(lists, floats, numbers, cx, r, one)?;
    singleton_drop(floats, numbers, cx, r, one);
    Ok(())
}
