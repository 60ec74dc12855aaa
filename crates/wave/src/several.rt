// `primal_wave` of src/presolve/work.rs of microlp 0.7.0, changed: a row of two terms or more is
// infeasible, forcing, redundant, or else its implied bounds are taken.
ghost use Rattle.std.specs.Prelude.{◌<◌, true, false};
ghost use Rattle.definition.specs.Work.{drop_row};
ghost use Rattle.definition.specs.Activities as activities;
ghost use Rattle.definition.specs.Sides as sides;
ghost use Rattle.definition.specs.Forcing.{fix_all};
ghost use Rattle.definition.specs.Wave.{several_terms};
ghost use Rattle.space.specs.Store.{floats_of, numbers_of, HoldsF, HoldsN};
ghost use Rattle.formulas.specs.Bare.{bare, Says};
ghost use Rattle.formulas.specs.Reduce.{may_reduce};
ghost use Rattle.view.specs.Acts.{Ready, Reads, Acts, Tries};
ghost use Rattle.readers.specs.Reading.{row_of, Alive};
ghost use Rattle.readers.specs.Limits.{ReadsLimits};
ghost use Rattle.readers.specs.Knowing.{Looks, Marks, BoundingRows};
ghost use Rattle.wave.specs.Several.{end_if, end_of, reached};

use definition::{Activity, Infeasible};
use formulas::Limits;
use readers::{Emitted, Working};
use space::Context;
use view::Lists;

// Each variable at its corner, and the row dropped. Which corner is a flag, as the definition's fix_all has it: one function with the
// definition's own parameter is plainer than two.
fn force_row(
    lists: Lists,
    floats: &mut [f64],
    numbers: &mut [usize],
    cx: Context,
    r: usize,
    minCorner: bool,
)
    requires r_lt_rows { (r < cx.rows) × HoldsF cx floats.old × HoldsN cx numbers.old × Alive (numbers_of cx numbers.old) r }
    requires ready { Ready (Marks lists) cx (floats_of cx floats.old) (numbers_of cx numbers.old) }
    ensures { Acts (Marks lists.entry) cx (floats_of cx floats.old) (numbers_of cx numbers.old)
        (floats_of cx floats.new) (numbers_of cx numbers.new) (λ M u. drop_row r (row_of u r) (fix_all M minCorner u (row_of u r).terms u)) }
{
    forcing::fix_all(lists, floats, numbers, cx, r, minCorner);
    bounds::drop_row(numbers, cx, r);
}

// What the emitted activity makes of a row: its variables forced to a corner, the row dropped, or neither. Four ends, so no Option and
// no Result.
#[derive(Clone, Copy)]
pub enum Ending {
    ForceMin,
    ForceMax,
    Drop,
    Open,
}

// = end_of, where the working activity lets the row be forcing or redundant; else the row stays open. Eight
// parameters, each another thing: what was read of the row is handed in, so that it is read once.
fn end_of(
    lists: Lists,
    floats: &[f64],
    numbers: &[usize],
    cx: Context,
    r: usize,
    x: Limits,
    act: Activity,
    reduces: bool,
) -> Ending
    requires r_lt_rows { (r < cx.rows) × HoldsF cx floats.now × HoldsN cx numbers.now × Alive (numbers_of cx numbers.now) r }
    requires ready { Ready (Looks lists) cx (floats_of cx floats.now) (numbers_of cx numbers.now) }
    requires limits { ReadsLimits cx (floats_of cx floats.now) r x.terms x }
    ensures { Reads (Looks lists.entry) cx (floats_of cx floats.now) (numbers_of cx numbers.now) result
        (λ M u. end_if reduces (end_of M r (row_of u r) act (activities.activity M u (row_of u r) false) u)) }
{
    if !reduces {
        return Ending::Open;
    }
    let e = readers::activity::<Emitted>(lists.rows.starts, floats, numbers, cx, r);
    if forcing::forces(lists, floats, numbers, cx, r, true, act, e) {
        Ending::ForceMin
    } else if forcing::forces(lists, floats, numbers, cx, r, false, act, e) {
        Ending::ForceMax
    } else if x.redundant(act, e) {
        Ending::Drop
    } else {
        Ending::Open
    }
}

// What the working activity says of a row: that no point meets it, or whether it may be forcing or redundant.
// Both tests of a side stand together, so that its budget is computed once.
fn reach_of(x: Limits, act: Activity) -> Result<bool, Infeasible>
    ensures { Says x.feas x.terms result (λ M r. reached (sides.unreachable M r (bare x) act) (may_reduce M r (bare x) act)) }
{
    let above = x.above_hi(act);
    let low = x.near_min(act);
    let below = x.below_lo(act);
    let high = x.near_max(act);
    let inside = x.within(act);
    // Tests that are there already are joined by `|`, with no jump between them.
    if above | below {
        return Err(Infeasible);
    }
    Ok(low | high | inside)
}

// = several_terms. implied_bounds is called from one place, so that it is compiled into this.
pub(crate) fn several_terms(
    lists: Lists,
    floats: &mut [f64],
    numbers: &mut [usize],
    cx: Context,
    r: usize,
) -> Result<(), Infeasible>
    requires r_lt_rows { (r < cx.rows) × HoldsF cx floats.old × HoldsN cx numbers.old × Alive (numbers_of cx numbers.old) r }
    requires ready { Ready (BoundingRows lists) cx (floats_of cx floats.old) (numbers_of cx numbers.old) }
    ensures { Tries (BoundingRows lists.entry) cx (floats_of cx floats.old) (numbers_of cx numbers.old)
        (floats_of cx floats.new) (numbers_of cx numbers.new) result (λ M u. several_terms M r (row_of u r) u) }
{
    let starts = lists.rows.starts;
    let act = readers::activity::<Working>(starts, floats, numbers, cx, r);
    let x = readers::written_limits(starts, floats, cx, r);
    let reduces = reach_of(x, act)?;
    match end_of(lists, floats, numbers, cx, r, x, act, reduces) {
        Ending::ForceMin => force_row(lists, floats, numbers, cx, r, true),
        Ending::ForceMax => force_row(lists, floats, numbers, cx, r, false),
        Ending::Drop => bounds::drop_row(numbers, cx, r),
        Ending::Open => return implied::implied_bounds(lists, floats, numbers, cx, r, act),
    }
    Ok(())
}
