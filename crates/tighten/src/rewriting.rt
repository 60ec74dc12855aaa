// `tighten_binary_coeffs` of src/presolve/work.rs of microlp 0.7.0, changed: the terms of one row,
// rewritten in their order.
ghost use Rattle.std.specs.Prelude.{◌<◌, false, length, get_or};
ghost use Rattle.definition.specs.declared.Activity.{Activity};
ghost use Rattle.definition.specs.Tighten.{queued, rewrite_step, rewrite_loop};
ghost use Rattle.formulas.specs.Rewriting.{maybe_form};
ghost use Rattle.space.specs.Store.{floats_of, numbers_of, HoldsF, HoldsN};
ghost use Rattle.view.specs.Acts.{Ready};
ghost use Rattle.view.specs.Changes.{ActsBool};
ghost use Rattle.view.specs.Known.{Written};
ghost use Rattle.readers.specs.Reading.{row_of, Alive};
ghost use Rattle.tighten.specs.Tightening.{Tightening};
ghost use Rattle.tighten.specs.Over.{ended, closed};
ghost use Rattle.tighten.specs.Carried.{Carries, carried, begun, progressed};

use crate::after::row_after;
use crate::{LiveTerm, Progress};
use definition::{Activity, Rows};
use formulas::OneSided;
use space::{Coeffs, Context, Len, Rewrote, Touched, Vars};
use view::Lists;

// The end of a rewrite, with the new row in its place: its activity is act, or the row is given back,
// and there is no progress: its rewriting ends.
fn rewritten(
    rows: Rows,
    floats: &mut [f64],
    numbers: &mut [usize],
    cx: Context,
    r: usize,
    act: Activity,
) -> Option<Progress>
    requires r_lt_rows { (r < cx.rows) × HoldsF cx floats.old × HoldsN cx numbers.old × Alive (numbers_of cx numbers.old) r }
    requires ready { Ready (Written rows) cx (floats_of cx floats.old) (numbers_of cx numbers.old) }
    ensures { (old : Activity) → Carries (Written rows.entry) cx r
        (floats_of cx floats.old) (numbers_of cx numbers.old) (floats_of cx floats.new) (numbers_of cx numbers.new) (progressed old result)
        (λ M u. ended M r (row_of u r) old act (queued r u)) }
{
    bounds::requeue(numbers, cx, r);
    if folds::hold_rewrites(rows, floats, numbers, cx, r) {
        return None;
    }
    space::put::<Touched>(numbers, cx, r, 1);
    space::count::<Rewrote>(numbers, cx);
    Some(Progress { act, changed: true })
}

// = rewrite_step, at the row's term i, whose limits are read again: the rewrites before change them. lists, floats, numbers, cx and r are every
// step's (space says why they stay apart); x is how far the row has come, and the answer is of no change before.
fn rewrite_step(
    lists: Lists,
    floats: &mut [f64],
    numbers: &mut [usize],
    cx: Context,
    r: usize,
    i: usize,
    x: OneSided,
) -> Option<Progress>
    requires r_lt_rows { (r < cx.rows) × HoldsF cx floats.old × HoldsN cx numbers.old × Alive (numbers_of cx numbers.old) r × (i < get_or (numbers_of cx numbers.old).len r 0) }
    requires ready { Ready (Tightening lists) cx (floats_of cx floats.old) (numbers_of cx numbers.old) }
    ensures { Carries (Tightening lists.entry) cx r (floats_of cx floats.old) (numbers_of cx numbers.old) (floats_of cx floats.new) (numbers_of cx numbers.new) (progressed x.act result)
        (λ M u. rewrite_step M (maybe_form x.form) x.room r i (carried r (begun x.act false) u)) }
{
    let p = lists.rows.starts[r] + i;
    let v = space::get::<Vars>(numbers, cx, p);
    let a = space::get::<Coeffs>(floats, cx, p);
    let limits = readers::limits(floats, cx, r, 0);
    let y = OneSided { limits, ..x };
    let Some(z) = coeffs::rewrite_term(y, lists.domain, floats, cx, v, a) else {
        return Some(Progress {
            act: x.act,
            changed: false,
        });
    };
    let t = LiveTerm {
        place: i,
        var: v,
        coeff: a,
    };
    row_after(
        lists.rows.starts,
        floats,
        numbers,
        cx,
        r,
        x.form,
        t,
        Some(z),
    );
    let act = x.act_after(a, Some(z));
    rewritten(lists.rows, floats, numbers, cx, r, act)
}

// = rewrite_loop, over all terms, of no change before: whether something changed. A row that was given back is left at once.
pub(crate) fn rewrite_loop(
    lists: Lists,
    floats: &mut [f64],
    numbers: &mut [usize],
    cx: Context,
    r: usize,
    x: OneSided,
) -> bool
    requires r_lt_rows { (r < cx.rows) × HoldsF cx floats.old × HoldsN cx numbers.old × Alive (numbers_of cx numbers.old) r }
    requires ready { Ready (Tightening lists) cx (floats_of cx floats.old) (numbers_of cx numbers.old) }
    ensures { ActsBool (Tightening lists.entry) cx (floats_of cx floats.old) (numbers_of cx numbers.old) (floats_of cx floats.new) (numbers_of cx numbers.new) result
        (λ M u. closed r (rewrite_loop M (length (row_of u r).terms) (maybe_form x.form) x.room r 0 (carried r (begun x.act false) u))) }
{
    let len = space::get::<Len>(numbers, cx, r);
    let mut act = x.act;
    let mut changed = false;
    for i in 0..len {
        let y = OneSided { act, ..x };
        let Some(next) = rewrite_step(lists, floats, numbers, cx, r, i, y) else {
            return true;
        };
        act = next.act;
        changed |= next.changed;
    }
    changed
}
