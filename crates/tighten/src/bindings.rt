// `rewrite_binding` of src/presolve/work.rs of microlp 0.7.0, changed: the binding branch of a row
// after a rewrite that moves its bound.
ghost use Rattle.std.specs.Prelude.{◌≡◌, ◌<◌, get_or};
ghost use Rattle.std.specs.Float.{nan};
ghost use Rattle.definition.specs.Work.{with_row};
ghost use Rattle.space.specs.Store.{floats_of, numbers_of, HoldsF, HoldsN};
ghost use Rattle.view.specs.Acts.{Ready, Acts, Reads};
ghost use Rattle.view.specs.Known.{Spans};
ghost use Rattle.readers.specs.Reading.{row_of, Alive};
ghost use Rattle.tighten.specs.Settling.{mag_at, rewritten_mag, kept_after, settled, settled_growth};
ghost use Rattle.tighten.specs.Adding.{with_binary, BinaryRoom};
ghost use Rattle.tighten.specs.Rebinding.{LiveAt, rebound, rebound_growth};

use crate::LiveTerm;
use space::{Binaries, Binary, Context, Kept, Rewritten, Shift, Written};

// = rhs_mag, of row r.
fn rhs_mag(floats: &[f64], cx: Context, r: usize, b: f64) -> f64
    requires { (r < cx.rows) × HoldsF cx floats.now }
    ensures { result ≡ mag_at (floats_of cx floats.now) r b }
{
    formulas::rhs_mag(b, space::get::<Shift>(floats, cx, r))
}

// The magnitude of the binding branch as rewritten, with the bound bp.
#[tactic(auto, using(crate::specs::Settling::rewritten_reads))]
fn rewritten_mag(
    starts: &[usize],
    floats: &[f64],
    numbers: &[usize],
    cx: Context,
    r: usize,
    bp: f64,
) -> f64
    requires r_lt_rows { (r < cx.rows) × HoldsF cx floats.now × HoldsN cx numbers.now × Alive (numbers_of cx numbers.now) r }
    requires ready { Ready (Spans starts.now) cx (floats_of cx floats.now) (numbers_of cx numbers.now) }
    ensures { Reads (Spans starts.now) cx (floats_of cx floats.now) (numbers_of cx numbers.now) result (rewritten_mag r bp) }
{
    rhs_mag(floats, cx, r, bp) + coeffs::sum_coeffs(starts, floats, numbers, cx, r)
}

// What the binding keeps from now on, its magnitude as rewritten being re.
fn kept_after(
    starts: &[usize],
    floats: &[f64],
    numbers: &[usize],
    cx: Context,
    r: usize,
    re: f64,
) -> f64
    requires r_lt_rows { (r < cx.rows) × HoldsF cx floats.now × HoldsN cx numbers.now × Alive (numbers_of cx numbers.now) r × (0 < get_or (numbers_of cx numbers.now).binaries r 0) }
    requires ready { Ready (Spans starts.now) cx (floats_of cx floats.now) (numbers_of cx numbers.now) }
    ensures { Reads (Spans starts.now) cx (floats_of cx floats.now) (numbers_of cx numbers.now) result (kept_after r re) }
{
    let fixed = folds::fixed_besides(starts, floats, numbers, cx, r);
    let written = space::get::<Written>(floats, cx, r);
    let old = space::get::<Kept>(floats, cx, r);
    let room = formulas::rewrite_room(cx.feas, written, re, fixed);
    floats::larger(room, old)
}

// The rest of rewrite_binding, of a row whose binaries and magnitude as written are right: what the
// binding keeps more.
fn store_binding(
    starts: &[usize],
    floats: &mut [f64],
    numbers: &[usize],
    cx: Context,
    r: usize,
    bp: f64,
) -> f64
    requires r_lt_rows { (r < cx.rows) × HoldsF cx floats.old × HoldsN cx numbers.now × Alive (numbers_of cx numbers.now) r × (0 < get_or (numbers_of cx numbers.now).binaries r 0) }
    requires ready { Ready (Spans starts.now) cx (floats_of cx floats.old) (numbers_of cx numbers.now) }
    ensures acts { Acts (Spans starts.now) cx (floats_of cx floats.old) (numbers_of cx numbers.now) (floats_of cx floats.new)
        (numbers_of cx numbers.now) (λ M u. with_row r (settled M u bp (row_of u r)) u) }
    ensures reads { Reads (Spans starts.now) cx (floats_of cx floats.old) (numbers_of cx numbers.now) result (λ M u. settled_growth M u bp (row_of u r)) }
{
    let re = rewritten_mag(starts, floats, numbers, cx, r, bp);
    let kept = kept_after(starts, floats, numbers, cx, r, re);
    let old = space::get::<Kept>(floats, cx, r);
    space::put::<Rewritten>(floats, cx, r, re);
    space::put::<Kept>(floats, cx, r, kept);
    kept - old
}

// t's variable is one of the row's binaries from now on. The first one brings the magnitude of the
// row's bound b.
fn add_binary(
    starts: &[usize],
    floats: &mut [f64],
    numbers: &mut [usize],
    cx: Context,
    r: usize,
    t: LiveTerm,
    b: f64,
)
    requires r_lt_rows { (r < cx.rows) × HoldsF cx floats.old × HoldsN cx numbers.old × Alive (numbers_of cx numbers.old) r }
    requires room { BinaryRoom starts.now cx (numbers_of cx numbers.old) r }
    ensures { Acts (Spans starts.now) cx (floats_of cx floats.old) (numbers_of cx numbers.old) (floats_of cx floats.new)
        (numbers_of cx numbers.new) (λ M u. with_row r (with_binary t.var t.coeff b (get_or (floats_of cx floats.old).rewritten r nan) (row_of u r)) u) }
{
    let k = space::get::<Binaries>(numbers, cx, r);
    let i = starts[r];
    let size = floats::absolute(t.coeff);
    space::put::<Binary>(numbers, cx, i + k, t.var);
    space::put::<Binaries>(numbers, cx, r, k + 1);
    if k == 0 {
        let mag = rhs_mag(floats, cx, r, b);
        space::put::<Written>(floats, cx, r, mag + size);
        space::put::<Kept>(floats, cx, r, 0.0);
    } else {
        let written = space::get::<Written>(floats, cx, r);
        space::put::<Written>(floats, cx, r, written + size);
    }
}

// = rewrite_binding, of a row that holds t's new coefficient already: b is the row's bound and bp the
// new one. The relaxation to add to bp. starts, floats, numbers, cx and r are every step's (space says why they stay apart); b is read by one
// callee and bp by the other.
pub(crate) fn rewrite_binding(
    starts: &[usize],
    floats: &mut [f64],
    numbers: &mut [usize],
    cx: Context,
    r: usize,
    t: LiveTerm,
    b: f64,
    bp: f64,
) -> f64
    requires r_lt_rows { (r < cx.rows) × HoldsF cx floats.old × HoldsN cx numbers.old × Alive (numbers_of cx numbers.old) r
        × LiveAt starts.now (floats_of cx floats.old) (numbers_of cx numbers.old) r t.var }
    requires ready { Ready (Spans starts.now) cx (floats_of cx floats.old) (numbers_of cx numbers.old) }
    ensures acts { Acts (Spans starts.now) cx (floats_of cx floats.old) (numbers_of cx numbers.old) (floats_of cx floats.new)
        (numbers_of cx numbers.new) (λ M u. with_row r (rebound r t.var t.coeff b bp M u) u) }
    ensures reads { Reads (Spans starts.now) cx (floats_of cx floats.old) (numbers_of cx numbers.old) result (rebound_growth r t.var t.coeff b bp) }
{
    if folds::has_binary(starts, numbers, cx, r, t.var) {
        return store_binding(starts, floats, numbers, cx, r, bp);
    }
    add_binary(starts, floats, numbers, cx, r, t, b);
    store_binding(starts, floats, numbers, cx, r, bp)
}
