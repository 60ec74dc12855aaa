// `fix`, `emit_bounds`, `tighten_upper` and `tighten_lower` of src/presolve/work.rs of microlp 0.7.0,
// changed: what changes a variable's bounds.
ghost use Rattle.std.specs.Prelude.{◌≡◌, true, ◌<◌, length};
ghost use Rattle.definition.specs.Bounds as definition;
ghost use Rattle.space.specs.Store.{floats_of, numbers_of, HoldsF, HoldsN};
ghost use Rattle.view.specs.Acts.{Ready, Acts, Tries, ReadyN, ActsN};
ghost use Rattle.view.specs.Adjacency.{Adj};
ghost use Rattle.view.specs.Known.{Bounding};
ghost use Rattle.bounds.specs.Flags.{FlagsKept};
ghost use Rattle.bounds.specs.Moves.{EmitsFour, tightens};
ghost use Rattle.bounds.specs.Stays.{still_at, Stays};

use crate::marks::mark_var;
use definition::Infeasible;
use space::{Context, Ehi, Elo, Fixed, Tightened, Whi, Wlo, count, get, put};
use view::Lists;

// = fix; dual fixing's flags stay
pub fn fix(
    adjacency: &[usize],
    floats: &mut [f64],
    numbers: &mut [usize],
    cx: Context,
    v: usize,
    x: f64,
)
    requires v_lt_vars { (v < cx.vars) × HoldsF cx floats.old × HoldsN cx numbers.old }
    requires ready { Ready (Adj adjacency.now) cx (floats_of cx floats.old) (numbers_of cx numbers.old) }
    ensures acts { Acts (Adj adjacency.now) cx (floats_of cx floats.old) (numbers_of cx numbers.old) (floats_of cx floats.new)
        (numbers_of cx numbers.new) (λ M. definition.fix M v x) }
    ensures flags_kept { FlagsKept (numbers_of cx numbers.old) (numbers_of cx numbers.new) }
{
    put::<Wlo>(floats, cx, v, x);
    put::<Whi>(floats, cx, v, x);
    put::<Elo>(floats, cx, v, x);
    put::<Ehi>(floats, cx, v, x);
    count::<Fixed>(numbers, cx);
    mark_var(adjacency, numbers, cx, v);
}

// = mark_tightened
fn mark_tightened(adjacency: &[usize], numbers: &mut [usize], cx: Context, v: usize)
    requires v_lt_vars { (v < cx.vars) × HoldsN cx numbers.old }
    requires ready_n { ReadyN (Adj adjacency.now) cx (numbers_of cx numbers.old) }
    ensures { ActsN (Adj adjacency.now) cx (numbers_of cx numbers.old) (numbers_of cx numbers.new) (λ M. definition.mark_tightened M v) }
{
    count::<Tightened>(numbers, cx);
    mark_var(adjacency, numbers, cx, v);
}

// The four bounds that emit_bounds leaves.
fn put_emitted(floats: &mut [f64], cx: Context, v: usize, lo: f64, hi: f64)
    requires { (v < cx.vars) × HoldsF cx floats.old }
    ensures { EmitsFour v lo hi (floats_of cx floats.old) (floats_of cx floats.new) }
{
    let wlo = get::<Wlo>(floats, cx, v);
    let whi = get::<Whi>(floats, cx, v);
    put::<Wlo>(floats, cx, v, formulas::emitted_lower(wlo, lo, hi));
    put::<Whi>(floats, cx, v, formulas::emitted_upper(whi, lo, hi));
    put::<Elo>(floats, cx, v, lo);
    put::<Ehi>(floats, cx, v, hi);
}

// = emit_bounds
pub fn emit_bounds(
    adjacency: &[usize],
    floats: &mut [f64],
    numbers: &mut [usize],
    cx: Context,
    v: usize,
    lo: f64,
    hi: f64,
)
    requires v_lt_vars { (v < cx.vars) × HoldsF cx floats.old × HoldsN cx numbers.old }
    requires ready { Ready (Adj adjacency.now) cx (floats_of cx floats.old) (numbers_of cx numbers.old) }
    ensures { Acts (Adj adjacency.now) cx (floats_of cx floats.old) (numbers_of cx numbers.old) (floats_of cx floats.new)
        (numbers_of cx numbers.new) (λ M. definition.emit_bounds M v lo hi) }
{
    let elo = get::<Elo>(floats, cx, v);
    let ehi = get::<Ehi>(floats, cx, v);
    if formulas::emits_tighter(lo, hi, elo, ehi) {
        mark_tightened(adjacency, numbers, cx, v);
    }
    put_emitted(floats, cx, v, lo, hi);
}

// The four steps below stand each for itself: upper and lower differ in all the fields that they read and write, in the move and in
// the side of the minimum, and a trait with these for members would be longer than what it replaces.
// = upper_int
fn upper_int(
    adjacency: &[usize],
    floats: &mut [f64],
    numbers: &mut [usize],
    cx: Context,
    v: usize,
    q: f64,
) -> Result<(), Infeasible>
    requires v_lt_vars { (v < cx.vars) × HoldsF cx floats.old × HoldsN cx numbers.old }
    requires ready { Ready (Adj adjacency.now) cx (floats_of cx floats.old) (numbers_of cx numbers.old) }
    ensures { Tries (Adj adjacency.now) cx (floats_of cx floats.old) (numbers_of cx numbers.old) (floats_of cx floats.new)
        (numbers_of cx numbers.new) result (λ M. definition.upper_int M v q) }
{
    let ehi = get::<Ehi>(floats, cx, v);
    let wlo = get::<Wlo>(floats, cx, v);
    if formulas::upper_int_move(q, ehi, wlo)? {
        let whi = get::<Whi>(floats, cx, v);
        put::<Ehi>(floats, cx, v, q);
        put::<Whi>(floats, cx, v, floats::smaller(whi, q));
        mark_tightened(adjacency, numbers, cx, v);
    }
    Ok(())
}

// = lower_int
fn lower_int(
    adjacency: &[usize],
    floats: &mut [f64],
    numbers: &mut [usize],
    cx: Context,
    v: usize,
    q: f64,
) -> Result<(), Infeasible>
    requires v_lt_vars { (v < cx.vars) × HoldsF cx floats.old × HoldsN cx numbers.old }
    requires ready { Ready (Adj adjacency.now) cx (floats_of cx floats.old) (numbers_of cx numbers.old) }
    ensures { Tries (Adj adjacency.now) cx (floats_of cx floats.old) (numbers_of cx numbers.old) (floats_of cx floats.new)
        (numbers_of cx numbers.new) result (λ M. definition.lower_int M v q) }
{
    let elo = get::<Elo>(floats, cx, v);
    let whi = get::<Whi>(floats, cx, v);
    if formulas::lower_int_move(q, elo, whi)? {
        let wlo = get::<Wlo>(floats, cx, v);
        put::<Elo>(floats, cx, v, q);
        put::<Wlo>(floats, cx, v, floats::larger(wlo, q));
        mark_tightened(adjacency, numbers, cx, v);
    }
    Ok(())
}

// = upper_real
fn upper_real(
    adjacency: &[usize],
    floats: &mut [f64],
    numbers: &mut [usize],
    cx: Context,
    v: usize,
    q: f64,
) -> Result<(), Infeasible>
    requires v_lt_vars { (v < cx.vars) × HoldsF cx floats.old × HoldsN cx numbers.old }
    requires ready { Ready (Adj adjacency.now) cx (floats_of cx floats.old) (numbers_of cx numbers.old) }
    ensures { Tries (Adj adjacency.now) cx (floats_of cx floats.old) (numbers_of cx numbers.old) (floats_of cx floats.new)
        (numbers_of cx numbers.new) result (λ M. definition.upper_real M v q) }
{
    let whi = get::<Whi>(floats, cx, v);
    let wlo = get::<Wlo>(floats, cx, v);
    let elo = get::<Elo>(floats, cx, v);
    let tol = tolerances::bound_tolerance(cx.feas, elo);
    if formulas::upper_real_move(q, whi, wlo, tol)? {
        put::<Whi>(floats, cx, v, q);
        mark_tightened(adjacency, numbers, cx, v);
    }
    Ok(())
}

// = lower_real
fn lower_real(
    adjacency: &[usize],
    floats: &mut [f64],
    numbers: &mut [usize],
    cx: Context,
    v: usize,
    q: f64,
) -> Result<(), Infeasible>
    requires v_lt_vars { (v < cx.vars) × HoldsF cx floats.old × HoldsN cx numbers.old }
    requires ready { Ready (Adj adjacency.now) cx (floats_of cx floats.old) (numbers_of cx numbers.old) }
    ensures { Tries (Adj adjacency.now) cx (floats_of cx floats.old) (numbers_of cx numbers.old) (floats_of cx floats.new)
        (numbers_of cx numbers.new) result (λ M. definition.lower_real M v q) }
{
    let wlo = get::<Wlo>(floats, cx, v);
    let whi = get::<Whi>(floats, cx, v);
    let ehi = get::<Ehi>(floats, cx, v);
    let tol = tolerances::bound_tolerance(cx.feas, ehi);
    if formulas::lower_real_move(q, wlo, whi, tol)? {
        put::<Wlo>(floats, cx, v, q);
        mark_tightened(adjacency, numbers, cx, v);
    }
    Ok(())
}

// = tighten_upper from above, tighten_lower from below. lists, floats, numbers and cx are every step's (space says why they stay apart). v, q,
// relax and above are of one implied bound, and no struct: its caller asks `stays` of q before it knows what q is relaxed by, and
// would make the struct for this one call.
pub fn tighten(
    lists: Lists,
    floats: &mut [f64],
    numbers: &mut [usize],
    cx: Context,
    v: usize,
    q: f64,
    relax: f64,
    above: bool,
) -> Result<(), Infeasible>
    requires v_lt_vars { (v < cx.vars) × HoldsF cx floats.old × HoldsN cx numbers.old }
    requires ready { Ready (Bounding lists) cx (floats_of cx floats.old) (numbers_of cx numbers.old) }
    ensures { Tries (Bounding lists.entry) cx (floats_of cx floats.old) (numbers_of cx numbers.old)
        (floats_of cx floats.new) (numbers_of cx numbers.new) result (tightens v q relax above) }
{
    if !floats::is_finite(q) {
        return Ok(());
    }
    let int = readers::is_int(lists.domain, cx, v);
    if above {
        if int {
            return upper_int(
                lists.adjacency,
                floats,
                numbers,
                cx,
                v,
                floats::floor(q + relax),
            );
        }
        return upper_real(lists.adjacency, floats, numbers, cx, v, q + relax);
    }
    if int {
        return lower_int(
            lists.adjacency,
            floats,
            numbers,
            cx,
            v,
            floats::ceil(q - relax),
        );
    }
    lower_real(lists.adjacency, floats, numbers, cx, v, q - relax)
}

// Whether an implied bound q of variable v, from above or from below, is at or outside the bound that it would move. Such a q leaves
// the variable as it is, whatever it is relaxed by.
pub fn stays(domain: &[u8], floats: &[f64], cx: Context, v: usize, q: f64, above: bool) -> bool
    requires { (v < cx.vars) × HoldsF cx floats.now × (v < length domain.now) }
    ensures value { result ≡ still_at domain.now cx (floats_of cx floats.now) v q above }
    ensures stays { result ≡ true → Stays domain.now cx (floats_of cx floats.now) v q above }
{
    let int = readers::is_int(domain, cx, v);
    if above {
        let ehi = get::<Ehi>(floats, cx, v);
        let whi = get::<Whi>(floats, cx, v);
        return formulas::upper_stays(int, q, ehi, whi);
    }
    let elo = get::<Elo>(floats, cx, v);
    let wlo = get::<Wlo>(floats, cx, v);
    formulas::lower_stays(int, q, elo, wlo)
}
