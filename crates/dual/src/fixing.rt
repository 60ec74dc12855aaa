// `dual_fix` of src/presolve/work.rs of microlp 0.7.0, changed: an integer variable that no row and not
// the objective keeps from a finite bound is fixed there.
ghost use Rattle.std.specs.Prelude.{◌≡◌, false, map, ◌<◌, length, get_or};
ghost use Rattle.std.specs.Float.{nan};
ghost use Rattle.definition.specs.Dual.{dual_var, dual_from, dual_fix};
ghost use Rattle.formulas.specs.Fixing.{falls_at, rises_at};
ghost use Rattle.space.specs.Store.{floats_of, numbers_of, HoldsF, HoldsN};
ghost use Rattle.view.specs.Shows.{is_one};
ghost use Rattle.view.specs.Acts.{Ready};
ghost use Rattle.view.specs.Changes.{ActsBool};
ghost use Rattle.bounds.specs.Flags.{FlagsKept};
ghost use Rattle.readers.specs.Reading.{ReadsF, Domains};
ghost use Rattle.dual.specs.Fixing.{Fixing, Dual, stays_at};

use crate::blocks::{block_rows, clear_flags};
use space::{BadDec, BadInc, Context, Ehi, Elo, Whi, Wlo, get};
use view::Lists;

// Whether v is left alone: fixed, or not an integer variable. The test of the bounds is formulas' `fixed_at`, as in folds, which dual
// has no other need of.
fn stays(domain: &[u8], floats: &[f64], cx: Context, v: usize) -> bool
    requires { (v < cx.vars) × (v < length domain.now) × HoldsF cx floats.now }
    ensures { ReadsF (Domains domain.now) cx (floats_of cx floats.now) result (λ M u. stays_at M v u) }
{
    let lo = get::<Elo>(floats, cx, v);
    let hi = get::<Ehi>(floats, cx, v);
    formulas::fixed_at(lo, hi) || !readers::is_int(domain, cx, v)
}

// = may_fall. It and `rises` read other fields for another test: one function with a direction would be longer than both.
#[tactic(auto, unfolding(view::specs::Shows::is_one))]
fn falls(obj: &[f64], floats: &[f64], numbers: &[usize], cx: Context, v: usize) -> bool
    requires { (v < cx.vars) × (v < length obj.now) × HoldsF cx floats.now × HoldsN cx numbers.now }
    ensures { result ≡ falls_at (get_or obj.now v nan) (is_one (get_or (numbers_of cx numbers.now).bad_dec v 0)) (get_or (floats_of cx floats.now).wlo v nan) }
{
    let b = get::<BadDec>(numbers, cx, v);
    let lo = get::<Wlo>(floats, cx, v);
    formulas::may_fall(obj[v], b == 1, lo)
}

// = may_rise
#[tactic(auto, unfolding(view::specs::Shows::is_one))]
fn rises(obj: &[f64], floats: &[f64], numbers: &[usize], cx: Context, v: usize) -> bool
    requires { (v < cx.vars) × (v < length obj.now) × HoldsF cx floats.now × HoldsN cx numbers.now }
    ensures { result ≡ rises_at (get_or obj.now v nan) (is_one (get_or (numbers_of cx numbers.now).bad_inc v 0)) (get_or (floats_of cx floats.now).whi v nan) }
{
    let b = get::<BadInc>(numbers, cx, v);
    let hi = get::<Whi>(floats, cx, v);
    formulas::may_rise(obj[v], b == 1, hi)
}

// = dual_var, of no change before: whether v was fixed. The objective stands beside `lists` and is none of them: of all steps
// the dual one alone reads it.
fn dual_var(
    obj: &[f64],
    lists: Lists,
    floats: &mut [f64],
    numbers: &mut [usize],
    cx: Context,
    v: usize,
) -> bool
    requires v_lt_vars { (v < cx.vars) × HoldsF cx floats.old × HoldsN cx numbers.old }
    requires ready { Ready (Fixing obj.now lists) cx (floats_of cx floats.old) (numbers_of cx numbers.old) }
    ensures acts_bool { ActsBool (Fixing obj.now lists.entry) cx (floats_of cx floats.old)
        (numbers_of cx numbers.old) (floats_of cx floats.new) (numbers_of cx numbers.new) result
        (λ M u. dual_var M (map is_one (numbers_of cx numbers.old).bad_dec) (map is_one (numbers_of cx numbers.old).bad_inc) v u false) }
    ensures flags_kept { FlagsKept (numbers_of cx numbers.old) (numbers_of cx numbers.new) }
{
    if stays(lists.domain, floats, cx, v) {
        return false;
    }
    if falls(obj, floats, numbers, cx, v) {
        let lo = get::<Wlo>(floats, cx, v);
        bounds::fix(lists.adjacency, floats, numbers, cx, v, lo);
        return true;
    }
    if rises(obj, floats, numbers, cx, v) {
        let hi = get::<Whi>(floats, cx, v);
        bounds::fix(lists.adjacency, floats, numbers, cx, v, hi);
        return true;
    }
    false
}

// = dual_from, over all variables
fn dual_vars(
    obj: &[f64],
    lists: Lists,
    floats: &mut [f64],
    numbers: &mut [usize],
    cx: Context,
) -> bool
    requires holds_f { HoldsF cx floats.old × HoldsN cx numbers.old }
    requires ready { Ready (Fixing obj.now lists) cx (floats_of cx floats.old) (numbers_of cx numbers.old) }
    ensures { ActsBool (Fixing obj.now lists.entry) cx (floats_of cx floats.old)
        (numbers_of cx numbers.old) (floats_of cx floats.new) (numbers_of cx numbers.new) result
        (λ M u. dual_from M cx.vars (map is_one (numbers_of cx numbers.old).bad_dec) (map is_one (numbers_of cx numbers.old).bad_inc) 0 u false) }
{
    let mut changed = false;
    for v in 0..cx.vars {
        changed |= dual_var(obj, lists, floats, numbers, cx, v);
    }
    changed
}

// = dual_fix: whether something was fixed
pub fn dual_fix(
    obj: &[f64],
    lists: Lists,
    floats: &mut [f64],
    numbers: &mut [usize],
    cx: Context,
) -> bool
    requires holds_f { HoldsF cx floats.old × HoldsN cx numbers.old }
    requires ready { Ready (Dual obj.now lists) cx (floats_of cx floats.old) (numbers_of cx numbers.old) }
    ensures { ActsBool (Dual obj.now lists.entry) cx (floats_of cx floats.old)
        (numbers_of cx numbers.old) (floats_of cx floats.new) (numbers_of cx numbers.new) result (λ M. dual_fix M) }
{
    clear_flags(numbers, cx);
    block_rows(lists.rows.starts, floats, numbers, cx);
    dual_vars(obj, lists, floats, numbers, cx)
}
