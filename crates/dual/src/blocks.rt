// `dual_fix` of src/presolve/work.rs of microlp 0.7.0, changed: which variables the alive rows keep
// from falling and from rising, as flags in the working numbers.
ghost use Rattle.std.specs.Prelude.{[], ◌∷◌, ◌+◌, ◌<◌, ◌≤◌, get_or};
ghost use Rattle.tolerances.specs.Tol.{term, at};
ghost use Rattle.definition.specs.Dual.{block_terms, none_bad};
ghost use Rattle.space.specs.Store.{floats_of, numbers_of, HoldsF, HoldsN};
ghost use Rattle.view.specs.Acts.{Ready};
ghost use Rattle.view.specs.Known.{Spans};
ghost use Rattle.dual.specs.Flags.{Flags};
ghost use Rattle.dual.specs.Barring.{terms_at, TermsBelow, fall_bars, rise_bars, each_row};

use space::{Alive, BadDec, BadInc, Coeffs, Context, Hi, Len, Lo, Vars, get, put};

// = none_bad, of both lists. No `fill`: space alone knows where a block stands.
pub(crate) fn clear_flags(numbers: &mut [usize], cx: Context)
    requires { HoldsN cx numbers.old }
    ensures { Flags (numbers_of cx numbers.old) (numbers_of cx numbers.new) (λ l. none_bad cx.vars) (λ l. none_bad cx.vars) }
{
    for v in 0..cx.vars {
        put::<BadDec>(numbers, cx, v, 0);
        put::<BadInc>(numbers, cx, v, 0);
    }
}

// The term at place i, of a row with a lower bound where ge, an upper one where le: two flags, as the definition has them, which
// swap places for the other list.
fn block_term(floats: &[f64], numbers: &mut [usize], cx: Context, i: usize, ge: bool, le: bool)
    requires i_lt_terms { (i < cx.terms) × HoldsF cx floats.now × HoldsN cx numbers.old }
    requires i_bound { get_or (numbers_of cx numbers.old).vars i 0 < cx.vars }
    ensures { Flags (numbers_of cx numbers.old) (numbers_of cx numbers.new)
        (block_terms ge le (term (get_or (numbers_of cx numbers.old).vars i 0) (at (floats_of cx floats.now).coeffs i) ∷ []))
        (block_terms le ge (term (get_or (numbers_of cx numbers.old).vars i 0) (at (floats_of cx floats.now).coeffs i) ∷ [])) }
{
    let v = get::<Vars>(numbers, cx, i);
    let x = get::<Coeffs>(floats, cx, i);
    if formulas::blocks(x, ge, le) {
        put::<BadDec>(numbers, cx, v, 1);
    }
    if formulas::blocks(x, le, ge) {
        put::<BadInc>(numbers, cx, v, 1);
    }
}

// = block_terms, of both lists, over the k terms from place a on
fn block_terms(
    floats: &[f64],
    numbers: &mut [usize],
    cx: Context,
    a: usize,
    k: usize,
    ge: bool,
    le: bool,
)
    requires k_bound { (a + k ≤ cx.terms) × HoldsF cx floats.now × HoldsN cx numbers.old }
    requires terms_below { TermsBelow cx (numbers_of cx numbers.old) a k }
    ensures { Flags (numbers_of cx numbers.old) (numbers_of cx numbers.new)
        (block_terms ge le (terms_at (floats_of cx floats.now).coeffs (numbers_of cx numbers.old).vars a k))
        (block_terms le ge (terms_at (floats_of cx floats.now).coeffs (numbers_of cx numbers.old).vars a k)) }
{
    for i in 0..k {
        block_term(floats, numbers, cx, a + i, ge, le);
    }
}

// = a step of bad_dec and bad_inc
fn block_row(starts: &[usize], floats: &[f64], numbers: &mut [usize], cx: Context, r: usize)
    requires r_lt_rows { (r < cx.rows) × HoldsF cx floats.now × HoldsN cx numbers.old }
    requires ready { Ready (Spans starts.now) cx (floats_of cx floats.now) (numbers_of cx numbers.old) }
    ensures { Flags (numbers_of cx numbers.old) (numbers_of cx numbers.new)
        (fall_bars starts.now (floats_of cx floats.now) (numbers_of cx numbers.old) r)
        (rise_bars starts.now (floats_of cx floats.now) (numbers_of cx numbers.old) r) }
{
    if get::<Alive>(numbers, cx, r) == 1 {
        let k = get::<Len>(numbers, cx, r);
        let ge = floats::is_finite(get::<Lo>(floats, cx, r));
        let le = floats::is_finite(get::<Hi>(floats, cx, r));
        block_terms(floats, numbers, cx, starts[r], k, ge, le);
    }
}

// = bad_dec and bad_inc
pub(crate) fn block_rows(starts: &[usize], floats: &[f64], numbers: &mut [usize], cx: Context)
    requires holds_f { HoldsF cx floats.now × HoldsN cx numbers.old }
    requires ready { Ready (Spans starts.now) cx (floats_of cx floats.now) (numbers_of cx numbers.old) }
    ensures { Flags (numbers_of cx numbers.old) (numbers_of cx numbers.new)
        (each_row (fall_bars starts.now (floats_of cx floats.now) (numbers_of cx numbers.old)) cx.rows)
        (each_row (rise_bars starts.now (floats_of cx floats.now) (numbers_of cx numbers.old)) cx.rows) }
{
    for r in 0..cx.rows {
        block_row(starts, floats, numbers, cx, r);
    }
}
