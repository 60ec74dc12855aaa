// `fold_fixed` of src/presolve/work.rs of microlp 0.7.0, changed: fixed variables and zero coefficients
// leave a row.
ghost use Rattle.std.specs.Prelude.{◌≡◌, ◌+◌, ◌<◌, ◌≤◌, length, get_or};
ghost use Rattle.definition.specs.Folds.{fold_loop};
ghost use Rattle.space.specs.Store.{floats_of, numbers_of, HoldsF, HoldsN};
ghost use Rattle.view.specs.Known.{Spans};
ghost use Rattle.folds.specs.Folding.{swap_f, swap_n, push_f, push_n, shift_f};
ghost use Rattle.folds.specs.Stands.{Standing, Turns};
ghost use Rattle.folds.specs.FoldStep.{fixed_in, FoldSteps};

use space::{Coeffs, Context, Ehi, Elo, FoldScale, Folded, Hi, Len, Lo, Shift, Vars};

// = fixed. Dual fixing and an empty row read the two bounds for themselves: the test is formulas' `fixed_at` in all three.
#[tactic(auto, using(crate::specs::FoldStep::fixed_both))]
pub(crate) fn fixed(floats: &[f64], cx: Context, v: usize) -> bool
    requires { (v < cx.vars) × HoldsF cx floats.now }
    ensures { result ≡ fixed_in (floats_of cx floats.now) v }
{
    formulas::fixed_at(
        space::get::<Elo>(floats, cx, v),
        space::get::<Ehi>(floats, cx, v),
    )
}

// = swap_remove: the last live term of the span that starts at a moves to place i of it.
#[tactic(auto, using(crate::specs::Folding::swap_floats, crate::specs::Folding::swap_numbers))]
fn swap_remove(floats: &mut [f64], numbers: &mut [usize], cx: Context, r: usize, a: usize, i: usize)
    requires r_lt_rows { (r < cx.rows) × HoldsF cx floats.old × HoldsN cx numbers.old }
    requires i_bound { (i < get_or (numbers_of cx numbers.old).len r 0) × (a + get_or (numbers_of cx numbers.old).len r 0 ≤ cx.terms) }
    ensures floats_after { floats_of cx floats.new ≡ swap_f a i (get_or (numbers_of cx numbers.old).len r 0) (floats_of cx floats.old) }
    ensures numbers_after { numbers_of cx numbers.new ≡ swap_n r a i (get_or (numbers_of cx numbers.old).len r 0) (numbers_of cx numbers.old) }
{
    let n = space::get::<Len>(numbers, cx, r);
    let last = a + (n - 1);
    let v = space::get::<Vars>(numbers, cx, last);
    let x = space::get::<Coeffs>(floats, cx, last);
    space::put::<Vars>(numbers, cx, a + i, v);
    space::put::<Coeffs>(floats, cx, a + i, x);
    space::put::<Len>(numbers, cx, r, n - 1);
}

// The next folded term goes before those that stand at the back of the span, which ends at e.
#[tactic(auto, using(crate::specs::Folding::push_floats, crate::specs::Folding::push_numbers))]
fn push_folded(
    floats: &mut [f64],
    numbers: &mut [usize],
    cx: Context,
    r: usize,
    e: usize,
    v: usize,
    x: f64,
)
    requires r_lt_rows { (r < cx.rows) × HoldsF cx floats.old × HoldsN cx numbers.old }
    requires r_bound { (get_or (numbers_of cx numbers.old).folded r 0 < e) × (e ≤ cx.terms) }
    ensures floats_after { floats_of cx floats.new ≡ push_f e (get_or (numbers_of cx numbers.old).folded r 0) x (floats_of cx floats.old) }
    ensures numbers_after { numbers_of cx numbers.new ≡ push_n r e (get_or (numbers_of cx numbers.old).folded r 0) v (numbers_of cx numbers.old) }
{
    let k = space::get::<Folded>(numbers, cx, r);
    let i = e - (k + 1);
    space::put::<Vars>(numbers, cx, i, v);
    space::put::<Coeffs>(floats, cx, i, x);
    space::put::<Folded>(numbers, cx, r, k + 1);
}

// A term of the value y leaves a row's four floats.
#[tactic(auto, using(crate::specs::Folding::shift_put))]
fn shift_sides(floats: &mut [f64], cx: Context, r: usize, y: f64)
    requires { (r < cx.rows) × HoldsF cx floats.old }
    ensures { floats_of cx floats.new ≡ shift_f r y (floats_of cx floats.old) }
{
    let lo = space::get::<Lo>(floats, cx, r);
    space::put::<Lo>(floats, cx, r, lo - y);
    let hi = space::get::<Hi>(floats, cx, r);
    space::put::<Hi>(floats, cx, r, hi - y);
    let scale = space::get::<FoldScale>(floats, cx, r);
    space::put::<FoldScale>(floats, cx, r, scale + floats::absolute(y));
    let shift = space::get::<Shift>(floats, cx, r);
    space::put::<Shift>(floats, cx, r, shift + y);
}

// = fold_step: the place to look at next.
fn fold_step(
    starts: &[usize],
    floats: &mut [f64],
    numbers: &mut [usize],
    cx: Context,
    r: usize,
    at: usize,
) -> usize
    requires r_lt_rows { (r < cx.rows) × HoldsF cx floats.old × HoldsN cx numbers.old }
    requires standing { Standing (Spans starts.now) cx r (floats_of cx floats.old) (numbers_of cx numbers.old) }
    requires at_bound { at < get_or (numbers_of cx numbers.old).len r 0 }
    ensures { FoldSteps (Spans starts.now) cx r at (floats_of cx floats.old) (numbers_of cx numbers.old) (floats_of cx floats.new) (numbers_of cx numbers.new) result }
{
    let a = starts[r];
    let e = starts[r + 1];
    let v = space::get::<Vars>(numbers, cx, a + at);
    let x = space::get::<Coeffs>(floats, cx, a + at);
    if x == 0.0 {
        swap_remove(floats, numbers, cx, r, a, at);
        return at;
    }
    if fixed(floats, cx, v) {
        let y = x * space::get::<Elo>(floats, cx, v);
        swap_remove(floats, numbers, cx, r, a, at);
        push_folded(floats, numbers, cx, r, e, v, x);
        shift_sides(floats, cx, r, y);
        return at;
    }
    at + 1
}

// = fold_loop, over all terms. Each turn takes a term out or goes one place on, so there are as many turns as terms.
pub(crate) fn fold_loop(
    starts: &[usize],
    floats: &mut [f64],
    numbers: &mut [usize],
    cx: Context,
    r: usize,
)
    requires r_lt_rows { (r < cx.rows) × HoldsF cx floats.old × HoldsN cx numbers.old }
    requires standing { Standing (Spans starts.now) cx r (floats_of cx floats.old) (numbers_of cx numbers.old) }
    ensures { Turns (Spans starts.now) cx r (floats_of cx floats.entry.now) (numbers_of cx numbers.old) (floats_of cx floats.exit.now)
        (numbers_of cx numbers.new) (λ M w x. (fold_loop (length x.terms) w (0, x)).1) }
{
    let terms = space::get::<Len>(numbers, cx, r);
    let mut at = 0;
    for _turn in 0..terms {
        at = fold_step(starts, floats, numbers, cx, r, at);
    }
}
