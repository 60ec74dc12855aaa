// `fixed_besides` of src/presolve/work.rs of microlp 0.7.0, changed: a row's rewritten binaries, and
// the magnitude of its folded terms but theirs.
ghost use Rattle.std.specs.Prelude.{◌≡◌, ◌+◌, ◌<◌, ◌≤◌, get_or};
ghost use Rattle.std.specs.Float.{nan};
ghost use Rattle.definition.specs.Work as work;
ghost use Rattle.definition.specs.Folds.{fixed_besides};
ghost use Rattle.space.specs.Store.{floats_of, numbers_of, HoldsF, HoldsN};
ghost use Rattle.view.specs.Known.{Spans};
ghost use Rattle.folds.specs.Stands.{Standing, StandingN, TellsRow, TellsN};
ghost use Rattle.folds.specs.Besides.{listed, binaries_of, besides};

use space::{Binaries, Binary, Coeffs, Context, Elo, Folded, Vars};

// Whether v is among the k binaries from place a on.
fn has_among(numbers: &[usize], cx: Context, a: usize, k: usize, v: usize) -> bool
    requires { (a + k ≤ cx.terms) × HoldsN cx numbers.now }
    ensures { result ≡ work.has v (listed a k (numbers_of cx numbers.now).binary) }
{
    (0..k).any(|i| space::get::<Binary>(numbers, cx, a + i) == v)
}

// Whether v is one of row r's rewritten binaries.
pub fn has_binary(starts: &[usize], numbers: &[usize], cx: Context, r: usize, v: usize) -> bool
    requires r_lt_rows { (r < cx.rows) × HoldsN cx numbers.now }
    requires standing_n { StandingN (Spans starts.now) cx r (numbers_of cx numbers.now) }
    ensures { TellsN (Spans starts.now) cx r (numbers_of cx numbers.now) result (λ M w x. work.has v (binaries_of x.binding)) }
{
    has_among(
        numbers,
        cx,
        starts[r],
        space::get::<Binaries>(numbers, cx, r),
        v,
    )
}

// The folded term at place i, added where its variable is none of the k binaries from place a on.
fn fixed_term(
    floats: &[f64],
    numbers: &[usize],
    cx: Context,
    a: usize,
    k: usize,
    i: usize,
    sum: f64,
) -> f64
    requires k_bound { (a + k ≤ cx.terms) × (i < cx.terms) × HoldsF cx floats.now × HoldsN cx numbers.now }
    requires i_bound { get_or (numbers_of cx numbers.now).vars i 0 < cx.vars }
    ensures { result ≡ besides (listed a k (numbers_of cx numbers.now).binary) sum (get_or (numbers_of cx numbers.now).vars i 0)
        (get_or (floats_of cx floats.now).coeffs i nan) (get_or (floats_of cx floats.now).elo (get_or (numbers_of cx numbers.now).vars i 0) nan) }
{
    let v = space::get::<Vars>(numbers, cx, i);
    if has_among(numbers, cx, a, k, v) {
        return sum;
    }
    sum + floats::absolute(space::get::<Coeffs>(floats, cx, i) * space::get::<Elo>(floats, cx, v))
}

// = fixed_besides, of the row's own binding.
pub fn fixed_besides(
    starts: &[usize],
    floats: &[f64],
    numbers: &[usize],
    cx: Context,
    r: usize,
) -> f64
    requires r_lt_rows { (r < cx.rows) × HoldsF cx floats.now × HoldsN cx numbers.now }
    requires standing { Standing (Spans starts.now) cx r (floats_of cx floats.now) (numbers_of cx numbers.now) }
    ensures { TellsRow (Spans starts.now) cx r (floats_of cx floats.entry.now) (numbers_of cx numbers.now) result (λ M w x. fixed_besides w x (binaries_of x.binding)) }
{
    let a = starts[r];
    let e = starts[r + 1];
    let k = space::get::<Binaries>(numbers, cx, r);
    let n = space::get::<Folded>(numbers, cx, r);
    let mut sum = 0.0;
    for i in (e - n..e).rev() {
        sum = fixed_term(floats, numbers, cx, a, k, i, sum);
    }
    sum
}
