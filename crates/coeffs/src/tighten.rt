// `tighten_binary_coeffs` of src/presolve/work.rs of microlp 0.7.0, changed: which terms are eligible.
ghost use Rattle.std.specs.Prelude.{◌<◌, length};
ghost use Rattle.definition.specs.Tighten as definition;
ghost use Rattle.formulas.specs.Bare.{bare};
ghost use Rattle.formulas.specs.Rewriting.{maybe_form, maybe_rewrite, rewrite_at};
ghost use Rattle.space.specs.Store.{floats_of, numbers_of, HoldsF, HoldsN};
ghost use Rattle.view.specs.Acts.{Ready, Reads};
ghost use Rattle.readers.specs.Reading.{Alive, ReadsF, Domains};
ghost use Rattle.coeffs.specs.Eligible.{Binaries, RowLimits, count_all};

use formulas::{OneSided, Rewrite};
use space::{Coeffs, Context, Ehi, Elo, Len, Vars};

// = binary
fn is_binary(domain: &[u8], floats: &[f64], cx: Context, v: usize) -> bool
    requires { (v < cx.vars) × (v < length domain.now) × HoldsF cx floats.now }
    ensures { ReadsF (Domains domain.now) cx (floats_of cx floats.now) result (λ M u. definition.binary M u v) }
{
    let int = readers::is_int_domain(domain, v);
    let lo = space::get::<Elo>(floats, cx, v);
    let hi = space::get::<Ehi>(floats, cx, v);
    formulas::binary(int, lo, hi)
}

// = rewrite_of, of the variable v with the coefficient a: two parameters, since is_binary asks for the one and rewrite_of
// for the other. Compiled into both its callers, since it is called once a term.
#[inline(always)]
pub fn rewrite_term(
    x: OneSided,
    domain: &[u8],
    floats: &[f64],
    cx: Context,
    v: usize,
    a: f64,
) -> Option<Rewrite>
    requires { (v < cx.vars) × (v < length domain.now) × HoldsF cx floats.now }
    ensures { ReadsF (Domains domain.now) cx (floats_of cx floats.now) (maybe_rewrite result)
        (λ M u. rewrite_at M (definition.binary M u v) (maybe_form x.form) x.room (bare x.limits) x.act a) }
{
    x.rewrite_of(is_binary(domain, floats, cx, v), a)
}

// = eligible, over the live terms of row r, whose limits these are
pub fn eligible(
    x: OneSided,
    domain: &[u8],
    starts: &[usize],
    floats: &[f64],
    numbers: &[usize],
    cx: Context,
    r: usize,
) -> usize
    requires r_lt_rows { (r < cx.rows) × HoldsF cx floats.now × HoldsN cx numbers.now × Alive (numbers_of cx numbers.now) r }
    requires row_limits { RowLimits cx (floats_of cx floats.now) r x.limits }
    requires ready { Ready (Binaries domain.now starts.now) cx (floats_of cx floats.now) (numbers_of cx numbers.now) }
    ensures { Reads (Binaries domain.now starts.now) cx (floats_of cx floats.now) (numbers_of cx numbers.now) result (count_all (maybe_form x.form) x.room x.act r) }
{
    let a = starts[r];
    let len = space::get::<Len>(numbers, cx, r);
    let mut n = 0;
    for i in 0..len {
        let v = space::get::<Vars>(numbers, cx, a + i);
        let c = space::get::<Coeffs>(floats, cx, a + i);
        let z = rewrite_term(x, domain, floats, cx, v, c);
        n += formulas::rewrite_count(z);
    }
    n
}
