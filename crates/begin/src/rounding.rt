// src/presolve/mod.rs of microlp 0.7.0, changed: integer bounds, rounded variable by variable.
// They are working and emitted bounds alike.
ghost use Rattle.std.specs.Prelude.{◌≡◌, ◌<◌, length, is_ok};
ghost use Rattle.tolerances.specs.Tol.{at};
ghost use Rattle.space.specs.Store.{floats_of, HoldsF};
ghost use Rattle.begin.specs.Rounding.{put_bounds, VarRounded, BoundsRounded};

use definition::{Infeasible, Input};
use space::{Context, Ehi, Elo, Whi, Wlo};

// The working and the emitted bounds of v.
fn put_bounds(floats: &mut [f64], cx: Context, v: usize, l: f64, h: f64)
    requires { (v < cx.vars) × HoldsF cx floats.old }
    ensures { floats_of cx floats.new ≡ put_bounds v l h (floats_of cx floats.old) }
{
    space::put::<Wlo>(floats, cx, v, l);
    space::put::<Whi>(floats, cx, v, h);
    space::put::<Elo>(floats, cx, v, l);
    space::put::<Ehi>(floats, cx, v, h);
}

// = round_var: v's bounds as handed in may cross once rounded
fn round_var(input: Input, floats: &mut [f64], cx: Context, v: usize) -> Result<(), Infeasible>
    requires { (v < cx.vars) × (v < length input.lower.now) × (v < length input.upper.now) × (v < length input.domain.now) × HoldsF cx floats.old }
    ensures { VarRounded input.entry.domain.now cx input.entry.int_tol v (at input.entry.lower.now v) (at input.entry.upper.now v)
        (floats_of cx floats.old) (floats_of cx floats.new) (is_ok result) }
{
    let l = input.lower[v];
    let h = input.upper[v];
    if readers::is_int(input.domain, cx, v) {
        let lo = formulas::rounded_lower(input.int_tol, l);
        let hi = formulas::rounded_upper(input.int_tol, h);
        if lo > hi {
            return Err(Infeasible);
        }
        put_bounds(floats, cx, v, lo, hi);
        return Ok(());
    }
    put_bounds(floats, cx, v, l, h);
    Ok(())
}

// = round_from
pub(crate) fn round_vars(input: Input, floats: &mut [f64], cx: Context) -> Result<(), Infeasible>
    requires { (length input.lower.now ≡ cx.vars) × (length input.upper.now ≡ cx.vars) × (length input.domain.now ≡ cx.vars) × HoldsF cx floats.old }
    ensures { BoundsRounded input.entry cx (floats_of cx floats.new) (is_ok result) }
{
    for v in 0..cx.vars {
        round_var(input, floats, cx, v)?;
    }
    Ok(())
}
