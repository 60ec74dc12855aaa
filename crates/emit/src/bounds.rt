// src/presolve/mod.rs of microlp 0.7.0, changed: the emitted bounds.
ghost use Rattle.std.specs.Prelude.{◌≡◌, not, ◌||◌, ◌≤◌, length};
ghost use Rattle.definition.specs.Emit.{same_bounds};
ghost use Rattle.space.specs.Store.{floats_of, HoldsF};
ghost use Rattle.emit.specs.Filling.{over};

use space::{Context, Ehi, Elo};

// = lower and upper of Reduced, at the front of the two slices that C lends. A `for` over the variables: space alone knows
// where a bound stands in floats, so there is no slice of it to go over beside them.
pub fn write_bounds(floats: &[f64], cx: Context, lower: &mut [f64], upper: &mut [f64])
    requires { HoldsF cx floats.now × (cx.vars ≤ length lower.old) × (cx.vars ≤ length upper.old) }
    ensures lower_after { lower.new ≡ over (floats_of cx floats.now).elo lower.old }
    ensures upper_after { upper.new ≡ over (floats_of cx floats.now).ehi upper.old }
{
    for v in 0..cx.vars {
        lower[v] = space::get::<Elo>(floats, cx, v);
        upper[v] = space::get::<Ehi>(floats, cx, v);
    }
}

// = whether a bound is another number now than in the model. Two lists and no `Input`: it asks of these two alone.
pub fn bounds_changed(lower: &[f64], upper: &[f64], floats: &[f64], cx: Context) -> bool
    requires { HoldsF cx floats.now × (length lower.now ≡ cx.vars) × (length upper.now ≡ cx.vars) }
    ensures { result ≡ (not (same_bounds (floats_of cx floats.now).elo lower.now) || not (same_bounds (floats_of cx floats.now).ehi upper.now)) }
{
    (0..cx.vars).any(|v| {
        space::get::<Elo>(floats, cx, v) != lower[v] || space::get::<Ehi>(floats, cx, v) != upper[v]
    })
}
