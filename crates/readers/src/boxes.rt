// The two boxes that a row's activity is over: the working bounds, and the emitted ones.
ghost use Rattle.std.specs.Prelude.{Bool, true, false, ◌<◌};
ghost use Rattle.tolerances.specs.Tol.{at};
ghost use Rattle.space.specs.Store.{floats_of, HoldsF};
ghost use Rattle.view.specs.Acts.{Any};
ghost use Rattle.readers.specs.Reading.{ReadsF};
ghost use Rattle.readers.specs.Activity.{los_of, his_of};

use space::{Context, Ehi, Elo, Whi, Wlo};

pub trait Bounds {
    // Whether the bounds are the working ones.
    ghost working: { Bool };

    fn lo(floats: &[f64], cx: Context, v: usize) -> f64
        requires { (v < cx.vars) × HoldsF cx floats.now }
        ensures { ReadsF Any cx (floats_of cx floats.now) result (λ M u. at (los_of working u) v) };

    fn hi(floats: &[f64], cx: Context, v: usize) -> f64
        requires { (v < cx.vars) × HoldsF cx floats.now }
        ensures { ReadsF Any cx (floats_of cx floats.now) result (λ M u. at (his_of working u) v) };
}

pub struct Working;

impl Bounds for Working {
    ghost working = { true };

    fn lo(floats: &[f64], cx: Context, v: usize) -> f64 {
        space::get::<Wlo>(floats, cx, v)
    }

    fn hi(floats: &[f64], cx: Context, v: usize) -> f64 {
        space::get::<Whi>(floats, cx, v)
    }
}

pub struct Emitted;

impl Bounds for Emitted {
    ghost working = { false };

    fn lo(floats: &[f64], cx: Context, v: usize) -> f64 {
        space::get::<Elo>(floats, cx, v)
    }

    fn hi(floats: &[f64], cx: Context, v: usize) -> f64 {
        space::get::<Ehi>(floats, cx, v)
    }
}
