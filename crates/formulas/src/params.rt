// src/presolve/params.rs of microlp 0.7.0, changed: presolve's seven thresholds and caps.
// Where one is used, its function's proof takes it for the definition's.
ghost use Rattle.std.specs.Prelude.{◌≡◌};
ghost use Rattle.definition.specs.Params.{max_waves, params};

pub const IMPROVE_REL: f64 = 1e-9;

pub const REDUNDANT_MARGIN: f64 = 1e-9;

pub const COEFF_MIN_IMPROVE: f64 = 0.1;

pub const COEFF_TIGHTEN_ROW_CAP: usize = 2;

pub const COEFF_TIGHTEN_SHORT_ROW: usize = 16;

pub const MAX_PASSES: usize = 10;

pub const MAX_ROUNDS: usize = 3;

// The most waves of a call, shared by its rounds.
pub fn max_waves() -> usize
    ensures { result ≡ max_waves params }
{
    MAX_PASSES * MAX_ROUNDS
}

pub fn max_rounds() -> usize
    ensures { result ≡ params.max_rounds }
{
    MAX_ROUNDS
}
