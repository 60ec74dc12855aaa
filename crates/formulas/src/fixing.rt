// `is_int_domain`, `fixed` and the tests of `dual_fix` of src/presolve/model.rs and work.rs of microlp
// 0.7.0, changed: of one variable.
ghost use Rattle.std.specs.Prelude.{◌≡◌};
ghost use Rattle.formulas.specs.Fixing.{int_domain, mip, fixed_at, blocks_at, falls_at, rises_at};

// Whether a domain is an integer one: 0 Integer, 1 Real, 2 Boolean. A byte, as a caller in C lends it.
#[tactic(auto, unfolding(crate::specs::Fixing::int_domain))]
pub fn is_int_domain(d: u8) -> bool
    ensures { result ≡ int_domain d }
{
    d != 1
}

// Whether a mode is a Mip's: 0 Lp, 1 Mip, 2 Mip with dual fixing. A byte, as a caller in C hands it in.
#[tactic(auto, unfolding(crate::specs::Fixing::mip))]
pub fn is_mip(mode: u8) -> bool
    ensures { result ≡ mip mode }
{
    mode != 0
}

// Fixed by the emitted bounds. Two numbers and no `Ends`: it reads no tolerance.
#[tactic(auto, unfolding(crate::specs::Fixing::fixed_at))]
pub fn fixed_at(elo: f64, ehi: f64) -> bool
    ensures { result ≡ fixed_at elo ehi }
{
    elo == ehi && floats::is_finite(elo)
}

// Whether a term keeps its variable from moving: pos where its coefficient is positive, else neg: a choice between two of the
// definition's own values.
#[tactic(auto, unfolding(floats::specs::Num::choose, crate::specs::Fixing::blocks_at))]
pub fn blocks(a: f64, pos: bool, neg: bool) -> bool
    ensures { result ≡ blocks_at a pos neg }
{
    if a > 0.0 { pos } else { neg }
}

// Whether a variable may go to its lower bound, and to its upper: by its objective coefficient, and
// whether some row keeps it from moving there. The two differ in a comparison: a parameter for it would be longer than either.
#[tactic(auto, unfolding(crate::specs::Fixing::falls_at))]
pub fn may_fall(obj: f64, blocked: bool, wlo: f64) -> bool
    ensures { result ≡ falls_at obj blocked wlo }
{
    obj >= 0.0 && !blocked && floats::is_finite(wlo)
}

#[tactic(auto, unfolding(crate::specs::Fixing::rises_at))]
pub fn may_rise(obj: f64, blocked: bool, whi: f64) -> bool
    ensures { result ≡ rises_at obj blocked whi }
{
    obj <= 0.0 && !blocked && floats::is_finite(whi)
}
