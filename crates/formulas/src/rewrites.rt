// `tighten_binary_coeffs` of src/presolve/work.rs of microlp 0.7.0, changed: what a rewrite does to one
// term: a vacuous branch of a binary is made bound-tight.
// A Ge row's functions and arms stand beside a Le row's: they add where those subtract. One function for both, by negation as `ceil`
// has it, would negate four numbers in and two out, and the definition has each arm spelled out.
// A form and a rewrite are Options, since the promises stand for a row with no such side and for no rewrite too.
ghost use Rattle.std.specs.Prelude.{◌≡◌};
ghost use Rattle.definition.specs.Rewrites as defs;
ghost use Rattle.formulas.specs.Bare.{bare, ByParams};
ghost use Rattle.formulas.specs.Rewriting.{maybe_form, maybe_rewrite, spared_at, binary_at, rewrite_at};

use crate::params::{COEFF_MIN_IMPROVE, COEFF_TIGHTEN_ROW_CAP, COEFF_TIGHTEN_SHORT_ROW};
use crate::{Form, Limits, OneSided, Rebound, Rewrite};
use definition::Activity;
use tolerances::ROUNDOFF_FLOOR;

impl Limits {
    // Which side the row's one finite bound is on: none where both are finite, or neither.
    #[tactic(auto, unfolding(floats::specs::Num::choose, definition::specs::Rewrites::form_of))]
    pub fn form(self) -> Option<Form>
        ensures { maybe_form result ≡ defs.form_of (bare self) }
    {
        match (floats::is_finite(self.hi), floats::is_finite(self.lo)) {
            (true, false) => Some(Form::Le),
            (false, true) => Some(Form::Ge),
            _ => None,
        }
    }

    // The relaxation of the vacuous branch.
    #[tactic(auto, unfolding(definition::specs::Rewrites::vacuous_room))]
    pub fn vacuous_room(self, f: Option<Form>, act: Activity) -> f64
        ensures { result ≡ defs.vacuous_room (maybe_form f) (bare self) act }
    {
        match f {
            Some(Form::Le) => {
                act.slack_u + ROUNDOFF_FLOOR * (act.absU + self.rhs_mag(self.hi) + self.fold_scale)
            }
            Some(Form::Ge) => {
                act.slack_l + ROUNDOFF_FLOOR * (act.absL + self.rhs_mag(self.lo) + self.fold_scale)
            }
            None => 0.0,
        }
    }
}

impl OneSided {
    #[tactic(auto, unfolding(floats::specs::Num::choose, definition::specs::Rewrites::vacuous_le))]
    fn vacuous_le(self, a: f64) -> Option<Rewrite>
        ensures { ByParams (maybe_rewrite result) (λ M. defs.vacuous_le M self.room (bare self.limits) self.act a) }
    {
        let rest = self.act.u - floats::larger(a, 0.0);
        if a > 0.0 {
            shrink_le(self.room, self.limits.hi, rest, a)
        } else {
            raise_le(self.room, self.limits.hi, rest, a)
        }
    }

    #[tactic(auto, unfolding(floats::specs::Num::choose, definition::specs::Rewrites::vacuous_ge))]
    fn vacuous_ge(self, a: f64) -> Option<Rewrite>
        ensures { ByParams (maybe_rewrite result) (λ M. defs.vacuous_ge M self.room (bare self.limits) self.act a) }
    {
        let rest = self.act.l - floats::smaller(a, 0.0);
        if a < 0.0 {
            shrink_ge(self.room, self.limits.lo, rest, a)
        } else {
            lower_ge(self.room, self.limits.lo, rest, a)
        }
    }

    #[tactic(auto, unfolding(floats::specs::Num::choose, definition::specs::Rewrites::vacuous))]
    fn vacuous(self, a: f64) -> Option<Rewrite>
        ensures { ByParams (maybe_rewrite result) (λ M. defs.vacuous M (maybe_form self.form) self.room (bare self.limits) self.act a) }
    {
        match self.form {
            Some(Form::Le) => {
                if self.act.ninf_u == 0 {
                    self.vacuous_le(a)
                } else {
                    None
                }
            }
            Some(Form::Ge) => {
                if self.act.ninf_l == 0 {
                    self.vacuous_ge(a)
                } else {
                    None
                }
            }
            None => None,
        }
    }

    // The rewrite of a term with the coefficient a whose variable is a strict binary, or is not.
    #[tactic(auto, unfolding(floats::specs::Num::choose, crate::specs::Rewriting::rewrite_at))]
    pub fn rewrite_of(self, is_binary: bool, a: f64) -> Option<Rewrite>
        ensures { ByParams (maybe_rewrite result) (λ M. rewrite_at M is_binary (maybe_form self.form) self.room (bare self.limits) self.act a) }
    {
        if !is_binary || a == 0.0 {
            None
        } else {
            self.vacuous(a)
        }
    }

    // The activity after the rewrite of the coefficient a, if that is rewritten.
    #[tactic(auto, unfolding(definition::specs::Rewrites::act_after))]
    pub fn act_after(self, a: f64, z: Option<Rewrite>) -> Activity
        ensures { result ≡ defs.act_after (maybe_form self.form) a (maybe_rewrite z) self.act }
    {
        let act = self.act;
        let Some(z) = z else {
            return act;
        };
        match (self.form, z.bound) {
            (Some(Form::Le), None) => Activity {
                l: act.l + (z.coeff - a),
                ..act
            },
            (Some(Form::Ge), None) => Activity {
                u: act.u - (a - z.coeff),
                ..act
            },
            (Some(Form::Le), Some(b)) => Activity {
                u: act.u - b.by,
                ..act
            },
            (Some(Form::Ge), Some(b)) => Activity {
                l: act.l + b.by,
                ..act
            },
            (None, _) => act,
        }
    }
}

// How many rewrites that is.
#[tactic(auto, unfolding(definition::specs::Rewrites::rewrites))]
pub fn rewrite_count(z: Option<Rewrite>) -> usize
    ensures { result ≡ defs.rewrites (maybe_rewrite z) }
{
    usize::from(z.is_some())
}

// A Le row, b its bound. At zero the branch is vacuous, and a and b shrink. The four arms take the formula's four numbers: a struct
// for them would be made and taken apart in one call.
#[tactic(auto, unfolding(floats::specs::Num::choose, definition::specs::Rewrites::shrink_le))]
fn shrink_le(nz: f64, b: f64, rest: f64, a: f64) -> Option<Rewrite>
    ensures { ByParams (maybe_rewrite result) (λ M. defs.shrink_le M nz b rest a) }
{
    let to = rest + nz;
    let by = b - to;
    let coeff = a - by;
    if by > COEFF_MIN_IMPROVE * a && coeff > 0.0 {
        let bound = Some(Rebound { to, by });
        Some(Rewrite { coeff, bound })
    } else {
        None
    }
}

// At one the branch is vacuous, and |a| shrinks.
#[tactic(auto, unfolding(floats::specs::Num::choose, definition::specs::Rewrites::raise_le))]
fn raise_le(nz: f64, b: f64, rest: f64, a: f64) -> Option<Rewrite>
    ensures { ByParams (maybe_rewrite result) (λ M. defs.raise_le M nz b rest a) }
{
    let coeff = b - (rest + nz);
    if coeff - a > COEFF_MIN_IMPROVE * -a && coeff < 0.0 {
        Some(Rewrite { coeff, bound: None })
    } else {
        None
    }
}

// A Ge row, b its bound. At zero the branch is vacuous, and b and a, which is negative, rise.
#[tactic(auto, unfolding(floats::specs::Num::choose, definition::specs::Rewrites::shrink_ge))]
fn shrink_ge(nz: f64, b: f64, rest: f64, a: f64) -> Option<Rewrite>
    ensures { ByParams (maybe_rewrite result) (λ M. defs.shrink_ge M nz b rest a) }
{
    let to = rest - nz;
    let by = to - b;
    let coeff = a + by;
    if by > COEFF_MIN_IMPROVE * -a && coeff < 0.0 {
        let bound = Some(Rebound { to, by });
        Some(Rewrite { coeff, bound })
    } else {
        None
    }
}

// A Ge row where at one the branch is vacuous: a falls.
#[tactic(auto, unfolding(floats::specs::Num::choose, definition::specs::Rewrites::lower_ge))]
fn lower_ge(nz: f64, b: f64, rest: f64, a: f64) -> Option<Rewrite>
    ensures { ByParams (maybe_rewrite result) (λ M. defs.lower_ge M nz b rest a) }
{
    let coeff = b - (rest - nz);
    if a - coeff > COEFF_MIN_IMPROVE * a && coeff > 0.0 {
        Some(Rewrite { coeff, bound: None })
    } else {
        None
    }
}

// Strictly binary in the emitted bounds, as numbers. Two numbers and no `Ends`: it reads no tolerance.
#[tactic(auto, unfolding(crate::specs::Rewriting::binary_at))]
pub fn binary(is_int_domain: bool, elo: f64, ehi: f64) -> bool
    ensures { result ≡ binary_at is_int_domain elo ehi }
{
    is_int_domain && elo == 0.0 && ehi == 1.0
}

// Whether a row of len live terms, n of them eligible, is left alone.
#[tactic(auto, unfolding(crate::specs::Rewriting::spared_at))]
pub fn spared(len: usize, n: usize) -> bool
    ensures { ByParams result (λ M. spared_at M len n) }
{
    n == 0 || len > COEFF_TIGHTEN_SHORT_ROW && n > COEFF_TIGHTEN_ROW_CAP
}
