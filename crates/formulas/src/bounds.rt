// `emit_bounds`, `tighten_upper` and `tighten_lower` of src/presolve/work.rs of microlp 0.7.0, changed:
// whether an implied bound moves its variable's, which is an error where no point is left.
// The lower bound's functions stand beside the upper's: they round the other way, add where those subtract and compare the other way
// round. One function for both, by negation as `ceil` has it, would negate three or four numbers a call, and the definition has each
// spelled out.
ghost use Rattle.std.specs.Prelude.{◌≡◌, true};
ghost use Rattle.formulas.specs.Moves as moves;
ghost use Rattle.formulas.specs.Stays.{upper_still, lower_still, UpperStays, LowerStays};

use crate::params::IMPROVE_REL;
use definition::Infeasible;

// A bound that is tighter moves, unless it crosses the variable's other bound: beyond what that allows, no point is left.
#[tactic(auto, unfolding(floats::specs::Num::choose, crate::specs::Moves::moved))]
fn moved(tighter: bool, crossed: bool, beyond: bool) -> Result<bool, Infeasible>
    ensures { result ≡ moves.moved tighter crossed beyond }
{
    if !tighter {
        return Ok(false);
    }
    if !crossed {
        return Ok(true);
    }
    if beyond { Err(Infeasible) } else { Ok(false) }
}

// An integer variable's upper bound, rounded: qi.
#[tactic(auto, unfolding(crate::specs::Moves::upper_int_move))]
pub fn upper_int_move(qi: f64, ehi: f64, wlo: f64) -> Result<bool, Infeasible>
    ensures { result ≡ moves.upper_int_move qi ehi wlo }
{
    moved(qi < ehi - 0.5, qi < wlo - 0.5, true)
}

// Any other variable's upper bound, relaxed: nq. The tolerance is that of the lower emitted bound.
#[tactic(auto, unfolding(crate::specs::Moves::upper_real_move))]
pub fn upper_real_move(nq: f64, whi: f64, wlo: f64, tol: f64) -> Result<bool, Infeasible>
    ensures { result ≡ moves.upper_real_move nq whi wlo tol }
{
    let least = IMPROVE_REL * floats::larger(floats::absolute(nq), 1.0);
    moved(nq < whi - least, nq < wlo, wlo - nq > tol)
}

// An integer variable's lower bound, rounded: qi.
#[tactic(auto, unfolding(crate::specs::Moves::lower_int_move))]
pub fn lower_int_move(qi: f64, elo: f64, whi: f64) -> Result<bool, Infeasible>
    ensures { result ≡ moves.lower_int_move qi elo whi }
{
    moved(qi > elo + 0.5, qi > whi + 0.5, true)
}

#[tactic(auto, unfolding(crate::specs::Moves::lower_real_move))]
pub fn lower_real_move(nq: f64, wlo: f64, whi: f64, tol: f64) -> Result<bool, Infeasible>
    ensures { result ≡ moves.lower_real_move nq wlo whi tol }
{
    let least = IMPROVE_REL * floats::larger(floats::absolute(nq), 1.0);
    moved(nq > wlo + least, nq > whi, nq - whi > tol)
}

// Whether an implied bound q is at or outside the bound that it would move, as most are. Such a q leaves its variable as it is,
// whatever it is relaxed by, which need then not be computed.
#[tactic(auto, unfolding(floats::specs::Num::choose, crate::specs::Stays::upper_still))]
pub fn upper_stays(int: bool, q: f64, ehi: f64, whi: f64) -> bool
    ensures value { result ≡ upper_still int q ehi whi }
    ensures upper_stays { result ≡ true → UpperStays int q ehi whi }
{
    if int {
        floats::floor(q) >= ehi - 0.5
    } else {
        q >= whi
    }
}

#[tactic(auto, unfolding(floats::specs::Num::choose, crate::specs::Stays::lower_still))]
pub fn lower_stays(int: bool, q: f64, elo: f64, wlo: f64) -> bool
    ensures value { result ≡ lower_still int q elo wlo }
    ensures lower_stays { result ≡ true → LowerStays int q elo wlo }
{
    if int {
        floats::ceil(q) <= elo + 0.5
    } else {
        q <= wlo
    }
}

// `emit_bounds`: whether it tightens, and the working bounds that it leaves: the upper one with the larger and the smaller exchanged,
// one line each.
#[tactic(auto, unfolding(crate::specs::Moves::emits_tighter))]
pub fn emits_tighter(lo: f64, hi: f64, elo: f64, ehi: f64) -> bool
    ensures { result ≡ moves.emits_tighter lo hi elo ehi }
{
    lo > elo || hi < ehi
}

#[tactic(auto, unfolding(crate::specs::Moves::emitted_lower))]
pub fn emitted_lower(wlo: f64, lo: f64, hi: f64) -> f64
    ensures { result ≡ moves.emitted_lower wlo lo hi }
{
    floats::smaller(floats::larger(wlo, lo), hi)
}

#[tactic(auto, unfolding(crate::specs::Moves::emitted_upper))]
pub fn emitted_upper(whi: f64, lo: f64, hi: f64) -> f64
    ensures { result ≡ moves.emitted_upper whi lo hi }
{
    floats::larger(floats::smaller(whi, hi), lo)
}
