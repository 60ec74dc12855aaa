// src/presolve/mod.rs of microlp 0.7.0, changed: the start of `presolve`, integer bounds rounded.
ghost use Rattle.std.specs.Prelude.{◌≡◌};
ghost use Rattle.definition.specs.Begin as begin;

// Only a finite bound is rounded. A lower one less the tolerance is rounded up, an upper one with it down: one function for both, by
// negation as `ceil` has it, would be longer at each call, and the definition has both spelled out.
#[tactic(auto, unfolding(floats::specs::Num::choose, definition::specs::Begin::rounded_lower))]
pub fn rounded_lower(tol: f64, l: f64) -> f64
    ensures { result ≡ begin.rounded_lower tol l }
{
    if floats::is_finite(l) {
        floats::ceil(l - tol)
    } else {
        l
    }
}

#[tactic(auto, unfolding(floats::specs::Num::choose, definition::specs::Begin::rounded_upper))]
pub fn rounded_upper(tol: f64, h: f64) -> f64
    ensures { result ≡ begin.rounded_upper tol h }
{
    if floats::is_finite(h) {
        floats::floor(h + tol)
    } else {
        h
    }
}
