// src/presolve/mod.rs of microlp 0.7.0, changed: the fixpoint of `presolve`.
// Waves, then in Mip the coefficient and the dual step, which queue the rows that they touch, for at
// most so many rounds. Every reduction may be left out, so work that is left at a cap is abandoned
// without harm.
#![tactic(auto)]

mod after;
mod fixpoint;

pub use fixpoint::rounds;
