// src/presolve/mod.rs of microlp 0.7.0, changed: `presolve` as one call over lent slices, and
// `reduced_model` above it.
// The refusals, the lent slices and the zeros that they are left with are the port's own.
#![tactic(auto)]

mod accepted;
mod call;
mod ending;
mod zeros;

pub use call::{lent_lengths, presolve, reduced_model};
use definition::Counts;
use output::Reduced;
pub use zeros::clear;

// The lent working slices. `SameSpace` is to them what `SameSlices` is to output's `Results`.
#[derive(Drop)]
pub struct Space<'a> {
    pub floats: &'a mut [f64],
    pub numbers: &'a mut [usize],
    pub adjacency: &'a mut [usize],
}

// What an accepted call answers: infeasible, with the counts reached; or a model, which stands in the
// result slices. No Result: an infeasible call has an answer too, its counts.
#[derive(Clone, Copy)]
pub enum Presolved {
    Infeasible(Counts),
    Model(Reduced),
}
