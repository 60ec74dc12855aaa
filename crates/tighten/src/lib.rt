// `tighten_binary_coeffs` of src/presolve/work.rs of microlp 0.7.0, changed.
// Where a binary at one of its values makes the row say nothing of the rest, its coefficient, and where
// need be the bound, are changed until the row only just says nothing; at the other value the row asks
// the same as before. The row gets tighter for values that are not whole, and whole points are kept
// (Savelsbergh). Long rows with many eligible terms are left alone: rewritten, a loose row of many
// binaries falls towards a mere count of them, with very many equal solutions.
// A rewrite makes the row's magnitude smaller where its rewritten binaries are at one, and so its
// tolerance: the new bound is relaxed by the difference, so that no point of that branch is lost.
// No test here asks how many terms a row has as written, so its limits are read with 0 for that.
#![tactic(auto)]

mod after;
mod bindings;
mod rewriting;
mod rows;

pub use after::row_after;
use definition::Activity;
pub use rows::tighten_binary_coeffs;

// What one term of a row leaves beside the working slices, which hold the row and the state: the row's activity, kept up to date, and
// whether the term was rewritten. No Option of an activity: there is one either way.
#[derive(Clone, Copy)]
pub struct Progress {
    pub act: Activity,
    pub changed: bool,
}

// A live term of a row: its place among them, its variable and its coefficient before the rewrite.
#[derive(Clone, Copy)]
pub struct LiveTerm {
    pub place: usize,
    pub var: usize,
    pub coeff: f64,
}
