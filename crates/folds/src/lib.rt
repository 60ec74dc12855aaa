// src/presolve/work.rs of microlp 0.7.0, changed: folding fixed variables out of a row, a rewritten
// row's relaxation, and the row as written.
// The reduced model holds a fixed variable at its value, so its term is a constant and goes over to the
// row's sides; its magnitude stays part of the row's tolerance. A rewritten row is relaxed further with
// each term that is fixed, and goes back as written where that leaves it no finite side: a rewrite only
// tightens the row for values that are not whole. The row stands in the working slices.
#![tactic(auto)]

mod besides;
mod folding;
mod holding;
mod relaxing;
mod scan;
mod written;

pub use besides::{fixed_besides, has_binary};
pub use holding::hold_rewrites;
pub use scan::fold_row;
pub use written::as_written;
