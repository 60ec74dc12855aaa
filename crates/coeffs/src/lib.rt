// `tighten_binary_coeffs` and `rewritten_bound` of src/presolve/work.rs of microlp 0.7.0, changed:
// which terms are eligible for a rewrite, and the bound that a rewritten row is emitted with.
// That bound is computed anew from the one as written, less what the rewrites cut from the
// coefficients, in compensated arithmetic, and rounded outward: the working side is off by the
// round-off of folds and rewrites, and the emitted row must be no tighter than the row as written where
// its rewritten binaries are at one.
#![tactic(auto)]

mod bindings;
mod tighten;

pub use bindings::{rewritten_bound, sum_coeffs};
pub use tighten::{eligible, rewrite_term};
