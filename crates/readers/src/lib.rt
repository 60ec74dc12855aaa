// src/presolve/work.rs of microlp 0.7.0, changed: what is read off the state.
// Each function's result is the definition's, of whatever state the working slices show.
#![tactic(auto)]

mod boxes;
mod coeffs;
mod empty;
mod rows;
mod vars;

pub use boxes::{Bounds, Emitted, Working};
pub use coeffs::{place, row_coeff, written_coeff};
pub use empty::{empty_row_violated, is_trivial, verdict};
pub use rows::{activity, limits, written_limits, written_terms};
pub use vars::{bound_tol, emitted, is_int, is_int_domain};
