// `empty_row_check` and `singleton_row` of src/presolve/work.rs of microlp 0.7.0, changed: rows of no
// term, and of one.
// A row of no term is judged as written at its fixed values, against its whole tolerance, since nothing
// can move it any more. A row of one term is a bound: an integer variable gets it, rounded so that
// every whole number is kept that meets the row within its budget, and the row leaves where the
// variable's bounds imply it.
#![tactic(auto)]

mod empty;
mod singleton;

pub use empty::empty_row_check;
pub use singleton::singleton_row;
