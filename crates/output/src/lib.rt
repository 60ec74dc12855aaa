// src/presolve/mod.rs of microlp 0.7.0, changed: the end of `presolve`.
// The fate of each row is judged, and then the answer is written to the caller's result slices. A
// rewritten row is also kept as written, since a rewrite holds for whole points only; one whose bound
// overflows goes out as written, which keeps every point that the rewrites kept.
#![tactic(auto)]

mod judge;
mod lists;
mod summary;

pub use lists::write_results;
pub use summary::read_counts;

// The caller's result slices: the bounds of each variable; the emitted rows, each in five slices (its
// number, its mark, its right side and both ends of its span); the rows kept for validation; and the
// terms of the rewritten rows. Slice beside slice, as C lends them. That a function leaves the same slices
// there, and changes what they hold alone, is `SameSlices` in its contract: a type cannot say it of a `&mut`.
#[derive(Drop)]
pub struct Results<'a> {
    pub lower: &'a mut [f64],
    pub upper: &'a mut [f64],
    pub emit_row: &'a mut [usize],
    pub emit_rewritten: &'a mut [u8],
    pub emit_rhs: &'a mut [f64],
    pub emit_from: &'a mut [usize],
    pub emit_upto: &'a mut [usize],
    pub kept: &'a mut [usize],
    pub term_index: &'a mut [usize],
    pub term_coeff: &'a mut [f64],
}

// `Presolved`, but for the lists, which stand in the result slices: the counts, how many rows are
// emitted, how many terms the rewritten ones have, how many rows are kept for validation, and whether
// the result differs from the model. The flag stands beside the rest, and there is no Option: an unchanged
// model has counts and lists too.
#[derive(Clone, Copy)]
pub struct Reduced {
    pub counts: definition::Counts,
    pub emitted: usize,
    pub terms: usize,
    pub kept: usize,
    pub flag: bool,
}
