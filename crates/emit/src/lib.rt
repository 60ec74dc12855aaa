// src/presolve/mod.rs of microlp 0.7.0, changed: the end of `presolve`, list by list.
// What is left once `reduce` has folded every row a last time is written to the result slices, by the
// fates that `output` judges. A row that is not rewritten goes out as written, fixed terms included,
// since folded it would have a smaller magnitude and so a tighter tolerance than it is granted; a
// rewritten one gets its folded terms back for the same reason. The slices are the caller's, who may be
// in C, so each writer answers how many places it filled.
// What the writers of spans and terms ask of the rows and of the working numbers together (`Spanned`,
// `Indexed`) is a clause of each: neither is part of the other (see space's `Context`).
#![tactic(auto)]

mod bounds;
mod collecting;
mod entries;
mod fates;
mod kept;
mod slots;
mod spans;
mod terms;

pub use bounds::{bounds_changed, write_bounds};
pub use entries::{write_emitted, write_rhs};
pub use fates::Fate;
pub use kept::write_kept;
pub use spans::write_spans;
pub use terms::write_terms;
