// `primal_wave` of src/presolve/work.rs of microlp 0.7.0, changed: the rows queued so far, one after
// the other, and the waves of a round.
// A row is queued where something that it reads has changed, so a wave costs what changed. The cap on
// waves is a safety net: every reduction may be left out, so what is queued when it is reached is
// abandoned.
// A row of two terms or more: no point is left where the best corner of the working box misses the row by
// more than its budget. A row is dropped as redundant only by the emitted bounds, which the reduced model
// has, and never by a working bound that the row itself may have implied; the working activity lies within
// the emitted one and so tells first whether to look.
#![tactic(auto)]

mod again;
mod count;
mod one_row;
mod primal;
mod queue;
mod several;

pub use again::waves;
pub use count::by_count;
