// src/presolve/work.rs of microlp 0.7.0, changed: the smallest steps on the state: requeueing, dropping a row, and bounds.
// What an integer variable's rows imply is rounded and emitted, so that the reduced model has it; what
// they imply of any other stays a working bound, since the room that it would take from several such
// variables can add up to more than a row's tolerance. Bounds that cross by more than their tolerance
// leave no point. A variable whose bounds change queues its rows again.
// The state is what the working slices hold, and each contract says that they show the definition's
// next state (view, specs/Acts).
#![tactic(auto)]

mod bounds;
mod dropping;
mod marks;

pub use bounds::{emit_bounds, fix, stays, tighten};
pub use dropping::drop_row;
pub use marks::requeue;
