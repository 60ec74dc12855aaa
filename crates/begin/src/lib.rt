// src/presolve/mod.rs of microlp 0.7.0, changed: the start of `presolve`.
// Bounds that cross leave no point. In Mip, integer bounds are rounded first, so that what is fixed
// later is whole. A row that its own data decide, with no term or with an infinite right side, is
// judged as it stands. The state is set up from whatever the working slices hold.
#![tactic(auto)]

mod adjacency;
mod crossing;
mod reading;
mod rounding;
mod start;

pub use start::begin;
