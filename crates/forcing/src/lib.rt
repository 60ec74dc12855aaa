// `forcing_fixings` of src/presolve/work.rs of microlp 0.7.0, changed: whether a row forces its
// variables to a corner, and fixing them there.
// Where the corner over the emitted bounds only just meets the row's bound, every point has each
// variable at that end of its range. To fix it there is exact for an integer variable with no other
// whole number in the room that the row leaves it; so all terms are tested first, and all are fixed or
// none.
#![tactic(auto)]

mod corners;
mod fixing;

pub use corners::forces;
pub use fixing::fix_all;
