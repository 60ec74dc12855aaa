// `dual_fix` of src/presolve/work.rs of microlp 0.7.0, changed.
// Where no row keeps an integer variable from one of its finite bounds, and the objective gets no worse
// on the way, the variable is fixed there: a best point is kept, though not every point, so it runs in
// mode 2 alone. Towards an infinite bound nothing is fixed: the model may be unbounded.
#![tactic(auto)]

mod blocks;
mod fixing;

pub use fixing::dual_fix;
