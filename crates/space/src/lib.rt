// The working space of presolve: two lent slices, one of floats and one of numbers, cut into blocks,
// one for each field of `Work`, `Row` and `Binding` of src/presolve/work.rs and model.rs of microlp
// 0.7.0, changed: flat lists for vectors.
// docs/WORKSPACE.md has the layout. Every function here reads or writes one number.
#![tactic(auto)]

mod field;
mod floats;
mod numbers;

pub use field::{Field, count, get, put};
pub use floats::{
    Bound, Coeffs, Ehi, Elo, FoldScale, Hi, Kept, Lo, Rewritten, Shift, Whi, Wlo, Written,
};
pub use numbers::{
    Alive, BadDec, BadInc, Binaries, Binary, CoeffDirty, Dirty, Dropped, Fate, Fixed, Folded, Len,
    Passes, Queue, Queued, Rewrote, Slot, Tightened, Touched, Vars, Wave,
};

// What every function has of the call: how many variables, rows and terms, whether the mode is a
// Mip, which is all that a step asks of it, and the feasibility tolerance.
// The two slices and the context stay three parameters: a struct that lent both would have to promise in
// each contract that the slices and the context are the same after the call, as `output` does with
// SameSlices, and a function that changes one of them alone could not say so in its type. So that the slices
// are long enough (HoldsF, HoldsN) is a clause of each function too: as a struct's invariant it would be that other
// clause. That a row is alive is a fact of the state and not of the row's number, and that a number is below
// cx.rows or cx.vars is one of the number and the context: neither has a type of its own. So are all the facts that
// many functions ask for facts of several parameters at once, as that the slices show a state of the definition
// (`Ready`, `Standing`), each a predicate with a name, or that a number is below a length or a length is another: a
// comparison says that as shortly as a name would. Each is a clause.
#[derive(Clone, Copy)]
pub struct Context {
    pub vars: usize,
    pub rows: usize,
    pub terms: usize,
    pub mip: bool,
    pub feas: f64,
}
