// src/presolve/mod.rs of microlp 0.7.0, changed: `presolve` but for what is written: the start, the
// rounds, and the last look at the rows.
#![tactic(auto)]

ghost use Rattle.std.specs.Prelude.{◌+◌, ◌≤◌, length};
ghost use Rattle.space.specs.Store.{floats_of, numbers_of, HoldsF, HoldsN};
ghost use Rattle.folds.specs.Written.{Described};
ghost use Rattle.reduce.specs.Reducing.{Called, Reduces, Adjoins};

mod settle;

use definition::{Infeasible, Input};
pub use settle::settle_rows;
use space::Context;
use view::Lists;

// = presolve: infeasible, with the counts in numbers, or the slices show the state that its answer is read off, and adjacency holds each
// variable's rows. Of an infeasible call nothing else is said of the three slices, which the caller clears.
pub fn reduce(
    input: Input,
    adjacency: &mut [usize],
    floats: &mut [f64],
    numbers: &mut [usize],
    cx: Context,
) -> Result<(), Infeasible>
    requires holds_f { HoldsF cx floats.old × HoldsN cx numbers.old × (cx.vars + 1 + cx.terms ≤ length adjacency.old) }
    requires given { Described (Called input) cx }
    ensures reduces { Reduces (Called input.entry) cx (floats_of cx floats.new) (numbers_of cx numbers.new) result }
    ensures adjoins { Adjoins (Called input.entry) cx adjacency.new result }
{
    begin::begin(input, adjacency, floats, numbers, cx)?;
    let lists = Lists {
        rows: input.rows,
        domain: input.domain,
        adjacency,
    };
    rounds::rounds(input.obj, lists, floats, numbers, cx, input.mode)?;
    settle::settle_rows(input.rows, floats, numbers, cx)
}
