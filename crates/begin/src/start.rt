// src/presolve/mod.rs of microlp 0.7.0, changed: the start of presolve as one step.
ghost use Rattle.std.specs.Prelude.{◌+◌, ◌≤◌, length};
ghost use Rattle.space.specs.Store.{floats_of, numbers_of, HoldsF, HoldsN};
ghost use Rattle.folds.specs.Written.{Described};
ghost use Rattle.begin.specs.Start.{Handed, Begins};

use crate::adjacency::fill_adjacency;
use crate::crossing::crossed;
use crate::reading::{clear, read_rows};
use crate::rounding::round_vars;
use definition::{Infeasible, Input};
use space::Context;

// = presolve before its rounds: it ends there, or the slices show the state that the rounds start from
pub fn begin(
    input: Input,
    adjacency: &mut [usize],
    floats: &mut [f64],
    numbers: &mut [usize],
    cx: Context,
) -> Result<(), Infeasible>
    requires holds_f { HoldsF cx floats.old × HoldsN cx numbers.old × (cx.vars + 1 + cx.terms ≤ length adjacency.old) }
    requires given { Described (Handed input) cx }
    ensures { Begins (Handed input.entry) cx (floats_of cx floats.new) (numbers_of cx numbers.new) adjacency.new result }
{
    clear(numbers, cx);
    if crossed(input.lower, input.upper) {
        return Err(Infeasible);
    }
    round_vars(input, floats, cx)?;
    fill_adjacency(input.rows, adjacency, cx);
    read_rows(input.rows, floats, numbers, cx)
}
