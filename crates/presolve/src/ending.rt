// The end of an accepted call: its answer, and zeros throughout in the working slices.
ghost use Rattle.std.specs.Prelude.{◌≡◌};
ghost use Rattle.std.proofs.Math.Option.{none};
ghost use Rattle.space.specs.Store.{floats_of, numbers_of, HoldsF, HoldsN};
ghost use Rattle.view.specs.Acts.{Ready};
ghost use Rattle.output.specs.Results.{held, SameSlices, ResultsRoom};
ghost use Rattle.output.specs.Summary.{counts_of};
ghost use Rattle.output.specs.Answered.{BoundsAndRows};
ghost use Rattle.presolve.specs.Promise.{working_of, SameSpace, infeasible, presolved_is, working_after};
ghost use Rattle.presolve.specs.Steps.{Finished};

use crate::{Presolved, Space, zeros};
use definition::Input;
use output::Results;
use space::Context;

// Zeros over the whole lent lengths.
fn clear(space: &mut Space)
    ensures same { SameSpace space.old space.new }
    ensures zeros { working_of space.new ≡ working_after none (working_of space.old) }
{
    zeros::clear(space.floats, space.numbers, space.adjacency);
}

// Infeasible, with the counts reached.
pub(crate) fn stopped(space: &mut Space, cx: Context) -> Presolved
    requires { HoldsN cx space.old.numbers.now }
    ensures result_value { presolved_is result ≡ infeasible (counts_of (numbers_of cx space.old.numbers.now)) }
    ensures same { SameSpace space.old space.new }
    ensures zeros { working_of space.new ≡ working_after none (working_of space.old) }
{
    let counts = output::read_counts(space.numbers, cx);
    clear(space);
    Presolved::Infeasible(counts)
}

// A model, which is written to the result slices.
pub(crate) fn finished(
    input: Input,
    cx: Context,
    results: &mut Results,
    space: &mut Space,
) -> Presolved
    requires holds_f { HoldsF cx space.old.floats.now × HoldsN cx space.old.numbers.now }
    requires room { ResultsRoom cx (held results.old) }
    requires ready { Ready (BoundsAndRows input) cx (floats_of cx space.old.floats.now) (numbers_of cx space.old.numbers.now) }
    ensures same_results { SameSlices results.old results.new }
    ensures same_space { SameSpace space.old space.new }
    ensures finished { Finished (BoundsAndRows input.entry) cx (floats_of cx space.old.floats.now) (numbers_of cx space.old.numbers.now)
        result (held results.old) (held results.new) }
    ensures zeros { working_of space.new ≡ working_after none (working_of space.old) }
{
    let reduced = output::write_results(input, space.floats, space.numbers, cx, results);
    clear(space);
    Presolved::Model(reduced)
}
