// A call that the table passes.
ghost use Rattle.std.specs.Prelude.{Ok};
ghost use Rattle.definition.specs.Of.{input_model};
ghost use Rattle.output.specs.Results.{held, SameSlices};
ghost use Rattle.presolve.specs.Promise.{working_of, SameSpace, Promise};
ghost use Rattle.presolve.specs.Steps.{NotRefused};

use crate::ending::{finished, stopped};
use crate::{Presolved, Space};
use definition::{Infeasible, Input};
use output::Results;
use space::Context;

pub(crate) fn accepted(input: Input, results: &mut Results, space: &mut Space) -> Presolved
    requires { NotRefused (input_model input) (held results.old) (working_of space.old) }
    ensures same_results { SameSlices results.old results.new }
    ensures same_space { SameSpace space.old space.new }
    ensures promise { Promise (input_model input.entry) (held results.old) (working_of space.old) (Ok result) (held results.new) (working_of space.new) }
{
    let cx = Context {
        vars: input.obj.len(),
        rows: input.rows.rhs.len(),
        terms: input.rows.index.len(),
        mip: formulas::is_mip(input.mode),
        feas: input.feas,
    };
    match reduce::reduce(input, space.adjacency, space.floats, space.numbers, cx) {
        Err(Infeasible) => stopped(space, cx),
        Ok(()) => finished(input, cx, results, space),
    }
}
