// A call, by the table of refusals first.
ghost use Rattle.std.specs.Prelude.{◌≡◌, ℕ};
ghost use Rattle.definition.specs.Of.{input_model};
ghost use Rattle.refuse.specs.Of.{lent_of};
ghost use Rattle.output.specs.Results.{held, SameSlices};
ghost use Rattle.presolve.specs.Promise.{working_of, SameSpace, lengths, answer_as, Promise};
ghost use Rattle.presolve.specs.Second.{second_as, second};

use crate::accepted::accepted;
use crate::{Presolved, Space};
use definition::Input;
use output::{Reduced, Results};
use refuse::{Lent, Refusal};

// The lengths of all lent slices.
pub fn lent_lengths(results: &Results, space: &Space) -> Lent
    ensures { lent_of result ≡ lengths (held results.now) (working_of space.now) }
{
    Lent {
        lower: results.lower.len(),
        upper: results.upper.len(),
        emit_row: results.emit_row.len(),
        emit_rewritten: results.emit_rewritten.len(),
        emit_rhs: results.emit_rhs.len(),
        emit_from: results.emit_from.len(),
        emit_upto: results.emit_upto.len(),
        kept: results.kept.len(),
        term_index: results.term_index.len(),
        term_coeff: results.term_coeff.len(),
        floats: space.floats.len(),
        numbers: space.numbers.len(),
        adjacency: space.adjacency.len(),
    }
}

// presolve: the table of refusals first, then the definition's answer. Whatever the numbers are, and
// whatever the lent slices hold.
pub fn presolve(
    input: Input,
    results: &mut Results,
    space: &mut Space,
) -> Result<Presolved, Refusal>
    ensures same_results { SameSlices results.old results.new }
    ensures same_space { SameSpace space.old space.new }
    ensures promise { Promise (input_model input.entry) (held results.old) (working_of space.old) result (held results.new) (working_of space.new) }
{
    refuse::refused(input, lent_lengths(results, space))?;
    Ok(accepted(input, results, space))
}

// `reduced_model`: infeasible and unreduced answers are no reduced model. A refusal goes on, whatever
// stands for it.
pub fn reduced_model<E>(answer: Result<Presolved, E>) -> Result<Option<Reduced>, E>
    ensures by_number { (number : E → ℕ) → second_as number result ≡ second (answer_as number answer) }
{
    match answer? {
        Presolved::Infeasible(_) => Ok(None),
        Presolved::Model(x) => Ok(x.flag.then_some(x)),
    }
}
