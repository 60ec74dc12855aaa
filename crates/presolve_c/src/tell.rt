// The answer as a code and numbers, as C is handed it: 0 a model, 100 infeasible, 1 to 99 a refusal. The code is C's byte.
ghost use Rattle.std.specs.Prelude.{◌≡◌, ◌≤◌, length};
ghost use Rattle.std.proofs.Math.Option.{some};
ghost use Rattle.definition.specs.Refusal.{refusal};
ghost use Rattle.definition.specs.Of.{input_model};
ghost use Rattle.refuse.specs.Of.{lent_of};
ghost use Rattle.emit.specs.Filling.{over};
ghost use Rattle.presolve.specs.Promise.{answer_is};
ghost use Rattle.presolve_c.specs.Face.{or_else, flag_number, five_of, nine_of, Told};

use definition::{Counts, Input};
use output::Reduced;
use presolve::Presolved;
use refuse::{Lent, Refusal};

// How many numbers a model has. `answer` is C's slice, of any length from this one on, so each of the three functions
// below asks for that.
pub const ANSWER: usize = 9;

// The five counts.
fn put_counts(k: Counts, answer: &mut [usize])
    requires { 9 ≤ length answer.old }
    ensures { answer.new ≡ over (five_of k) answer.old }
{
    answer[0] = k.rowsDropped;
    answer[1] = k.boundsTightened;
    answer[2] = k.varsFixed;
    answer[3] = k.coeffsTightened;
    answer[4] = k.passes;
}

// A model's nine numbers.
fn put_model(x: Reduced, answer: &mut [usize])
    requires { 9 ≤ length answer.old }
    ensures { answer.new ≡ over (nine_of x.counts x.emitted x.terms x.kept (flag_number x.flag)) answer.old }
{
    put_counts(x.counts, answer);
    answer[5] = x.emitted;
    answer[6] = x.terms;
    answer[7] = x.kept;
    answer[8] = usize::from(x.flag);
}

// The code, and the numbers at the front of `answer`.
pub(crate) fn tell(a: Result<Presolved, Refusal>, answer: &mut [usize]) -> u8
    requires { 9 ≤ length answer.old }
    ensures { Told (answer_is a) answer.old result answer.new }
{
    match a {
        Err(refusal) => u8::from(refusal),
        Ok(Presolved::Infeasible(k)) => {
            put_counts(k, answer);
            100
        }
        Ok(Presolved::Model(x)) => {
            put_model(x, answer);
            0
        }
    }
}

// The code where `answer` is too short for a model: an earlier refusal comes first.
pub(crate) fn short_answer(input: Input, lent: Lent) -> u8
    ensures { or_else (refusal (input_model input.entry) (lent_of lent)) (some 10) ≡ some result }
{
    match refuse::refused(input, lent) {
        Err(earlier) => u8::from(earlier),
        Ok(()) => u8::from(Refusal::TooShort),
    }
}
