// Whether a plan, one value for each variable, is good for a model: the first thing that it breaks, and the
// largest excursion over the rows. Added by the port. The contract is one equation with the definition of
// specs/Plan and specs/Refusal; nothing that is handed in is written.
#![tactic(auto)]

mod bounds;
mod refusal;
mod rows;
mod wholes;

ghost use Rattle.std.specs.Prelude.{◌≡◌, length};
ghost use Rattle.std.specs.Option.{option_or, unwrap_or};
ghost use Rattle.definition.specs.Of.{input_model};
ghost use Rattle.plan.specs.Of.{answer_is};
ghost use Rattle.plan.specs.declared.Verdict.TheVariants.{AllHold};
ghost use Rattle.plan.specs.Refusal.{plan_answer};

use definition::Input;
use refuse::Refusal;

// The first thing that a plan breaks, with its variable or row; or that it breaks nothing.
#[derive(Clone, Copy, PartialEq, Eq, Debug)]
pub enum Verdict {
    Lower(usize),
    Upper(usize),
    NotWhole(usize),
    Row(usize),
    AllHold,
}

// What is said of a plan: the excursion is the largest of any row, 0 where no row is missed.
#[derive(Clone, Copy)]
pub struct Check {
    pub verdict: Verdict,
    pub excursion: f64,
}

// What is said first: bounds, then whole numbers, then rows.
fn said_first(bound: Option<Verdict>, whole: Option<Verdict>, row: Option<Verdict>) -> Verdict
    ensures { result ≡ unwrap_or (option_or bound (option_or whole row)) AllHold }
{
    bound.or(whole).or(row).unwrap_or(Verdict::AllHold)
}

// = plan_answer
pub fn check_plan(input: Input, plan: &[f64]) -> Result<Check, Refusal>
    ensures { answer_is result ≡ plan_answer (input_model input.entry) plan.now }
{
    refusal::refused(input, plan)?;
    let rows = rows::missed(input, plan);
    Ok(Check {
        verdict: said_first(
            bounds::first_passed(input, plan),
            wholes::first_missed(input, plan),
            rows.first,
        ),
        excursion: rows.largest,
    })
}
