// Which calls are refused: the model's table, and the two rows of it that ask of the plan too.
ghost use Rattle.std.specs.Prelude.{◌≡◌, not};
ghost use Rattle.std.specs.List.{list_any};
ghost use Rattle.floats.specs.Num.{is_finite};
ghost use Rattle.definition.specs.Of.{input_model};
ghost use Rattle.refuse.specs.Of.{refused_is};
ghost use Rattle.plan.specs.Refusal.{plan_refusal};
ghost use Rattle.plan.specs.Table.{numbers_asked, but_space};

use definition::Input;
use refuse::{Lent, Refusal};

// A check lends nothing. The table's last row, about lent slices, then says of a model that no row before it applies.
const NOTHING: Lent = Lent {
    lower: 0,
    upper: 0,
    emit_row: 0,
    emit_rewritten: 0,
    emit_rhs: 0,
    emit_from: 0,
    emit_upto: 0,
    kept: 0,
    term_index: 0,
    term_coeff: 0,
    floats: 0,
    numbers: 0,
    adjacency: 0,
};

fn not_finite(values: &[f64]) -> bool
    ensures { result ≡ list_any (λ x. not (is_finite x)) values.now }
{
    values.iter().any(|x| !floats::is_finite(*x))
}

// Whether no row of the table up to the model's numbers applies.
#[tactic(auto, unfolding(crate::specs::Table::numbers_asked))]
fn numbers_asked(model: Result<(), Refusal>) -> bool
    ensures { result ≡ numbers_asked (refused_is model) }
{
    match model {
        Ok(()) => true,
        Err(Refusal::RhsesWrong | Refusal::TolerancesWrong | Refusal::TooShort) => true,
        Err(_) => false,
    }
}

// What the table says without its row about lent slices.
#[tactic(auto, unfolding(crate::specs::Table::but_space, floats::specs::Num::choose))]
fn but_space(model: Result<(), Refusal>) -> Result<(), Refusal>
    ensures { refused_is result ≡ but_space (refused_is model) }
{
    match model {
        Err(Refusal::TooShort) => Ok(()),
        _ => model,
    }
}

// = plan_refusal. The lengths come first of all; a value that is not finite stands where the model's numbers do, so before its right
// sides and tolerances.
pub(crate) fn refused(input: Input, plan: &[f64]) -> Result<(), Refusal>
    ensures { refused_is result ≡ plan_refusal (input_model input.entry) plan.now }
{
    if plan.len() != input.obj.len() {
        return Err(Refusal::LengthsDisagree);
    }
    let model = refuse::refused(input, NOTHING);
    if numbers_asked(model) & not_finite(plan) {
        return Err(Refusal::NumbersWrong);
    }
    but_space(model)
}
