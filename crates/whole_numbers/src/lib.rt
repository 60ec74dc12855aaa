// Whether a model is 01's farm model, for which the promise about points is made, and its objective
// whole, which the promise about the least objective asks besides; where not, which condition fails
// first, and where. Added by the port. The contract is one equation with specs/Fault, and
// proofs/Exactly says what an answer means.
#![tactic(auto)]

mod conditions;

ghost use Rattle.std.specs.Prelude.{◌≡◌};
ghost use Rattle.definition.specs.Of.{input_model};
ghost use Rattle.whole_numbers.specs.Fault.{told};
ghost use Rattle.whole_numbers.specs.Of.{numbers_is, number, asked, Found};

use definition::Input;

// 01's conditions, in their order, by which they are numbered. The objective is no part of a farm model and is
// asked last, so of a model that is told to fail there 01's conditions hold.
#[derive(Clone, Copy)]
pub enum Condition {
    Domains = 1,
    Bounds = 2,
    Coefficients = 3,
    RightSides = 4,
    Lengths = 5,
    Tolerances = 6,
    Mode = 7,
    Objective = 8,
}

const CONDITIONS: [Condition; 8] = [
    Condition::Domains,
    Condition::Bounds,
    Condition::Coefficients,
    Condition::RightSides,
    Condition::Lengths,
    Condition::Tolerances,
    Condition::Mode,
    Condition::Objective,
];

impl From<Condition> for u8 {
    ghost use Rattle.whole_numbers.specs.Of.{number};

    ghost from_gives = { λ c n. n ≡ number c };

    fn from(condition: Condition) -> u8 {
        condition as u8
    }
}

// The condition that fails, and its first place: a variable, a term, a row; of the tolerances, 0 is
// feasibility and 1 int_tol.
#[derive(Clone, Copy)]
pub struct Fault {
    pub condition: Condition,
    pub place: usize,
}

// At how many places a condition is asked.
fn places(input: &Input<'_>, condition: Condition) -> usize
    ensures { result ≡ (asked (input_model input.now) condition).places }
{
    match condition {
        Condition::Domains | Condition::Bounds | Condition::Objective => input.lower.len(),
        Condition::Coefficients => input.rows.index.len(),
        Condition::RightSides | Condition::Lengths => input.rows.rhs.len(),
        Condition::Tolerances => 2,
        Condition::Mode => 1,
    }
}

// Whether a condition fails at a place.
fn fails(input: &Input<'_>, condition: Condition, place: usize) -> bool
    ensures { result ≡ (asked (input_model input.now) condition).fails place }
{
    match condition {
        Condition::Domains => conditions::domain_off(input.domain, place),
        Condition::Bounds => conditions::bounds_off(input.lower, input.upper, place),
        Condition::Coefficients => conditions::number_off(input.rows.coeff, 32768.0, place),
        Condition::RightSides => conditions::number_off(input.rows.rhs, 1099511627776.0, place),
        Condition::Lengths => conditions::row_long(input.rows.starts, place),
        Condition::Tolerances => conditions::tolerance_off(input.feas, input.int_tol, place),
        Condition::Mode => conditions::mode_off(input.mode),
        Condition::Objective => conditions::objective_off(input.obj, place),
    }
}

// The first place where a condition fails.
fn first_place(input: &Input<'_>, condition: Condition) -> Option<usize>
    ensures { Found (asked (input_model input.now) condition) result }
{
    (0..places(input, condition)).find(|place| fails(input, condition, *place))
}

// = told, of the model that is handed in. Its comparisons are not looked at.
pub fn whole_numbers(input: Input<'_>) -> Result<(), Fault>
    ensures { numbers_is result ≡ told (input_model input.entry) }
{
    for condition in CONDITIONS {
        if let Some(place) = first_place(&input, condition) {
            return Err(Fault { condition, place });
        }
    }
    Ok(())
}
