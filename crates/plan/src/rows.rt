// Rows that a plan misses.
ghost use Rattle.std.specs.Prelude.{◌≡◌, ◌<◌, ◌+◌, false, length};
ghost use Rattle.std.specs.Option.{option_or};
ghost use Rattle.tolerances.specs.Answers.{option_of};
ghost use Rattle.definition.specs.Of.{input_model};
ghost use Rattle.definition.specs.Refusal.{starts_wrong};
ghost use Rattle.plan.specs.Plan.{first, largest, larger_of, row_missed, excursion_at};
ghost use Rattle.plan.specs.Loops.{missed_by};

use crate::Verdict;
use definition::Input;
use tolerances::Row;

// The first row that is missed, and the largest excursion of any.
#[derive(Clone, Copy)]
pub(crate) struct Misses {
    pub first: Option<Verdict>,
    pub largest: f64,
}

impl Misses {
    // With one row more.
    #[tactic(auto, unfolding(crate::specs::Loops::missed_by))]
    fn with(self, row: usize, violation: Option<f64>) -> Misses
        ensures { result ≡ missed_by self row (option_of violation) }
    {
        match violation {
            Some(excursion) => Misses {
                first: self.first.or(Some(Verdict::Row(row))),
                largest: floats::larger(self.largest, excursion),
            },
            None => self,
        }
    }
}

// = excursion_at
fn violation(input: Input, plan: &[f64], r: usize) -> Option<f64>
    requires lengths { (length input.rows.starts.now ≡ length input.rows.rhs.now + 1) × (length input.rows.cmp.now ≡ length input.rows.rhs.now)
        × (length input.rows.coeff.now ≡ length input.rows.index.now) }
    requires starts { starts_wrong (input_model input) ≡ false }
    requires row { r < length input.rows.rhs.now }
    ensures { option_of result ≡ excursion_at (input_model input.entry) plan.now r }
{
    let rows = input.rows;
    let from = rows.starts[r];
    let upto = rows.starts[r + 1];
    Row {
        index: &rows.index[from..upto],
        coeff: &rows.coeff[from..upto],
        op: rows.cmp[r],
        rhs: rows.rhs[r],
    }
    .violation(plan, input.feas)
}

// The first row missed, and the largest excursion, in one walk.
pub(crate) fn missed(input: Input, plan: &[f64]) -> Misses
    requires lengths { (length input.rows.starts.now ≡ length input.rows.rhs.now + 1) × (length input.rows.cmp.now ≡ length input.rows.rhs.now)
        × (length input.rows.coeff.now ≡ length input.rows.index.now) }
    requires starts { starts_wrong (input_model input) ≡ false }
    ensures first { result.first ≡ first (row_missed (input_model input.entry) plan.now) (length input.entry.rows.rhs.now) }
    ensures largest { result.largest ≡ largest (excursion_at (input_model input.entry) plan.now) (length input.entry.rows.rhs.now) }
{
    let mut missed = Misses {
        first: None,
        largest: 0.0,
    };
    for r in 0..input.rows.rhs.len() {
        missed = missed.with(r, violation(input, plan, r));
    }
    missed
}
