// A model file's bytes to the lines that say whether a plan is good, where the plan stands in the place of the model's objective: no check
// reads an objective, and a file has room for one number a variable there. specs/Whole says what the lines are.
#![tactic(auto)]

ghost use Rattle.std.specs.Prelude.{◌≡◌, length, take};
ghost use Rattle.presolve_file.specs.Fitting.{Part, fitting};
ghost use Rattle.emit.specs.Filling.{over};
ghost use Rattle.plan_file.specs.Whole.{model_lines, plan_text};

use definition::Input;
use plan::check_plan;
use presolve_file::Report;

// What is said of the plan.
pub struct Plan;

impl Report for Plan {
    ghost told = { model_lines };

    fn print(model: Input<'_>, out: &mut [u8]) -> Option<usize> {
        match check_plan(model, model.obj) {
            Ok(check) => print_result::print_check(check, out),
            Err(refusal) => print_result::print_refusal(u8::from(refusal), out),
        }
    }
}

// Puts a file's lines at the start of text, and answers how many bytes that is: none where they do not
// fit. The rest of text stays as it was. The buffer is lent, since the libraries use no heap.
#[tactic(auto, unfolding(crate::specs::Whole::plan_text))]
pub fn plan_text(file: &[u8], text: &mut [u8]) -> usize
    ensures part { Part result text.new }
    ensures text_after { take result text.new ≡ fitting (length text.old) (plan_text file.now) }
    ensures text_after_2 { text.new ≡ over (fitting (length text.old) (plan_text file.now)) text.old }
{
    presolve_file::report_file::<Plan>(file, text)
}
