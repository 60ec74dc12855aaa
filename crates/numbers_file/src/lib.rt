// A model file's bytes to the line that says whether its model is 01's farm model, for which the
// promise about points is made, and its objective whole, which the one about the least objective asks
// besides. specs/Whole says what that line is.
#![tactic(auto)]

ghost use Rattle.std.specs.Prelude.{◌≡◌, length, take};
ghost use Rattle.presolve_file.specs.Fitting.{Part, fitting};
ghost use Rattle.emit.specs.Filling.{over};
ghost use Rattle.numbers_file.specs.Whole.{model_line, numbers_text};

use definition::Input;
use presolve_file::Report;
use print_result::Off;

// What the test says of a model.
pub struct Numbers;

impl Report for Numbers {
    ghost told = { model_line };

    fn print(model: Input<'_>, out: &mut [u8]) -> Option<usize> {
        match whole_numbers::whole_numbers(model) {
            Ok(()) => print_result::print_numbers(None, out),
            Err(fault) => print_result::print_numbers(
                Some(Off {
                    number: usize::from(u8::from(fault.condition)),
                    place: fault.place,
                }),
                out,
            ),
        }
    }
}

// Puts a file's line at the start of text, and answers how many bytes that is: none where it does not
// fit. The rest of text stays as it was. The buffer is lent, since the libraries use no heap.
#[tactic(auto, unfolding(crate::specs::Whole::numbers_text, crate::specs::Whole::decoded_numbers))]
pub fn numbers_text(file: &[u8], text: &mut [u8]) -> usize
    ensures part { Part result text.new }
    ensures text_after { take result text.new ≡ fitting (length text.old) (numbers_text file.now) }
    ensures text_after_2 { text.new ≡ over (fitting (length text.old) (numbers_text file.now)) text.old }
{
    presolve_file::report_file::<Numbers>(file, text)
}
