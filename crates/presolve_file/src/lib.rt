// A model file's bytes to the text that is printed for it: the reader, presolve and the printer.
// specs/Whole says what that text is.
#![tactic(auto)]

mod answer;
mod front;
mod report;

ghost use Rattle.std.specs.Prelude.{◌≡◌, length, take};
ghost use Rattle.presolve_file.specs.Whole.{file_text};
ghost use Rattle.emit.specs.Filling.{over};
ghost use Rattle.presolve_file.specs.Fitting.{Part, fitting};

pub use answer::Presolve;
pub use report::{Report, answer_input, report_file, write_report};

// As much of a file as a program has to read: no file that is accepted is as long, and what stands
// after these bytes changes no answer (`first_bytes_text`).
pub const FILE_BYTES: usize = 9750;

// More than any text has: with 128 bounds, 128 rewritten rows, 512 terms, 128 kept rows, numbers of three
// digits and counts of twenty it comes to 25,015.
pub const TEXT_BYTES: usize = 32768;

// Puts what is printed for a file at the start of text, and answers how many bytes that is: none where
// it does not fit. The rest of text stays as it was. TEXT_BYTES are enough for every file
// (specs/TextFits, `text_fits`). The buffer is lent, since the libraries use no heap.
#[tactic(auto, unfolding(crate::specs::Whole::file_text, crate::specs::Whole::decoded_text))]
pub fn file_text(file: &[u8], text: &mut [u8]) -> usize
    ensures part { Part result text.new }
    ensures text_after { take result text.new ≡ fitting (length text.old) (file_text file.now) }
    ensures text_after_2 { text.new ≡ over (fitting (length text.old) (file_text file.now)) text.old }
{
    report_file::<Presolve>(file, text)
}
