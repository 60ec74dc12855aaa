// What is printed for a file by a text for its model.
ghost use Rattle.std.specs.Prelude.{◌≡◌, List, ℕ, length, take, OnOk};
ghost use Rattle.std.specs.Io.KnownBytes.{Appends};
ghost use Rattle.definition.specs.Model.{Model};
ghost use Rattle.definition.specs.Of.{input_model};
ghost use Rattle.model_file.specs.Format.{decode};
ghost use Rattle.print_result.specs.Printing.{printed, outcome};
ghost use Rattle.presolve_file.specs.Whole.{told};
ghost use Rattle.emit.specs.Filling.{over};
ghost use Rattle.presolve_file.specs.Fitting.{Part, fitting};

use crate::front::front;
use crate::{FILE_BYTES, TEXT_BYTES};
use definition::Input;
use model_file::ModelSlices;
use std::io;
use std::io::{Read, Write};

// What a program prints for a model.
pub trait Report {
    ghost told: { Model → List ℕ };

    // Puts the text for a model into out.
    fn print(model: Input<'_>, out: &mut [u8]) -> Option<usize>
    where
        Self: Sized,
        ensures { outcome result out.new ≡ printed (told (input_model model.entry)) out.old };
}

// Puts what is printed for a file into out: its model stands in arrays that every file fits in.
fn print_file<R: Report>(file: &[u8], out: &mut [u8]) -> Option<usize>
    ensures { outcome result out.new ≡ printed (told R.told (decode file.now)) out.old }
{
    let mut model = ModelSlices {
        objective: &mut [0.0; 128],
        lower: &mut [0.0; 128],
        upper: &mut [0.0; 128],
        domain: &mut [0; 128],
        starts: &mut [0; 129],
        index: &mut [0; 512],
        coeff: &mut [0.0; 512],
        cmp: &mut [0; 128],
        rhs: &mut [0.0; 128],
    };
    match model_file::read_model(file, &mut model) {
        Ok(header) => R::print(front(header, &model), out),
        Err(refusal) => print_result::print_refusal(u8::from(refusal), out),
    }
}

// Puts what is printed for a file at the start of out, and answers how many bytes that is: none where
// it does not fit. The rest of out stays as it was. The buffer is lent, since the libraries use no heap. A number and no
// Option: what is promised is of the first `result` bytes, whatever it is, and a caller prints them.
pub fn report_file<R: Report>(file: &[u8], out: &mut [u8]) -> usize
    ensures part { Part result out.new }
    ensures text_after { take result out.new ≡ fitting (length out.old) (told R.told (decode file.now)) }
    ensures text_after_2 { out.new ≡ over (fitting (length out.old) (told R.told (decode file.now))) out.old }
{
    print_file::<R>(file, out).unwrap_or(0)
}

// Writes what is printed for a file. TEXT_BYTES hold it: for an answer of presolve that is
// `text_fits` of specs/TextFits.
pub fn write_report<R: Report, W: Write>(file: &[u8], to: &mut W) -> io::Result<()>
    ensures { OnOk result (Appends (W.contents to.old) (W.contents to.new) (fitting 32768 (told R.told (decode file.now)))) }
{
    let mut text = [0u8; TEXT_BYTES];
    let n = report_file::<R>(file, &mut text);
    to.write_all(&text[..n])
}

// Reads a file and writes what is printed for it: a whole program, but for its own words for an input
// that cannot be read. Of the bytes that were read, no reader's contract tells more than how many.
pub fn answer_input<R: Report, I: Read, W: Write>(
    from: &mut I,
    to: &mut W,
    unread: &str,
) -> io::Result<()>
    ensures { OnOk result ((file : List ℕ) × Appends (W.contents to.old) (W.contents to.new) (fitting 32768 (told R.told (decode file)))) }
{
    let mut file = [0u8; FILE_BYTES];
    let read = standard_input::read_input(from, &mut file);
    let n = read.map_err(|_| io::Error::other(unread))?;
    write_report::<R, W>(&file[..n], to)
}
