// The reader of the model file: bytes to a model's slices in lent space. specs/Format says what a file's
// bytes mean, specs/Reading what is answered and written.
#![tactic(auto)]

mod fill;
mod parts;
mod reader;
mod scan;
mod slices;

ghost use Rattle.std.specs.Prelude.{◌≡◌};
ghost use Rattle.model_file.specs.Reading.{SameSlices, number_of, file_read, lent, out, read_into};

// What a file says beside its lists, with their sizes. No `Settings` within: callers read its numbers alike,
// and need not know that the count of terms stands at the rows.
#[derive(Clone, Copy)]
pub struct Header {
    pub vars: usize,
    pub rows: usize,
    pub terms: usize,
    pub feasibility: f64,
    pub int_tol: f64,
    pub mode: u8,
}

// Why a file is not read. The numbers are those by which a program names a refusal.
#[derive(Clone, Copy, Debug, PartialEq, Eq)]
pub enum FileRefusal {
    // A lent slice is too short for what the file holds.
    NoRoom = 10,
    // The next byte that is needed is missing.
    Missing = 11,
    // A reserved bit is set, or a code is above its range.
    Reserved = 12,
    // Bytes remain after the last row.
    Trailing = 13,
    // More than 128 variables, 128 rows or 512 terms.
    TooMany = 14,
}

impl From<FileRefusal> for u8 {
    ghost from_gives = { λ e n. n ≡ number_of e };

    fn from(refusal: FileRefusal) -> u8 {
        refusal as u8
    }
}

// A variable, a term and a row's head, as the file has them. Domain, comparison and mode stay bytes: they go
// as they are to where the C interface has bytes, the first two in slices.
#[derive(Clone, Copy)]
pub struct Variable {
    pub objective: f64,
    pub lower: f64,
    pub upper: f64,
    pub domain: u8,
}

#[derive(Clone, Copy)]
pub struct Term {
    pub index: usize,
    pub coeff: f64,
}

#[derive(Clone, Copy)]
pub struct RowHead {
    pub cmp: u8,
    pub rhs: f64,
    pub count: usize,
}

#[derive(Clone, Copy)]
pub struct Settings {
    pub vars: usize,
    pub rows: usize,
    pub feasibility: f64,
    pub int_tol: f64,
    pub mode: u8,
}

// The lent slices that a model is read into: an entry for each variable, row or term, and a start more
// than there are rows. They lie side by side, since the C interface lends a model so. That a function leaves the same
// slices there, and changes what they hold alone, is `SameSlices` in its contract: a type cannot say it of a `&mut`.
#[derive(Drop)]
pub struct ModelSlices<'a> {
    pub objective: &'a mut [f64],
    pub lower: &'a mut [f64],
    pub upper: &'a mut [f64],
    pub domain: &'a mut [u8],
    pub starts: &'a mut [usize],
    pub index: &'a mut [usize],
    pub coeff: &'a mut [f64],
    pub cmp: &'a mut [u8],
    pub rhs: &'a mut [f64],
}

// Reads a file into the front of the lent slices. A refusal writes nothing.
pub fn read_model(bytes: &[u8], model: &mut ModelSlices) -> Result<Header, FileRefusal>
    ensures same { SameSlices model.old model.new }
    ensures read { out (file_read result) (lent model.new) ≡ read_into bytes.now (lent model.old) }
{
    let header = scan::scan(bytes)?;
    if !model.has_room(header) {
        return Err(FileRefusal::NoRoom);
    }
    fill::fill_model(bytes, model)?;
    Ok(header)
}
