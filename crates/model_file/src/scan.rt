// The pass that checks the whole file and writes nothing. There are two passes, since a file that is
// refused at its last byte leaves the slices as they were, and there is no heap to read it into. Each has functions
// of its own: those that write ask for room and refuse nothing in a file that was checked, these ask for
// none and do. One walk over a trait, as print_result's `Sink` is, would refuse in the second pass too, or ask
// the first for room, so it would say both contracts and not one.
ghost use Rattle.std.specs.Prelude.{◌≡◌, ◌≤◌, IfOk};
ghost use Rattle.model_file.specs.Format.{many, row, rows, decode};
ghost use Rattle.model_file.specs.Places.{answered};
ghost use Rattle.model_file.specs.Reading.{file_read};
ghost use Rattle.model_file.specs.Skips.{skipped, map_got, after, upto, seen};

use crate::parts::Part;
use crate::reader::Reader;
use crate::{FileRefusal, Header, Settings, Term, Variable};

// The next n parts.
fn skip<P: Part>(reader: &mut Reader, n: usize) -> Result<(), FileRefusal>
    ensures { skipped (many P.parser n reader.old.rest.now) ≡ answered result reader.new.rest.now }
{
    for _ in 0..n {
        P::read(reader)?;
    }
    Ok(())
}

// A row after t terms: how many terms there are then.
fn skip_row(reader: &mut Reader, t: usize) -> Result<usize, FileRefusal>
    requires { t ≤ 512 }
    ensures read { map_got (upto t) (row t reader.old.rest.now) ≡ answered result reader.new.rest.now }
    ensures within { IfOk result (λ e. e ≤ 512) }
{
    let head = reader.head(t)?;
    skip::<Term>(reader, head.count)?;
    Ok(t + head.count)
}

// The rows: how many terms they have.
fn skip_rows(reader: &mut Reader, n: usize) -> Result<usize, FileRefusal>
    ensures { map_got (after 0) (rows n 0 reader.old.rest.now) ≡ answered result reader.new.rest.now }
{
    let mut terms = 0;
    for _ in 0..n {
        terms = skip_row(reader, terms)?;
    }
    Ok(terms)
}

// What the file is: its header, or its refusal.
pub(crate) fn scan(bytes: &[u8]) -> Result<Header, FileRefusal>
    ensures { file_read result ≡ seen (decode bytes.now) }
{
    let mut reader = Reader { rest: bytes };
    let Settings {
        vars,
        rows,
        feasibility,
        int_tol,
        mode,
    } = reader.settings()?;
    skip::<Variable>(&mut reader, vars)?;
    let terms = skip_rows(&mut reader, rows)?;
    reader.end()?;
    Ok(Header {
        vars,
        rows,
        terms,
        feasibility,
        int_tol,
        mode,
    })
}
