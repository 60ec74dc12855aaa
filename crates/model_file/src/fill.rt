// The pass that writes a file that was checked: its lists, to the front of the lent slices. Why its functions
// are not the other pass's is said in scan.
ghost use Rattle.std.specs.Prelude.{◌≡◌, ◌-◌, ◌≤◌, ◌<◌, length, IfOk, IsOk, ℕ};
ghost use Rattle.model_file.specs.Format.{row, rows};
ghost use Rattle.model_file.specs.Places.{answered};
ghost use Rattle.model_file.specs.Skips.{map_got, after, upto};
ghost use Rattle.model_file.specs.Reading.{SameSlices, lent, read_into};
ghost use Rattle.model_file.specs.Answers.{Ready};
ghost use Rattle.model_file.specs.Fills.{ListFilled, RowPlace, Roomy, sizes, put_start, fill_row, fill_rows};

use crate::parts::Part;
use crate::reader::Reader;
use crate::{FileRefusal, ModelSlices, Term, Variable};

// The next parts, to the places from here up to end.
fn fill<P: Part>(
    reader: &mut Reader,
    model: &mut ModelSlices,
    from: usize,
    end: usize,
) -> Result<(), FileRefusal>
    requires { (i : ℕ) → i < end → P.place i (sizes (lent model.old)) }
    ensures same { SameSlices model.old model.new }
    ensures filled { ListFilled P.parser P.put_gives (end - from) reader.old.rest.now from result reader.new.rest.now (lent model.old) (lent model.new) }
{
    for i in from..end {
        P::read(reader)?.put(model, i);
    }
    Ok(())
}

// Row r, with t terms before it: how many terms there are then.
fn fill_row(
    reader: &mut Reader,
    model: &mut ModelSlices,
    r: usize,
    t: usize,
) -> Result<usize, FileRefusal>
    requires few { t ≤ 512 }
    requires place { RowPlace r (sizes (lent model.old)) }
    requires room { Roomy (map_got (upto t) (row t reader.old.rest.now)) (sizes (lent model.old)) }
    ensures same { SameSlices model.old model.new }
    ensures read { map_got (upto t) (row t reader.old.rest.now) ≡ answered result reader.new.rest.now }
    ensures within { IfOk result (λ e. e ≤ 512) }
    ensures filled { lent model.new ≡ fill_row r t reader.old.rest.now (lent model.old) }
{
    let head = reader.head(t)?;
    let e = t + head.count;
    model.put_head(r, e, head);
    fill::<Term>(reader, model, t, e)?;
    Ok(e)
}

// The n rows, and the first start.
fn fill_rows(reader: &mut Reader, model: &mut ModelSlices, n: usize) -> Result<(), FileRefusal>
    requires places { (n < length model.old.starts.now) × (n ≤ length model.old.cmp.now) × (n ≤ length model.old.rhs.now) }
    requires room { Roomy (map_got (after 0) (rows n 0 reader.old.rest.now)) (sizes (lent model.old)) }
    ensures same { SameSlices model.old model.new }
    ensures ok { IsOk result }
    ensures filled { lent model.new ≡ fill_rows n reader.old.rest.now 0 0 (put_start (lent model.old)) }
{
    model.starts[0] = 0;
    let mut t = 0;
    for r in 0..n {
        t = fill_row(reader, model, r, t)?;
    }
    Ok(())
}

// The whole file, of which nothing is refused any more.
pub(crate) fn fill_model(bytes: &[u8], model: &mut ModelSlices) -> Result<(), FileRefusal>
    requires { Ready bytes.now (lent model.old) }
    ensures same { SameSlices model.old model.new }
    ensures ok { IsOk result }
    ensures filled { lent model.new ≡ (read_into bytes.now (lent model.old)).lent }
{
    let mut reader = Reader { rest: bytes };
    let settings = reader.settings()?;
    fill::<Variable>(&mut reader, model, 0, settings.vars)?;
    fill_rows(&mut reader, model, settings.rows)
}
