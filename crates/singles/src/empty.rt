// `empty_row_check` of src/presolve/work.rs of microlp 0.7.0, changed: a row of no term, as written, at
// the values of its fixed variables.
ghost use Rattle.std.specs.Prelude.{◌<◌};
ghost use Rattle.definition.specs.Singles.{empty_row_check};
ghost use Rattle.space.specs.Store.{floats_of, numbers_of, HoldsF, HoldsN};
ghost use Rattle.view.specs.Acts.{Ready, Tries};
ghost use Rattle.view.specs.Known.{Written};
ghost use Rattle.readers.specs.Reading.{row_of};

use definition::{Infeasible, Rows};
use space::Context;

// = empty_row_check
pub fn empty_row_check(
    rows: Rows,
    floats: &[f64],
    numbers: &mut [usize],
    cx: Context,
    r: usize,
) -> Result<(), Infeasible>
    requires r_lt_rows { (r < cx.rows) × HoldsF cx floats.now × HoldsN cx numbers.old }
    requires ready { Ready (Written rows) cx (floats_of cx floats.now) (numbers_of cx numbers.old) }
    ensures { Tries (Written rows.entry) cx (floats_of cx floats.now) (numbers_of cx numbers.old)
        (floats_of cx floats.now) (numbers_of cx numbers.new) result (λ M u. empty_row_check M r (row_of u r) u) }
{
    if readers::empty_row_violated(rows, floats, cx, r) {
        return Err(Infeasible);
    }
    bounds::drop_row(numbers, cx, r);
    Ok(())
}
