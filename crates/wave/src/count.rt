// `primal_wave` of src/presolve/work.rs of microlp 0.7.0, changed: one row, by its count of terms.
ghost use Rattle.std.specs.Prelude.{◌<◌};
ghost use Rattle.definition.specs.Wave.{by_count};
ghost use Rattle.space.specs.Store.{floats_of, numbers_of, HoldsF, HoldsN};
ghost use Rattle.view.specs.Acts.{Ready, Tries};
ghost use Rattle.view.specs.Known.{Known};
ghost use Rattle.readers.specs.Reading.{row_of, Alive};

use crate::several::several_terms;
use definition::Infeasible;
use space::{Context, Len};
use view::Lists;

// = by_count
pub fn by_count(
    lists: Lists,
    floats: &mut [f64],
    numbers: &mut [usize],
    cx: Context,
    r: usize,
) -> Result<(), Infeasible>
    requires r_lt_rows { (r < cx.rows) × HoldsF cx floats.old × HoldsN cx numbers.old × Alive (numbers_of cx numbers.old) r }
    requires ready { Ready (Known lists) cx (floats_of cx floats.old) (numbers_of cx numbers.old) }
    ensures { Tries (Known lists.entry) cx (floats_of cx floats.old) (numbers_of cx numbers.old) (floats_of cx floats.new) (numbers_of cx numbers.new) result
        (λ M u. by_count M r (row_of u r) (row_of u r).terms u) }
{
    let n = space::get::<Len>(numbers, cx, r);
    if n == 0 {
        singles::empty_row_check(lists.rows, floats, numbers, cx, r)
    } else if n == 1 {
        singles::singleton_row(lists, floats, numbers, cx, r)
    } else {
        several_terms(lists, floats, numbers, cx, r)
    }
}
