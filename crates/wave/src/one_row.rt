// `primal_wave` of src/presolve/work.rs of microlp 0.7.0, changed: one row of a wave.
// It is no longer queued while it is handled, so a bound that it changes queues it again.
ghost use Rattle.std.specs.Prelude.{◌<◌};
ghost use Rattle.definition.specs.Wave.{wave_row};
ghost use Rattle.space.specs.Store.{floats_of, numbers_of, HoldsF, HoldsN};
ghost use Rattle.view.specs.Known.{Known};
ghost use Rattle.wave.specs.Row.{ReadyRow, TriesRow};

use crate::count::by_count;
use definition::Infeasible;
use space::{Alive, Context, Dirty};
use view::Lists;

// = wave_row
pub(crate) fn wave_row(
    lists: Lists,
    floats: &mut [f64],
    numbers: &mut [usize],
    cx: Context,
    r: usize,
) -> Result<(), Infeasible>
    requires r_lt_rows { (r < cx.rows) × HoldsF cx floats.old × HoldsN cx numbers.old }
    requires ready_row { ReadyRow (Known lists) cx (floats_of cx floats.old) (numbers_of cx numbers.old) }
    ensures { TriesRow (Known lists.entry) cx (floats_of cx floats.old) (numbers_of cx numbers.old) (floats_of cx floats.new) (numbers_of cx numbers.new) result
        (λ M. wave_row M r) }
{
    space::put::<Dirty>(numbers, cx, r, 0);
    if space::get::<Alive>(numbers, cx, r) == 1 {
        folds::fold_row(lists.rows, floats, numbers, cx, r);
        return by_count(lists, floats, numbers, cx, r);
    }
    Ok(())
}
