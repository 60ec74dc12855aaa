// `primal_wave` of src/presolve/work.rs of microlp 0.7.0, changed: the rows queued so far, one after
// the other.
// What they queue is the next wave's.
ghost use Rattle.std.specs.Prelude.{◌<◌, get_or};
ghost use Rattle.definition.specs.Wave as definition;
ghost use Rattle.space.specs.Store.{floats_of, numbers_of, HoldsF, HoldsN};
ghost use Rattle.view.specs.Acts.{Ready};
ghost use Rattle.view.specs.Known.{Known};
ghost use Rattle.wave.specs.Rows.{ReadyWave, TriesWave};
ghost use Rattle.wave.specs.Begin.{Waves};

use crate::one_row::wave_row;
use crate::queue::copy_queue;
use definition::Infeasible;
use space::{Context, Passes, Queued, Wave};
use view::Lists;

// = wave_rows, over the n rows that stand in the block of the wave's rows
fn wave_rows(
    lists: Lists,
    floats: &mut [f64],
    numbers: &mut [usize],
    cx: Context,
    n: usize,
) -> Result<(), Infeasible>
    requires holds_f { HoldsF cx floats.old × HoldsN cx numbers.old }
    requires ready_wave { ReadyWave (Known lists) cx (floats_of cx floats.old) (numbers_of cx numbers.old) n }
    ensures { TriesWave (Known lists.entry) cx (floats_of cx floats.old) (numbers_of cx numbers.old) (floats_of cx floats.new)
        (numbers_of cx numbers.new) result n }
{
    for i in 0..n {
        let r = space::get::<Wave>(numbers, cx, i);
        wave_row(lists, floats, numbers, cx, r)?;
    }
    Ok(())
}

// = wave
pub(crate) fn primal_wave(
    lists: Lists,
    floats: &mut [f64],
    numbers: &mut [usize],
    cx: Context,
) -> Result<(), Infeasible>
    requires holds_f { HoldsF cx floats.old × HoldsN cx numbers.old × (get_or (numbers_of cx numbers.old).passes 0 0 < 30) }
    requires ready { Ready (Known lists) cx (floats_of cx floats.old) (numbers_of cx numbers.old) }
    ensures { Waves (Known lists.entry) cx (floats_of cx floats.old) (numbers_of cx numbers.old) (floats_of cx floats.new) (numbers_of cx numbers.new) result
        definition.wave }
{
    let n = space::get::<Queued>(numbers, cx, 0);
    copy_queue(numbers, cx, n);
    space::put::<Queued>(numbers, cx, 0, 0);
    let p = space::get::<Passes>(numbers, cx, 0);
    space::put::<Passes>(numbers, cx, 0, p + 1);
    wave_rows(lists, floats, numbers, cx, n)
}
