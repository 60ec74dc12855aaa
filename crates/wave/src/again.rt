// src/presolve/mod.rs of microlp 0.7.0, changed: the waves of a round, while the queue is not empty and
// fewer were run than all rounds may have.
ghost use Rattle.std.specs.Prelude.{◌-◌};
ghost use Rattle.definition.specs.Params.{max_waves};
ghost use Rattle.definition.specs.Wave as definition;
ghost use Rattle.space.specs.Store.{floats_of, numbers_of, HoldsF, HoldsN};
ghost use Rattle.view.specs.Acts.{Ready};
ghost use Rattle.view.specs.Known.{Known};
ghost use Rattle.wave.specs.Begin.{Waves};

use crate::primal::primal_wave;
use definition::Infeasible;
use space::{Context, Passes, Queued};
use view::Lists;

// = waves, as many as are left
pub fn waves(
    lists: Lists,
    floats: &mut [f64],
    numbers: &mut [usize],
    cx: Context,
) -> Result<(), Infeasible>
    requires holds_f { HoldsF cx floats.old × HoldsN cx numbers.old }
    requires ready { Ready (Known lists) cx (floats_of cx floats.old) (numbers_of cx numbers.old) }
    ensures { Waves (Known lists.entry) cx (floats_of cx floats.old) (numbers_of cx numbers.old) (floats_of cx floats.new) (numbers_of cx numbers.new) result
        (λ M u. definition.waves M (max_waves M.params - u.counts.passes) u) }
{
    let cap = formulas::max_waves();
    for p in space::get::<Passes>(numbers, cx, 0)..cap {
        if space::get::<Queued>(numbers, cx, 0) == 0 {
            return Ok(());
        }
        primal_wave(lists, floats, numbers, cx)?;
    }
    Ok(())
}
