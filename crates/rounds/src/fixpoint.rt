// src/presolve/mod.rs of microlp 0.7.0, changed: the rounds, waves and what follows them, until that
// changes nothing or no round is left.
ghost use Rattle.definition.specs.Rounds as definition;
ghost use Rattle.space.specs.Store.{floats_of, numbers_of, HoldsF, HoldsN};
ghost use Rattle.view.specs.Acts.{Ready};
ghost use Rattle.wave.specs.Begin.{Waves};
ghost use Rattle.rounds.specs.After.{Running};

use crate::after::after_waves;
use definition::Infeasible;
use space::Context;
use view::Lists;

// = rounds, as many as there may be. The mode is the byte that a caller in C hands in (see after_waves).
pub fn rounds(
    obj: &[f64],
    lists: Lists,
    floats: &mut [f64],
    numbers: &mut [usize],
    cx: Context,
    mode: u8,
) -> Result<(), Infeasible>
    requires holds_f { HoldsF cx floats.old × HoldsN cx numbers.old }
    requires ready { Ready (Running obj.now lists mode) cx (floats_of cx floats.old) (numbers_of cx numbers.old) }
    ensures { Waves (Running obj.now lists.entry mode) cx (floats_of cx floats.old) (numbers_of cx numbers.old) (floats_of cx floats.new)
        (numbers_of cx numbers.new) result (λ M u. definition.rounds M M.params.max_rounds u) }
{
    let cap = formulas::max_rounds();
    for n in 0..cap {
        wave::waves(lists, floats, numbers, cx)?;
        if !after_waves(obj, lists, floats, numbers, cx, mode) {
            return Ok(());
        }
    }
    Ok(())
}
