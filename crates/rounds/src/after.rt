// src/presolve/mod.rs of microlp 0.7.0, changed: what follows the waves of a round, the coefficient
// step, and the dual step where it is on.
// Both run, whatever the first one did.
ghost use Rattle.definition.specs.Rounds.{after_waves};
ghost use Rattle.space.specs.Store.{floats_of, numbers_of, HoldsF, HoldsN};
ghost use Rattle.view.specs.Acts.{Ready};
ghost use Rattle.view.specs.Changes.{ActsBool};
ghost use Rattle.rounds.specs.After.{Running};

use space::Context;
use view::Lists;

// = after_waves: whether one of the two changed something. The mode is the byte that a caller in C hands in,
// with two tests here: an enum would be longer.
pub(crate) fn after_waves(
    obj: &[f64],
    lists: Lists,
    floats: &mut [f64],
    numbers: &mut [usize],
    cx: Context,
    mode: u8,
) -> bool
    requires holds_f { HoldsF cx floats.old × HoldsN cx numbers.old }
    requires ready { Ready (Running obj.now lists mode) cx (floats_of cx floats.old) (numbers_of cx numbers.old) }
    ensures { ActsBool (Running obj.now lists.entry mode) cx (floats_of cx floats.old) (numbers_of cx numbers.old)
        (floats_of cx floats.new) (numbers_of cx numbers.new) result (λ M. after_waves M) }
{
    if mode == 0 {
        return false;
    }
    let tightened = tighten::tighten_binary_coeffs(lists, floats, numbers, cx);
    if mode == 2 {
        let fixed = dual::dual_fix(obj, lists, floats, numbers, cx);
        return tightened | fixed;
    }
    tightened
}
