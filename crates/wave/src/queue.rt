// `mem::take` in `primal_wave` of src/presolve/work.rs of microlp 0.7.0, changed: the rows queued so
// far become the wave's.
ghost use Rattle.std.specs.Prelude.{◌≤◌};
ghost use Rattle.space.specs.Store.{numbers_of, HoldsN};
ghost use Rattle.wave.specs.Begin.{QueueCopied};

use space::{Context, Queue, Wave};

// No `copy_within`: space alone knows where a block stands.
pub(crate) fn copy_queue(numbers: &mut [usize], cx: Context, n: usize)
    requires { (n ≤ cx.rows) × HoldsN cx numbers.old }
    ensures { QueueCopied (numbers_of cx numbers.old) (numbers_of cx numbers.new) n }
{
    for i in 0..n {
        let r = space::get::<Queue>(numbers, cx, i);
        space::put::<Wave>(numbers, cx, i, r);
    }
}
