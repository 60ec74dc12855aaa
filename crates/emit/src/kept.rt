// src/presolve/mod.rs of microlp 0.7.0, changed: the rows that are kept for validation.
ghost use Rattle.std.specs.Prelude.{◌≤◌, length};
ghost use Rattle.space.specs.Store.{numbers_of, HoldsN};
ghost use Rattle.emit.specs.Fates.{kept_at, self};
ghost use Rattle.emit.specs.Filling.{Filled};

use crate::collecting::collect;
use space::Context;

// = kept of Reduced, at the front of the slice that C lends. How many there are.
pub fn write_kept(numbers: &[usize], cx: Context, kept: &mut [usize]) -> usize
    requires { HoldsN cx numbers.now × (cx.rows ≤ length kept.old) }
    ensures { Filled (kept_at (numbers_of cx numbers.now).fate) self cx.rows kept.old kept.new result }
{
    collect(numbers, cx, kept, |fate| fate.is_kept(), |r, _| r)
}
