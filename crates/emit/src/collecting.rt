// The rows of some fates, each as a value, at the front of a slice.
ghost use Rattle.std.specs.Prelude.{ℕ, ◌≤◌, ◌<◌, Bool, length};
ghost use Rattle.space.specs.Store.{numbers_of, HoldsN};
ghost use Rattle.emit.specs.declared.fates.Fate.{Fate};
ghost use Rattle.emit.specs.Filling.{Filled};
ghost use Rattle.emit.specs.FateNumbers.{WritesFates};

use crate::fates::{Fate, fate_of};
use space::Context;

// The values of the rows whose fate passes the test. How many there are. A `for` with a place beside it: the rows that
// pass are fewer than the rows that are looked at, so no `zip` gives both places.
pub(crate) fn collect<T: Copy, P: Fn(Fate) -> bool, V: Fn(usize, Fate) -> T>(
    numbers: &[usize],
    cx: Context,
    out: &mut [T],
    test: P,
    value: V,
) -> usize
    requires holds_n { HoldsN cx numbers.now × (cx.rows ≤ length out.old) }
    requires tests { (x : Fate) → P.pre test x }
    requires values { (r : ℕ) (x : Fate) → r < cx.rows → V.pre value r x }
    ensures { (p : ℕ → Bool) (g : ℕ → T) → WritesFates (P.post test) (V.post value) (numbers_of cx numbers.now).fate cx.rows p g → Filled p g cx.rows out.old out.new result }
{
    let mut n = 0;
    for r in 0..cx.rows {
        let fate = fate_of(numbers, cx, r);
        if test(fate) {
            out[n] = value(r, fate);
            n += 1;
        }
    }
    n
}
