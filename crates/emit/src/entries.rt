// src/presolve/mod.rs of microlp 0.7.0, changed: the rows that are emitted, their numbers, their marks,
// and their right sides.
ghost use Rattle.std.specs.Prelude.{◌≡◌, ◌≤◌, ◌<◌, length};
ghost use Rattle.space.specs.Store.{floats_of, numbers_of, HoldsF, HoldsN};
ghost use Rattle.emit.specs.Fates.{out_at, mark_at, side_at, self};
ghost use Rattle.emit.specs.Filling.{Filled};

use crate::collecting::collect;
use crate::fates::fate_of;
use space::{Bound, Context};

// = row and rewritten of emitted, at the front of the two slices that C lends. How many there are.
pub fn write_emitted(
    numbers: &[usize],
    cx: Context,
    row: &mut [usize],
    rewritten: &mut [u8],
) -> usize
    requires { HoldsN cx numbers.now × (cx.rows ≤ length row.old) × (cx.rows ≤ length rewritten.old) }
    ensures filled { Filled (out_at (numbers_of cx numbers.now).fate) self cx.rows row.old row.new result }
    ensures filled_2 { Filled (out_at (numbers_of cx numbers.now).fate) (mark_at (numbers_of cx numbers.now).fate) cx.rows rewritten.old rewritten.new result }
{
    collect(
        numbers,
        cx,
        rewritten,
        |fate| fate.is_out(),
        |_, fate| fate.mark(),
    );
    collect(numbers, cx, row, |fate| fate.is_out(), |r, _| r)
}

// The right side that row r goes out with.
fn side(rhs: &[f64], floats: &[f64], numbers: &[usize], cx: Context, r: usize) -> f64
    requires { (r < cx.rows) × HoldsF cx floats.now × HoldsN cx numbers.now × (r < length rhs.now) }
    ensures { result ≡ side_at (numbers_of cx numbers.now).fate (floats_of cx floats.now).bound rhs.now r }
{
    if fate_of(numbers, cx, r).is_rewritten() {
        return space::get::<Bound>(floats, cx, r);
    }
    rhs[r]
}

// = rhs of emitted, at the front of the slice that C lends. How many there are.
pub fn write_rhs(
    rhs: &[f64],
    floats: &[f64],
    numbers: &[usize],
    cx: Context,
    out: &mut [f64],
) -> usize
    requires { HoldsF cx floats.now × HoldsN cx numbers.now × (cx.rows ≤ length rhs.now) × (cx.rows ≤ length out.old) }
    ensures { Filled (out_at (numbers_of cx numbers.now).fate) (side_at (numbers_of cx numbers.now).fate (floats_of cx floats.now).bound
        rhs.now) cx.rows out.old out.new result }
{
    collect(
        numbers,
        cx,
        out,
        |fate| fate.is_out(),
        |r, _| side(rhs, floats, numbers, cx, r),
    )
}
