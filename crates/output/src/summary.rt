// `PresolveStats` and `Presolved::reduced` of src/presolve/model.rs and mod.rs of microlp 0.7.0,
// changed: what comes back beside the result slices.
ghost use Rattle.std.specs.Prelude.{◌≡◌, length};
ghost use Rattle.space.specs.Store.{floats_of, numbers_of, HoldsF, HoldsN};
ghost use Rattle.output.specs.Summary.{counts_of, differsBy, reducedOf};

use crate::Reduced;
use definition::{Counts, Input};
use space::{Context, Dropped, Fixed, Passes, Rewrote, Tightened};

// The five counts, of which four are kept modulo 2^64, which they never reach.
pub fn read_counts(numbers: &[usize], cx: Context) -> Counts
    requires { HoldsN cx numbers.now }
    ensures { result ≡ counts_of (numbers_of cx numbers.now) }
{
    Counts {
        rowsDropped: space::get::<Dropped>(numbers, cx, 0),
        boundsTightened: space::get::<Tightened>(numbers, cx, 0),
        varsFixed: space::get::<Fixed>(numbers, cx, 0),
        coeffsTightened: space::get::<Rewrote>(numbers, cx, 0),
        passes: space::get::<Passes>(numbers, cx, 0),
    }
}

// = differs. No side can fail, so `|` joins them, and it is its definition by computing.
fn differs(input: Input, floats: &[f64], cx: Context, emitted: usize, kept: usize) -> bool
    requires { HoldsF cx floats.now × (length input.lower.now ≡ cx.vars) × (length input.upper.now ≡ cx.vars) }
    ensures { result ≡ differsBy cx input.entry.lower.now input.entry.upper.now (floats_of cx floats.now) emitted kept }
{
    emit::bounds_changed(input.lower, input.upper, floats, cx) | (kept != 0) | (emitted != cx.rows)
}

// What comes back where so many rows are emitted, terms written and rows kept.
pub(crate) fn result(
    input: Input,
    floats: &[f64],
    numbers: &[usize],
    cx: Context,
    emitted: usize,
    terms: usize,
    kept: usize,
) -> Reduced
    requires { HoldsF cx floats.now × HoldsN cx numbers.now × (length input.lower.now ≡ cx.vars) × (length input.upper.now ≡ cx.vars) }
    ensures { result ≡ reducedOf cx input.entry.lower.now input.entry.upper.now (floats_of cx floats.now) (numbers_of cx numbers.now) emitted terms kept }
{
    Reduced {
        counts: read_counts(numbers, cx),
        emitted,
        terms,
        kept,
        flag: differs(input, floats, cx, emitted, kept),
    }
}
