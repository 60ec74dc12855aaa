// `rewritten_bound` of src/presolve/work.rs of microlp 0.7.0, changed: the rewritten binaries of a row,
// the sum of their coefficients, and the bound that the row is emitted with.
ghost use Rattle.std.specs.Prelude.{◌+◌, ◌<◌, get_or};
ghost use Rattle.definition.specs.Bindings.{rewritten_bound};
ghost use Rattle.space.specs.Store.{floats_of, numbers_of, HoldsF, HoldsN};
ghost use Rattle.view.specs.Acts.{Ready, Reads};
ghost use Rattle.view.specs.Known.{Spans, Written};
ghost use Rattle.readers.specs.Reading.{row_of, Alive};
ghost use Rattle.coeffs.specs.Bound.{sum_all, bind_step, bind_all};

use cdouble::CDouble;
use definition::Rows;
use space::{Binaries, Binary, Context, Kept};
use tolerances::Comparison;

// = sum_coeffs, of the row's own binaries
pub fn sum_coeffs(starts: &[usize], floats: &[f64], numbers: &[usize], cx: Context, r: usize) -> f64
    requires r_lt_rows { (r < cx.rows) × HoldsF cx floats.now × HoldsN cx numbers.now × Alive (numbers_of cx numbers.now) r }
    requires ready { Ready (Spans starts.now) cx (floats_of cx floats.now) (numbers_of cx numbers.now) }
    ensures { Reads (Spans starts.now) cx (floats_of cx floats.now) (numbers_of cx numbers.now) result (sum_all r) }
{
    let a = starts[r];
    let n = space::get::<Binaries>(numbers, cx, r);
    let mut sum = 0.0;
    for k in 0..n {
        let v = space::get::<Binary>(numbers, cx, a + k);
        let x = readers::row_coeff(starts, floats, numbers, cx, r, v);
        sum += floats::absolute(x);
    }
    sum
}

// The k-th binary's coefficient as written is taken off, and its coefficient now added.
fn binding_term(
    rows: Rows,
    floats: &[f64],
    numbers: &[usize],
    cx: Context,
    r: usize,
    k: usize,
    d: CDouble,
) -> CDouble
    requires r_lt_rows { (r < cx.rows) × HoldsF cx floats.now × HoldsN cx numbers.now × Alive (numbers_of cx numbers.now) r × (k < get_or (numbers_of cx numbers.now).binaries r 0) }
    requires ready { Ready (Written rows) cx (floats_of cx floats.now) (numbers_of cx numbers.now) }
    ensures { Reads (Written rows.entry) cx (floats_of cx floats.now) (numbers_of cx numbers.now) result
        (λ M u. bind_step r M u (get_or (numbers_of cx numbers.now).binary (get_or rows.entry.starts.now r 0 + k) 0) d) }
{
    let a = rows.starts[r];
    let v = space::get::<Binary>(numbers, cx, a + k);
    let x = readers::written_coeff(rows.index, rows.coeff, a, v);
    let y = readers::row_coeff(rows.starts, floats, numbers, cx, r, v);
    d + -x + y
}

// = binding_sum, over the row's own binaries
fn binding_sum(
    rows: Rows,
    floats: &[f64],
    numbers: &[usize],
    cx: Context,
    r: usize,
    b: f64,
) -> CDouble
    requires r_lt_rows { (r < cx.rows) × HoldsF cx floats.now × HoldsN cx numbers.now × Alive (numbers_of cx numbers.now) r }
    requires ready { Ready (Written rows) cx (floats_of cx floats.now) (numbers_of cx numbers.now) }
    ensures { Reads (Written rows.entry) cx (floats_of cx floats.now) (numbers_of cx numbers.now) result (bind_all r b) }
{
    let n = space::get::<Binaries>(numbers, cx, r);
    let mut d = CDouble::from(b);
    for k in 0..n {
        d = binding_term(rows, floats, numbers, cx, r, k, d);
    }
    d
}

// = rewritten_bound, whatever the comparison: an Eq row, which is never rewritten, is taken as a Ge row
pub fn rewritten_bound(rows: Rows, floats: &[f64], numbers: &[usize], cx: Context, r: usize) -> f64
    requires r_lt_rows { (r < cx.rows) × HoldsF cx floats.now × HoldsN cx numbers.now × Alive (numbers_of cx numbers.now) r }
    requires ready { Ready (Written rows) cx (floats_of cx floats.now) (numbers_of cx numbers.now) }
    ensures { Reads (Written rows.entry) cx (floats_of cx floats.now) (numbers_of cx numbers.now) result (λ M u. rewritten_bound M (row_of u r) r) }
{
    let n = space::get::<Binaries>(numbers, cx, r);
    let b = rows.rhs[r];
    if n == 0 {
        return b;
    }
    let d = binding_sum(rows, floats, numbers, cx, r, b);
    let kept = space::get::<Kept>(floats, cx, r);
    match Comparison::from(rows.cmp[r]) {
        Comparison::AtMost => (d + kept).rounded(true),
        _ => (d + -kept).rounded(false),
    }
}
