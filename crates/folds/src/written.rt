// `Row::as_written` of src/presolve/model.rs of microlp 0.7.0, changed: the input row put into the
// working slices, over whatever stands there.
ghost use Rattle.std.specs.Prelude.{◌≡◌, ◌<◌, ◌≤◌, length, get_or};
ghost use Rattle.std.specs.Float.{nan};
ghost use Rattle.definition.specs.Model.{as_written};
ghost use Rattle.space.specs.Store.{floats_of, numbers_of, HoldsF, HoldsN};
ghost use Rattle.view.specs.Known.{Written};
ghost use Rattle.folds.specs.Written.{Described, WritesRow, TermsCopied, sides_of, sides_put, marks_put};

use definition::Rows;
use space::{
    Alive, Binaries, Coeffs, Context, FoldScale, Folded, Hi, Len, Lo, Shift, Touched, Vars,
};
use tolerances::Comparison;

// The input's terms from place a up to e, all live. A `for` over places: they are written to as well as read, and space
// alone knows where a term stands in floats and numbers.
fn write_terms(
    rows: Rows,
    floats: &mut [f64],
    numbers: &mut [usize],
    cx: Context,
    a: usize,
    e: usize,
)
    requires a_le_e { (a ≤ e) × (e ≤ cx.terms) × (cx.terms ≤ length rows.index.now) × (cx.terms ≤ length rows.coeff.now) }
    requires holds_f { HoldsF cx floats.old × HoldsN cx numbers.old }
    ensures { TermsCopied rows.entry.index.now rows.entry.coeff.now a e (floats_of cx floats.old) (numbers_of cx numbers.old) (floats_of cx floats.new) (numbers_of cx numbers.new) }
{
    for i in a..e {
        space::put::<Vars>(numbers, cx, i, rows.index[i]);
        space::put::<Coeffs>(floats, cx, i, rows.coeff[i]);
    }
}

// The lower and the upper side of a row, by its comparison: an Eq row has its right side on both, a Le row is
// bounded from above alone, a Ge row from below alone.
fn sides(rows: Rows, r: usize) -> (f64, f64)
    requires { (r < length rows.cmp.now) × (r < length rows.rhs.now) }
    ensures { result ≡ sides_of (get_or rows.entry.cmp.now r 0) (get_or rows.entry.rhs.now r nan) }
{
    let b = rows.rhs[r];
    match Comparison::from(rows.cmp[r]) {
        Comparison::Equal => (b, b),
        Comparison::AtMost => (f64::NEG_INFINITY, b),
        Comparison::AtLeast => (b, f64::INFINITY),
    }
}

// A row's four floats, with nothing folded.
#[tactic(auto, using(crate::specs::Written::sides_put_lem))]
fn write_sides(floats: &mut [f64], cx: Context, r: usize, lo: f64, hi: f64)
    requires { (r < cx.rows) × HoldsF cx floats.old }
    ensures { floats_of cx floats.new ≡ sides_put r lo hi (floats_of cx floats.old) }
{
    space::put::<Lo>(floats, cx, r, lo);
    space::put::<Hi>(floats, cx, r, hi);
    space::put::<FoldScale>(floats, cx, r, 0.0);
    space::put::<Shift>(floats, cx, r, 0.0);
}

// A row of n terms, alive, with nothing folded or rewritten.
#[tactic(auto, using(crate::specs::Written::marks_put_lem))]
fn write_marks(numbers: &mut [usize], cx: Context, r: usize, n: usize)
    requires { (r < cx.rows) × HoldsN cx numbers.old }
    ensures { numbers_of cx numbers.new ≡ marks_put r n (numbers_of cx numbers.old) }
{
    space::put::<Len>(numbers, cx, r, n);
    space::put::<Folded>(numbers, cx, r, 0);
    space::put::<Alive>(numbers, cx, r, 1);
    space::put::<Touched>(numbers, cx, r, 0);
    space::put::<Binaries>(numbers, cx, r, 0);
}

// = as_written
pub fn as_written(rows: Rows, floats: &mut [f64], numbers: &mut [usize], cx: Context, r: usize)
    requires r_lt_rows { (r < cx.rows) × HoldsF cx floats.old × HoldsN cx numbers.old }
    requires given { Described (Written rows) cx }
    ensures { WritesRow (Written rows.entry) cx r
        (floats_of cx floats.old) (numbers_of cx numbers.old) (floats_of cx floats.new) (numbers_of cx numbers.new) (λ M. as_written M r) }
{
    let a = rows.starts[r];
    let e = rows.starts[r + 1];
    write_terms(rows, floats, numbers, cx, a, e);
    let (lo, hi) = sides(rows, r);
    write_sides(floats, cx, r, lo, hi);
    write_marks(numbers, cx, r, e - a);
}
