// `Row::coeff` and `rewritten_coeff` of src/presolve/model.rs and work.rs of microlp 0.7.0, changed:
// the coefficient of a variable that the row has, by the first match.
ghost use Rattle.std.specs.Prelude.{◌≡◌, ◌+◌, ◌-◌, ◌≤◌, ◌<◌};
ghost use Rattle.definition.specs.Model.{coeff_of};
ghost use Rattle.space.specs.Store.{floats_of, numbers_of, HoldsF, HoldsN};
ghost use Rattle.view.specs.Acts.{Reads};
ghost use Rattle.view.specs.Known.{Spans};
ghost use Rattle.readers.specs.Reading.{row_of, Alive};
ghost use Rattle.readers.specs.Coeffs.{place_of, ReadyTerm};
ghost use Rattle.readers.specs.WrittenCoeffs.{ReadyWritten, ReadsWritten};

use space::{Coeffs, Context, Len, Vars};

// Where term k of a row stands whose span is a up to e, with n live terms: the live ones come first,
// then the folded ones.
pub fn place(a: usize, e: usize, n: usize, k: usize) -> usize
    requires { (a + n ≤ e) × (k < e - a) }
    ensures { result ≡ place_of a e n k }
{
    if k < n { a + k } else { e - 1 - (k - n) }
}

// = coeff_of. A loop that yields the coefficient by its break, as a rule of the project has this walk: the
// row has the variable, so there is no end to count to.
pub fn row_coeff(
    starts: &[usize],
    floats: &[f64],
    numbers: &[usize],
    cx: Context,
    r: usize,
    v: usize,
) -> f64
    requires r_lt_rows { (r < cx.rows) × HoldsF cx floats.now × HoldsN cx numbers.now × Alive (numbers_of cx numbers.now) r }
    requires ready_term { ReadyTerm (Spans starts.now) cx (floats_of cx floats.now) (numbers_of cx numbers.now) r v }
    ensures { Reads (Spans starts.now) cx (floats_of cx floats.now) (numbers_of cx numbers.now) result (λ M u. coeff_of (row_of u r) v) }
{
    let a = starts[r];
    let e = starts[r + 1];
    let n = space::get::<Len>(numbers, cx, r);
    let mut k = 0;
    let x = loop {
        let i = place(a, e, n, k);
        if space::get::<Vars>(numbers, cx, i) == v {
            break space::get::<Coeffs>(floats, cx, i);
        }
        k += 1;
    };
    x
}

// The coefficient in the row as written that starts at `start`, which has the variable: the walk ends at it.
// A `for` that returns it: `position` would count its place from `start`, which had to be added again. Either way an
// answer has to be written for a variable that is not there. Two lists and no `Rows`: it asks of these two alone.
pub fn written_coeff(index: &[usize], coeff: &[f64], start: usize, v: usize) -> f64
    requires { ReadyWritten index.now coeff.now start v }
    ensures { ReadsWritten index.now coeff.now start v result }
{
    for i in start..index.len() {
        if index[i] == v {
            return coeff[i];
        }
    }
    0.0
}
