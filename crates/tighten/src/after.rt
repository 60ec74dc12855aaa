// `tighten_binary_coeffs` of src/presolve/work.rs of microlp 0.7.0, changed: the row after a rewrite of
// one coefficient: the coefficient first, then the binding, then the bound.
ghost use Rattle.std.specs.Prelude.{◌≡◌, false, ◌+◌, ◌≤◌, ◌<◌, length, get_or};
ghost use Rattle.std.specs.Float.{nan};
ghost use Rattle.std.specs.Float.Ieee.{eq};
ghost use Rattle.floats.specs.Num.{0f};
ghost use Rattle.tolerances.specs.Tol.{term};
ghost use Rattle.definition.specs.Work.{with_row};
ghost use Rattle.definition.specs.Tighten.{rebound_row, row_after};
ghost use Rattle.space.specs.Store.{floats_of, numbers_of, HoldsF, HoldsN, put_coeffs};
ghost use Rattle.view.specs.Acts.{Ready, Acts};
ghost use Rattle.view.specs.Known.{Spans};
ghost use Rattle.readers.specs.Reading.{row_of, Alive};
ghost use Rattle.formulas.specs.Rewriting.{form_is, maybe_form, maybe_rewrite};
ghost use Rattle.coeffs.specs.Keeping.{Nonzero};
ghost use Rattle.tighten.specs.After.{TermOfVar};

use crate::LiveTerm;
use crate::bindings::rewrite_binding;
use formulas::{Form, Rewrite};
use space::{Coeffs, Context, Hi, Lo};

// The coefficient of row r's live term at place i.
fn set_coeff(starts: &[usize], floats: &mut [f64], cx: Context, r: usize, i: usize, na: f64)
    requires r_in_bounds { (r < length starts.now) × (get_or starts.now r 0 + i < cx.terms) × (cx.terms ≤ 65536) }
    requires holds_f { HoldsF cx floats.old }
    ensures { floats_of cx floats.new ≡ put_coeffs (get_or starts.now r 0 + i) na (floats_of cx floats.old) }
{
    space::put::<Coeffs>(floats, cx, starts[r] + i, na);
}

// = rebound_row, of a rewrite of t to the coefficient na that moves the bound to bp. starts, floats, numbers, cx and r are every step's (space
// says why they stay apart). na and bp are two numbers of a `Rewrite` whose bound is known to move, which its type does not say.
fn rebound(
    starts: &[usize],
    floats: &mut [f64],
    numbers: &mut [usize],
    cx: Context,
    r: usize,
    form: Form,
    t: LiveTerm,
    na: f64,
    bp: f64,
)
    requires holds_f { HoldsF cx floats.old × HoldsN cx numbers.old × TermOfVar starts.now cx (numbers_of cx numbers.old) r t.place t.var × (eq na 0f ≡ false) }
    requires ready { Ready (Spans starts.now) cx (floats_of cx floats.old) (numbers_of cx numbers.old) }
    ensures { Acts (Spans starts.now) cx (floats_of cx floats.old) (numbers_of cx numbers.old) (floats_of cx floats.new)
        (numbers_of cx numbers.new) (λ M u. with_row r (rebound_row M (form_is form) u (row_of u r) t.place t.var t.coeff na bp) u) }
{
    set_coeff(starts, floats, cx, r, t.place, na);
    match form {
        Form::Le => {
            let b = space::get::<Hi>(floats, cx, r);
            let grown = rewrite_binding(starts, floats, numbers, cx, r, t, b, bp);
            space::put::<Hi>(floats, cx, r, bp + grown);
        }
        Form::Ge => {
            let b = space::get::<Lo>(floats, cx, r);
            let grown = rewrite_binding(starts, floats, numbers, cx, r, t, b, bp);
            space::put::<Lo>(floats, cx, r, bp - grown);
        }
    }
}

// = row_after, of the live term t and its rewrite z, if it is rewritten. starts, floats, numbers, cx and r are every step's (space says why they
// stay apart); form is the row's.
pub fn row_after(
    starts: &[usize],
    floats: &mut [f64],
    numbers: &mut [usize],
    cx: Context,
    r: usize,
    form: Option<Form>,
    t: LiveTerm,
    z: Option<Rewrite>,
)
    requires r_lt_rows { (r < cx.rows) × HoldsF cx floats.old × HoldsN cx numbers.old × Alive (numbers_of cx numbers.old) r
        × (t.place < get_or (numbers_of cx numbers.old).len r 0) × Nonzero (maybe_rewrite z) }
    requires v_value { (t.var ≡ get_or (numbers_of cx numbers.old).vars (get_or starts.now r 0 + t.place) 0)
        × (t.coeff ≡ get_or (floats_of cx floats.old).coeffs (get_or starts.now r 0 + t.place) nan) }
    requires ready { Ready (Spans starts.now) cx (floats_of cx floats.old) (numbers_of cx numbers.old) }
    ensures { Acts (Spans starts.now) cx (floats_of cx floats.old) (numbers_of cx numbers.old) (floats_of cx floats.new)
        (numbers_of cx numbers.new) (λ M u. with_row r (row_after M (maybe_form form) u (row_of u r) t.place (term t.var t.coeff) (maybe_rewrite z)) u) }
{
    match z {
        None => {}
        Some(y) => match y.bound {
            None => set_coeff(starts, floats, cx, r, t.place, y.coeff),
            Some(b) => match form {
                None => {}
                Some(f) => rebound(starts, floats, numbers, cx, r, f, t, y.coeff, b.to),
            },
        },
    }
}
