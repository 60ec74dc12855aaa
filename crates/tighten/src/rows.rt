// `tighten_binary_coeffs` of src/presolve/work.rs of microlp 0.7.0, changed: coefficient tightening on
// rows with one finite side, row by row.
ghost use Rattle.std.specs.Prelude.{◌<◌, false};
ghost use Rattle.definition.specs.Rewrites.{form_of};
ghost use Rattle.definition.specs.Tighten.{tighten_form, tighten_by, tighten_row, tighten_binary_coeffs};
ghost use Rattle.formulas.specs.Rewriting.{form_is};
ghost use Rattle.space.specs.Store.{floats_of, numbers_of, HoldsF, HoldsN};
ghost use Rattle.view.specs.Acts.{Ready};
ghost use Rattle.view.specs.Changes.{ActsBool};
ghost use Rattle.readers.specs.Reading.{row_of, Alive};
ghost use Rattle.tighten.specs.Tightening.{Tightening};
ghost use Rattle.tighten.specs.Counted.{looked};

use crate::rewriting::rewrite_loop;
use formulas::{Form, OneSided};
use readers::Working;
use space::{CoeffDirty, Context, Len};
use view::Lists;

// = tighten_form, of row r as the slices have it and of no change before
fn tighten_form(
    lists: Lists,
    floats: &mut [f64],
    numbers: &mut [usize],
    cx: Context,
    r: usize,
    form: Form,
) -> bool
    requires r_lt_rows { (r < cx.rows) × HoldsF cx floats.old × HoldsN cx numbers.old × Alive (numbers_of cx numbers.old) r }
    requires ready { Ready (Tightening lists) cx (floats_of cx floats.old) (numbers_of cx numbers.old) }
    ensures { ActsBool (Tightening lists.entry) cx (floats_of cx floats.old) (numbers_of cx numbers.old) (floats_of cx floats.new) (numbers_of cx numbers.new) result
        (λ M u. tighten_form M (form_is form) r (row_of u r) u false) }
{
    let act = readers::activity::<Working>(lists.rows.starts, floats, numbers, cx, r);
    let limits = readers::limits(floats, cx, r, 0);
    let form = Some(form);
    let room = limits.vacuous_room(form, act);
    let x = OneSided {
        form,
        room,
        limits,
        act,
    };
    let n = coeffs::eligible(x, lists.domain, lists.rows.starts, floats, numbers, cx, r);
    let len = space::get::<Len>(numbers, cx, r);
    if formulas::spared(len, n) {
        return false;
    }
    rewrite_loop(lists, floats, numbers, cx, r, x)
}

// = tighten_by, of an alive row and of no change before: the step has looked at the row, whatever its form is
fn tighten_alive(
    lists: Lists,
    floats: &mut [f64],
    numbers: &mut [usize],
    cx: Context,
    r: usize,
) -> bool
    requires r_lt_rows { (r < cx.rows) × HoldsF cx floats.old × HoldsN cx numbers.old × Alive (numbers_of cx numbers.old) r }
    requires ready { Ready (Tightening lists) cx (floats_of cx floats.old) (numbers_of cx numbers.old) }
    ensures { ActsBool (Tightening lists.entry) cx (floats_of cx floats.old) (numbers_of cx numbers.old) (floats_of cx floats.new) (numbers_of cx numbers.new) result
        (λ M u. tighten_by M (form_of (row_of u r)) r (row_of u r) (looked r u) false) }
{
    space::put::<CoeffDirty>(numbers, cx, r, 0);
    let limits = readers::limits(floats, cx, r, 0);
    match limits.form() {
        Some(form) => tighten_form(lists, floats, numbers, cx, r, form),
        None => false,
    }
}

// = tighten_row, of no change before: whether the row was rewritten
fn tighten_row(
    lists: Lists,
    floats: &mut [f64],
    numbers: &mut [usize],
    cx: Context,
    r: usize,
) -> bool
    requires r_lt_rows { (r < cx.rows) × HoldsF cx floats.old × HoldsN cx numbers.old }
    requires ready { Ready (Tightening lists) cx (floats_of cx floats.old) (numbers_of cx numbers.old) }
    ensures { ActsBool (Tightening lists.entry) cx (floats_of cx floats.old) (numbers_of cx numbers.old) (floats_of cx floats.new) (numbers_of cx numbers.new) result
        (λ M u. tighten_row M r u false) }
{
    if space::get::<space::Alive>(numbers, cx, r) == 1
        && space::get::<CoeffDirty>(numbers, cx, r) == 1
    {
        tighten_alive(lists, floats, numbers, cx, r)
    } else {
        false
    }
}

// = tighten_binary_coeffs: whether something was rewritten
pub fn tighten_binary_coeffs(
    lists: Lists,
    floats: &mut [f64],
    numbers: &mut [usize],
    cx: Context,
) -> bool
    requires holds_f { HoldsF cx floats.old × HoldsN cx numbers.old }
    requires ready { Ready (Tightening lists) cx (floats_of cx floats.old) (numbers_of cx numbers.old) }
    ensures { ActsBool (Tightening lists.entry) cx (floats_of cx floats.old) (numbers_of cx numbers.old) (floats_of cx floats.new) (numbers_of cx numbers.new) result
        (λ M. tighten_binary_coeffs M) }
{
    let mut changed = false;
    for r in 0..cx.rows {
        changed |= tighten_row(lists, floats, numbers, cx, r);
    }
    changed
}
