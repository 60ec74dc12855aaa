// 01's conditions of a farm model, and the objective's: each as the test that fails it at a place. What lies outside a slice
// reads as the definition's lists do, so nothing is asked of the caller. `is_some_and` and `is_none_or` were
// tried in place of a match: the proofs did not close, since what a closure without a clause says cannot be cited
// there, and with one it is longer than the match.
ghost use Rattle.std.specs.Prelude.{◌≡◌, ◌&&◌};
ghost use Rattle.std.specs.Float.Ieee.{le};
ghost use Rattle.floats.specs.Num.{abs};
ghost use Rattle.floats.specs.Points.{is_whole};
ghost use Rattle.whole_numbers.specs.Fault.{tolerable, domain_off, bounds_off, row_long, tolerance_off, mode_off, objective_off};
ghost use Rattle.whole_numbers.specs.Floats.{beyond};

use floats::{absolute, floor, is_finite};

fn is_whole(x: f64) -> bool
    ensures { result ≡ is_whole x }
{
    is_finite(x) && floor(x) == x
}

// A whole number of magnitude at most limit.
fn whole_within(x: f64, limit: f64) -> bool
    ensures { result ≡ is_whole x && le (abs x) limit }
{
    is_whole(x) && absolute(x) <= limit
}

fn is_tolerable(x: f64) -> bool
    ensures { result ≡ tolerable x }
{
    0.0 <= x && x <= 0.01
}

// Bytes, here and for the mode, as `Input` has them.
pub(crate) fn domain_off(domain: &[u8], v: usize) -> bool
    ensures { result ≡ domain_off domain.now v }
{
    match domain.get(v) {
        Some(d) => *d != 0 && *d != 2,
        None => false,
    }
}

// A number that is not whole, or beyond limit. There is none past the end.
pub(crate) fn number_off(xs: &[f64], limit: f64, i: usize) -> bool
    ensures { result ≡ beyond limit xs.now i }
{
    match xs.get(i) {
        Some(x) => !whole_within(*x, limit),
        None => true,
    }
}

// Two lists and no `Input`: it asks of these two alone.
pub(crate) fn bounds_off(lower: &[f64], upper: &[f64], v: usize) -> bool
    ensures { result ≡ bounds_off lower.now upper.now v }
{
    number_off(lower, 1048576.0, v) || number_off(upper, 1048576.0, v)
}

pub(crate) fn row_long(starts: &[usize], r: usize) -> bool
    ensures { result ≡ row_long starts.now r }
{
    if r >= starts.len() {
        return false;
    }
    match starts.get(r + 1) {
        Some(upto) => upto.saturating_sub(starts[r]) > 256,
        None => false,
    }
}

// Feasibility is at place 0, int_tol at place 1.
pub(crate) fn tolerance_off(feas: f64, int_tol: f64, i: usize) -> bool
    ensures { result ≡ tolerance_off feas int_tol i }
{
    match i {
        0 => !is_tolerable(feas),
        _ => !is_tolerable(int_tol),
    }
}

pub(crate) fn mode_off(mode: u8) -> bool
    ensures { result ≡ mode_off mode 0 }
{
    mode != 1 && mode != 2
}

// An objective that is not whole. Its size is free.
pub(crate) fn objective_off(obj: &[f64], v: usize) -> bool
    ensures { result ≡ objective_off obj.now v }
{
    match obj.get(v) {
        Some(c) => !is_whole(*c),
        None => true,
    }
}
