// Whether a test holds somewhere in a list, or of two that stand side by side.
ghost use Rattle.std.specs.Prelude.{◌≡◌, ◌||◌, not, suc, ◌+◌, ◌-◌, ltb, leb, length, get_or};
ghost use Rattle.std.specs.Float.Ieee.{eq, is_nan};
ghost use Rattle.std.specs.List.{list_any, zip};
ghost use Rattle.floats.specs.Num.{is_finite, ∞f, -∞f};
ghost use Rattle.tolerances.specs.Tol.{valid_rhs};
ghost use Rattle.definition.specs.Refusal.{some_below};

// Whether a row's start is above the next one's.
pub(crate) fn start_falls(starts: &[usize]) -> bool
    ensures { result ≡ some_below (λ r. ltb (get_or starts.now (r + 1) 0) (get_or starts.now r 0)) (length starts.now - 1) }
{
    !starts.is_sorted()
}

// Whether an index is no variable's.
pub(crate) fn index_large(index: &[usize], vars: usize) -> bool
    ensures { result ≡ list_any (λ i. leb vars i) index.now }
{
    index.iter().any(|i| *i >= vars)
}

// Whether one of a row's indices is not below the next.
pub(crate) fn index_falls(indices: &[usize]) -> bool
    ensures { result ≡ some_below (λ k. leb (get_or indices.now (k + 1) 0) (get_or indices.now k 0)) (length indices.now - 1) }
{
    !indices.is_sorted_by(|i, next| *i < *next)
}

// Whether a domain or a comparison is above 2.
pub(crate) fn code_wrong(codes: &[u8]) -> bool
    ensures { result ≡ list_any (λ c. ltb 2 c) codes.now }
{
    codes.iter().any(|c| *c > 2)
}

// Whether a number is not finite.
pub(crate) fn not_finite(xs: &[f64]) -> bool
    ensures { result ≡ list_any (λ x. not (is_finite x)) xs.now }
{
    xs.iter().any(|x| !floats::is_finite(*x))
}

// Whether a lower bound l and an upper bound h are none.
fn bound_wrong(l: f64, h: f64) -> bool
    ensures { result ≡ (is_nan l || is_nan h || eq l ∞f || eq h -∞f) }
{
    l.is_nan() | h.is_nan() | (l == f64::INFINITY) | (h == f64::NEG_INFINITY)
}

// Whether that is so of a variable's bounds. Two lists and no `Input`, here and below: each asks of these two alone.
pub(crate) fn bounds_wrong(lower: &[f64], upper: &[f64]) -> bool
    ensures { result ≡ list_any (λ b. is_nan b.0 || is_nan b.1 || eq b.0 ∞f || eq b.1 -∞f) (zip lower.now upper.now) }
{
    lower.iter().zip(upper).any(|(l, h)| bound_wrong(*l, *h))
}

// Whether a right side is none for its comparison.
pub(crate) fn rhses_wrong(cmp: &[u8], rhs: &[f64]) -> bool
    ensures { result ≡ list_any (λ b. not (valid_rhs b.0 b.1)) (zip cmp.now rhs.now) }
{
    cmp.iter()
        .zip(rhs)
        .any(|(op, b)| !tolerances::valid_rhs(*op, *b))
}
