// The rows of the table of refusals, one function each. A row may rely on what the rows before it
// rule out, and its `requires` says on which. Tests are joined by `|`, since no side can fail: each row is then its definition by computing. With `||`
// each test was a branch of the proof, and more to read than this.
// Three rows are marked to be compiled into `refused`: else they are handed the whole input through memory.
ghost use Rattle.std.specs.Prelude.{◌≡◌, false, ◌+◌, ◌-◌, ◌≤◌, ltb, length};
ghost use Rattle.definition.specs.Refusal as definition;
ghost use Rattle.definition.specs.Refusal.{some_below, row_unordered};
ghost use Rattle.definition.specs.Of.{input_model};
ghost use Rattle.refuse.specs.Of.{lent_of};

use crate::{Lent, MAX_ROW_TERMS, MAX_ROWS, MAX_TERMS, MAX_VARS, lists};
use definition::Input;

// = lengths_disagree: row starts have one entry more than there are rows.
pub(crate) fn lengths_disagree(input: Input) -> bool
    ensures { result ≡ definition.lengths_disagree (input_model input.entry) }
{
    let vars = input.obj.len();
    let rows = input.rows.rhs.len();
    (input.lower.len() != vars)
        | (input.upper.len() != vars)
        | (input.domain.len() != vars)
        | (input.rows.starts.len() != rows + 1)
        | (input.rows.cmp.len() != rows)
        | (input.rows.coeff.len() != input.rows.index.len())
}

// = too_large
pub(crate) fn too_large(input: Input) -> bool
    ensures { result ≡ definition.too_large (input_model input.entry) }
{
    (input.obj.len() > MAX_VARS)
        | (input.rows.rhs.len() > MAX_ROWS)
        | (input.rows.index.len() > MAX_TERMS)
}

// = starts_wrong
pub(crate) fn starts_wrong(input: Input) -> bool
    requires { length input.rows.starts.now ≡ length input.rows.rhs.now + 1 }
    ensures { result ≡ definition.starts_wrong (input_model input.entry) }
{
    let starts = input.rows.starts;
    (starts[0] != 0)
        | lists::start_falls(starts)
        | (starts[input.rows.rhs.len()] != input.rows.index.len())
}

// = row_unordered, of some row. Tried as `any`: what its closure asks of starts and index did not close.
fn some_row_unordered(input: Input) -> bool
    requires starts_len { length input.rows.starts.now ≡ length input.rows.rhs.now + 1 }
    requires rhs_value { definition.starts_wrong (input_model input) ≡ false }
    ensures { result ≡ some_below (row_unordered (input_model input.entry)) (length input.entry.rows.rhs.now) }
{
    let starts = input.rows.starts;
    let index = input.rows.index;
    for r in 0..input.rows.rhs.len() {
        let from = starts[r];
        let upto = starts[r + 1];
        if lists::index_falls(&index[from..upto]) {
            return true;
        }
    }
    false
}

// = indices_wrong
pub(crate) fn indices_wrong(input: Input) -> bool
    requires starts_len { length input.rows.starts.now ≡ length input.rows.rhs.now + 1 }
    requires rhs_value { definition.starts_wrong (input_model input) ≡ false }
    ensures { result ≡ definition.indices_wrong (input_model input.entry) }
{
    lists::index_large(input.rows.index, input.obj.len()) | some_row_unordered(input)
}

// = row_long, of a row that starts and ends there.
fn row_long(from: usize, upto: usize) -> bool
    ensures { result ≡ ltb 256 (upto - from) }
{
    upto.saturating_sub(from) > MAX_ROW_TERMS
}

// = rows_long. Where starts fall a row has no term, as in the definition, so this relies on no order.
pub(crate) fn rows_long(input: Input) -> bool
    requires { length input.rows.starts.now ≡ length input.rows.rhs.now + 1 }
    ensures { result ≡ definition.rows_long (input_model input.entry) }
{
    let starts = input.rows.starts;
    for r in 0..input.rows.rhs.len() {
        if row_long(starts[r], starts[r + 1]) {
            return true;
        }
    }
    false
}

// = codes_wrong
pub(crate) fn codes_wrong(input: Input) -> bool
    requires { (length input.domain.now ≡ length input.obj.now) × (length input.rows.cmp.now ≡ length input.rows.rhs.now) }
    ensures { result ≡ definition.codes_wrong (input_model input.entry) }
{
    lists::code_wrong(input.domain) | lists::code_wrong(input.rows.cmp) | (input.mode > 2)
}

// = bounds_wrong
pub(crate) fn bounds_wrong(input: Input) -> bool
    requires { (length input.lower.now ≡ length input.obj.now) × (length input.upper.now ≡ length input.obj.now) }
    ensures { result ≡ definition.bounds_wrong (input_model input.entry) }
{
    lists::bounds_wrong(input.lower, input.upper)
}

// = numbers_wrong
#[inline(always)]
pub(crate) fn numbers_wrong(input: Input) -> bool
    requires { length input.rows.coeff.now ≡ length input.rows.index.now }
    ensures { result ≡ definition.numbers_wrong (input_model input.entry) }
{
    lists::not_finite(input.obj) | lists::not_finite(input.rows.coeff)
}

// = rhses_wrong
#[inline(always)]
pub(crate) fn rhses_wrong(input: Input) -> bool
    requires { length input.rows.cmp.now ≡ length input.rows.rhs.now }
    ensures { result ≡ definition.rhses_wrong (input_model input.entry) }
{
    lists::rhses_wrong(input.rows.cmp, input.rows.rhs)
}

// = tolerances_wrong: not from 0 to 0.5, or not a number.
pub(crate) fn tolerances_wrong(input: Input) -> bool
    ensures { result ≡ definition.tolerances_wrong (input_model input.entry) }
{
    !((0.0 <= input.feas) & (input.feas <= 0.5))
        | !((0.0 <= input.int_tol) & (input.int_tol <= 0.5))
}

// = too_short. No sum overflows at the maxima.
#[inline(always)]
pub(crate) fn too_short(input: Input, lent: Lent) -> bool
    requires { (length input.obj.now ≤ 4096) × (length input.rows.rhs.now ≤ 8192) × (length input.rows.index.now ≤ 65536) }
    ensures { result ≡ definition.too_short (input_model input.entry) (lent_of lent) }
{
    let vars = input.obj.len();
    let rows = input.rows.rhs.len();
    let terms = input.rows.index.len();
    (lent.lower < vars)
        | (lent.upper < vars)
        | (lent.emit_row < rows)
        | (lent.emit_rewritten < rows)
        | (lent.emit_rhs < rows)
        | (lent.emit_from < rows)
        | (lent.emit_upto < rows)
        | (lent.kept < rows)
        | (lent.term_index < terms)
        | (lent.term_coeff < terms)
        | (lent.floats < 4 * vars + 8 * rows + terms)
        | (lent.numbers < 6 + 10 * rows + 3 * vars + 2 * terms)
        | (lent.adjacency < vars + 1 + terms)
}
