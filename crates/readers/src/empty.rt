// `empty_row_consistent` of src/presolve/work.rs of microlp 0.7.0, changed: whether the row as written
// is violated where every variable of it is fixed.
ghost use Rattle.std.specs.Prelude.{◌≡◌, ◌+◌, ◌-◌, ◌<◌, get_or};
ghost use Rattle.std.specs.Float.{nan};
ghost use Rattle.tolerances.specs.Tol.{trivial_verdict, violated, row_start};
ghost use Rattle.tolerances.specs.Answers.{option_of, sum_of};
ghost use Rattle.tolerances.specs.Terms.{row_from};
ghost use Rattle.definition.specs.Model.{written, op_of, rhs_of};
ghost use Rattle.definition.specs.Singles.{fixed_value};
ghost use Rattle.space.specs.Store.{floats_of, HoldsF};
ghost use Rattle.view.specs.Acts.{Any};
ghost use Rattle.view.specs.Known.{Written};
ghost use Rattle.readers.specs.Reading.{ReadyF, ReadsF, RowIn};
ghost use Rattle.readers.specs.Empty.{TermsIn, row_terms};
ghost use Rattle.readers.specs.Trivial.{TellsTrivial};

use crate::vars::fixed_value;
use definition::Rows;
use space::Context;
use tolerances::{RowSum, trivial_row_verdict};

// Of row r as handed in.
pub fn verdict(rows: Rows, cx: Context, r: usize) -> Option<bool>
    requires { RowIn rows r }
    ensures { option_of result ≡ trivial_verdict cx.feas (get_or rows.entry.cmp.now r 0) (get_or rows.entry.starts.now (r + 1) 0 - get_or rows.entry.starts.now r 0) (get_or rows.entry.rhs.now r nan) }
{
    let a = rows.starts[r];
    let e = rows.starts[r + 1];
    trivial_row_verdict(e - a, rows.cmp[r], rows.rhs[r], cx.feas)
}

// = trivial: whether row r is true as handed in.
pub fn is_trivial(rows: Rows, cx: Context, r: usize) -> bool
    requires { RowIn rows r }
    ensures { TellsTrivial cx rows.entry.starts.now rows.entry.cmp.now rows.entry.rhs.now r result }
{
    verdict(rows, cx, r).unwrap_or(false)
}

// The sum over the terms of row r as written, from its right side. Not `Row::implied_slack` over a closure: the values
// stand in the working space, and what is promised is so of every state that it shows.
fn fixed_sum(rows: Rows, floats: &[f64], cx: Context, r: usize) -> RowSum
    requires span { TermsIn cx rows r × HoldsF cx floats.now }
    ensures { ReadsF Any cx (floats_of cx floats.now) (sum_of result) (λ M u. row_from (fixed_value u) (row_start (get_or rows.entry.rhs.now r nan)) (row_terms rows.entry r)) }
{
    let a = rows.starts[r];
    let e = rows.starts[r + 1];
    let mut sum = RowSum::start(rows.rhs[r]);
    for (v, coeff) in rows.index[a..e].iter().zip(&rows.coeff[a..e]) {
        sum = sum.with(*coeff, fixed_value(floats, cx, *v));
    }
    sum
}

// = violated at fixed_value
pub fn empty_row_violated(rows: Rows, floats: &[f64], cx: Context, r: usize) -> bool
    requires r_lt_rows { (r < cx.rows) × HoldsF cx floats.now }
    requires ready_f { ReadyF (Written rows) cx (floats_of cx floats.now) }
    ensures { ReadsF (Written rows.entry) cx (floats_of cx floats.now) result (λ M u. violated M.feas (op_of M r) (written M r) (rhs_of M r) (fixed_value u)) }
{
    if is_trivial(rows, cx, r) {
        return false;
    }
    fixed_sum(rows, floats, cx, r)
        .slack()
        .violates(rows.cmp[r], cx.feas)
}
