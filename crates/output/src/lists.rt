// src/presolve/mod.rs of microlp 0.7.0, changed: the whole end.
// The rows are judged, and everything that comes back is written.
ghost use Rattle.std.specs.Prelude.{◌≡◌, ◌≤◌, length};
ghost use Rattle.space.specs.Store.{floats_of, numbers_of, HoldsF, HoldsN};
ghost use Rattle.view.specs.Acts.{Ready};
ghost use Rattle.emit.specs.Spans.{Spanned, Indexed};
ghost use Rattle.output.specs.Results.{held, SameSlices, ResultsRoom};
ghost use Rattle.output.specs.Writing.{ListsOut};
ghost use Rattle.output.specs.Answered.{BoundsAndRows, WritesOut};

use crate::judge::judge_rows;
use crate::summary::result;
use crate::{Reduced, Results};
use definition::Input;
use space::Context;

// Every list, by the fates that stand in the working slices. Of numbers, the slots change.
fn write_lists(
    input: Input,
    floats: &[f64],
    numbers: &mut [usize],
    cx: Context,
    results: &mut Results,
) -> Reduced
    requires holds_f { HoldsF cx floats.now × HoldsN cx numbers.old × (length input.lower.now ≡ cx.vars) × (length input.upper.now ≡ cx.vars) × (cx.rows ≤ length input.rows.rhs.now) }
    requires room { ResultsRoom cx (held results.old) }
    requires spanned { Spanned cx input.rows.starts.now (numbers_of cx numbers.old) }
    requires indexed { Indexed cx input.rows.starts.now input.rows.index.now (numbers_of cx numbers.old) }
    ensures same { SameSlices results.old results.new }
    ensures lists { ListsOut cx input.entry (floats_of cx floats.now) (numbers_of cx numbers.old) result (held results.old) (held results.new) }
{
    let rows = input.rows;
    emit::write_bounds(floats, cx, results.lower, results.upper);
    let emitted = emit::write_emitted(numbers, cx, results.emit_row, results.emit_rewritten);
    emit::write_rhs(rows.rhs, floats, numbers, cx, results.emit_rhs);
    emit::write_spans(
        rows.starts,
        numbers,
        cx,
        results.emit_from,
        results.emit_upto,
    );
    let kept = emit::write_kept(numbers, cx, results.kept);
    let terms = emit::write_terms(
        rows,
        floats,
        numbers,
        cx,
        results.term_index,
        results.term_coeff,
    );
    result(input, floats, numbers, cx, emitted, terms, kept)
}

// = answerOf, of the settled state. Of the working slices, fates, bounds and slots change.
pub fn write_results(
    input: Input,
    floats: &mut [f64],
    numbers: &mut [usize],
    cx: Context,
    results: &mut Results,
) -> Reduced
    requires holds_f { HoldsF cx floats.old × HoldsN cx numbers.old }
    requires room { ResultsRoom cx (held results.old) }
    requires ready { Ready (BoundsAndRows input) cx (floats_of cx floats.old) (numbers_of cx numbers.old) }
    ensures same { SameSlices results.old results.new }
    ensures writes { WritesOut (BoundsAndRows input.entry) cx (floats_of cx floats.old) (numbers_of cx numbers.old) result (held results.old) (held results.new) }
{
    judge_rows(input.rows, floats, numbers, cx);
    write_lists(input, floats, numbers, cx, results)
}
