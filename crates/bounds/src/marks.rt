// `mark_row` and `mark_var` of src/presolve/work.rs of microlp 0.7.0, changed: requeueing.
ghost use Rattle.std.specs.Prelude.{◌<◌};
ghost use Rattle.definition.specs.Marks.{mark_row, mark_var};
ghost use Rattle.definition.specs.Tighten.{queued};
ghost use Rattle.space.specs.Store.{numbers_of, HoldsN};
ghost use Rattle.view.specs.Acts.{ReadyN, ActsN, Any};
ghost use Rattle.view.specs.Adjacency.{Adj};
ghost use Rattle.bounds.specs.Flags.{FlagsKept};

use space::{CoeffDirty, Context, Dirty, Queue, Queued, get, put};

// = queued: the row is queued where it is not queued already
pub fn requeue(numbers: &mut [usize], cx: Context, r: usize)
    requires r_lt_rows { (r < cx.rows) × HoldsN cx numbers.old }
    requires ready_n { ReadyN Any cx (numbers_of cx numbers.old) }
    ensures acts_n { ActsN Any cx (numbers_of cx numbers.old) (numbers_of cx numbers.new) (λ M. queued r) }
    ensures flags_kept { FlagsKept (numbers_of cx numbers.old) (numbers_of cx numbers.new) }
{
    if get::<Dirty>(numbers, cx, r) == 1 {
        return;
    }
    put::<Dirty>(numbers, cx, r, 1);
    let q = get::<Queued>(numbers, cx, 0);
    put::<Queue>(numbers, cx, q, r);
    put::<Queued>(numbers, cx, 0, q + 1);
}

// = mark_row: the coefficient step has to look at the row again, even where it is queued already
fn mark_row(numbers: &mut [usize], cx: Context, r: usize)
    requires r_lt_rows { (r < cx.rows) × HoldsN cx numbers.old }
    requires ready_n { ReadyN Any cx (numbers_of cx numbers.old) }
    ensures acts_n { ActsN Any cx (numbers_of cx numbers.old) (numbers_of cx numbers.new) (λ M. mark_row r) }
    ensures flags_kept { FlagsKept (numbers_of cx numbers.old) (numbers_of cx numbers.new) }
{
    put::<CoeffDirty>(numbers, cx, r, 1);
    requeue(numbers, cx, r);
}

// = mark_var: the rows of v stand in adjacency after where each variable's rows start
pub(crate) fn mark_var(adjacency: &[usize], numbers: &mut [usize], cx: Context, v: usize)
    requires v_lt_vars { (v < cx.vars) × HoldsN cx numbers.old }
    requires ready_n { ReadyN (Adj adjacency.now) cx (numbers_of cx numbers.old) }
    ensures acts_n { ActsN (Adj adjacency.now) cx (numbers_of cx numbers.old) (numbers_of cx numbers.new) (λ M. mark_var M v) }
    ensures flags_kept { FlagsKept (numbers_of cx numbers.old) (numbers_of cx numbers.new) }
{
    let base = cx.vars + 1;
    for &r in &adjacency[base + adjacency[v]..base + adjacency[v + 1]] {
        mark_row(numbers, cx, r);
    }
}
