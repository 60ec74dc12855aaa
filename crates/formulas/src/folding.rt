// `rewrite_room` of src/presolve/work.rs of microlp 0.7.0, changed: the room that a row's rewrites
// take.
ghost use Rattle.definition.specs.Folds as folds;
ghost use Rattle.formulas.specs.Bare.{ByTol};

// What the binding branch takes out of the row's tolerance.
#[tactic(auto, unfolding(floats::specs::Num::choose, definition::specs::Folds::rewrite_room))]
pub fn rewrite_room(feas: f64, written: f64, rewritten: f64, fixed: f64) -> f64
    ensures { ByTol feas result (λ M. folds.rewrite_room M written rewritten fixed) }
{
    let m = written + fixed;
    if floats::is_finite(m) {
        floats::larger(
            tolerances::row_tolerance(feas, m) - tolerances::row_tolerance(feas, rewritten + fixed),
            0.0,
        )
    } else {
        floats::infinity()
    }
}
