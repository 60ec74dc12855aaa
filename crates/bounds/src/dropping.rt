// A row leaves, as src/presolve/work.rs of microlp 0.7.0 has it wherever one does, changed.
ghost use Rattle.std.specs.Prelude.{◌<◌};
ghost use Rattle.definition.specs.Work as definition;
ghost use Rattle.space.specs.Store.{numbers_of, HoldsN};
ghost use Rattle.view.specs.Acts.{ActsN, Any};
ghost use Rattle.readers.specs.Reading.{row_of};

use space::{Alive, Context, Dropped};

// = drop_row, of the row that stands in the state
pub fn drop_row(numbers: &mut [usize], cx: Context, r: usize)
    requires { (r < cx.rows) × HoldsN cx numbers.old }
    ensures { ActsN Any cx (numbers_of cx numbers.old) (numbers_of cx numbers.new) (λ M w. definition.drop_row r (row_of w r) w) }
{
    space::put::<Alive>(numbers, cx, r, 0);
    space::count::<Dropped>(numbers, cx);
}
