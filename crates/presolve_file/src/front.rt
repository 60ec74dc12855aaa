// The model that was read: it stands at the front of the slices.
ghost use Rattle.std.specs.Prelude.{◌≡◌};
ghost use Rattle.definition.specs.Of.{input_model};
ghost use Rattle.model_file.specs.Reading.{lent};
ghost use Rattle.presolve_file.specs.Front.{SlicesHold, front_model};

use definition::{Input, Rows};
use model_file::{Header, ModelSlices};

pub(crate) fn front<'a>(header: Header, model: &'a ModelSlices<'_>) -> Input<'a>
    requires { SlicesHold header (lent model.now) }
    ensures { input_model result ≡ front_model header (lent model.now) }
{
    let Header {
        vars,
        rows,
        terms,
        ..
    } = header;
    Input {
        obj: &model.objective[..vars],
        lower: &model.lower[..vars],
        upper: &model.upper[..vars],
        domain: &model.domain[..vars],
        rows: Rows {
            starts: &model.starts[..rows + 1],
            index: &model.index[..terms],
            coeff: &model.coeff[..terms],
            cmp: &model.cmp[..rows],
            rhs: &model.rhs[..rows],
        },
        mode: header.mode,
        feas: header.feasibility,
        int_tol: header.int_tol,
    }
}
