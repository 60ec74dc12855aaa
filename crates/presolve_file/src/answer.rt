// An answer of presolve as text.
ghost use Rattle.std.specs.Prelude.{◌≡◌, length};
ghost use Rattle.definition.specs.Of.{input_model};
ghost use Rattle.output.specs.Results.{held};
ghost use Rattle.print_result.specs.Printing.{printed, outcome};
ghost use Rattle.presolve_file.specs.Whole.{kind_of, infeasible_text, model_text};
ghost use Rattle.presolve_file.specs.Fronts.{Fronts, fronts_text, CallFronts, call_text};

use crate::report::Report;
use definition::{Counts, Input};
use output::{Reduced, Results};
use presolve::{Presolved, Space};
use print_result::{Answer, Emitted, Kind, Terms};
use refuse::Refusal;

// The printer's kind of a model. No `From`, since a bool does not say that it tells of a reduced model.
#[tactic(auto, unfolding(crate::specs::Whole::kind_of))]
fn kind_of(flag: bool) -> Kind
    ensures { result ≡ kind_of flag }
{
    if flag { Kind::Reduced } else { Kind::Unchanged }
}

// The answer whose lists stand at the front of the result slices.
fn print_reduced(x: Reduced, model: Input, results: &Results, out: &mut [u8]) -> Option<usize>
    requires { Fronts x (length model.lower.now) (length model.upper.now) (held results.now) }
    ensures { outcome result out.new
        ≡ printed (fronts_text x (length model.entry.lower.now) (length model.entry.upper.now) (held results.now)) out.old }
{
    let Reduced {
        counts,
        emitted,
        terms,
        kept,
        flag,
    } = x;
    print_result::print_answer(
        Answer {
            kind: kind_of(flag),
            counts,
            lower: &results.lower[..model.lower.len()],
            upper: &results.upper[..model.upper.len()],
            rows: Emitted {
                row: &results.emit_row[..emitted],
                rewritten: &results.emit_rewritten[..emitted],
                rhs: &results.emit_rhs[..emitted],
                from: &results.emit_from[..emitted],
                upto: &results.emit_upto[..emitted],
            },
            model: Terms {
                index: model.rows.index,
                coeff: model.rows.coeff,
            },
            terms: Terms {
                index: &results.term_index[..terms],
                coeff: &results.term_coeff[..terms],
            },
            kept: &results.kept[..kept],
        },
        out,
    )
}

// Of a model without points only the counts are printed.
#[tactic(auto, using(crate::specs::Fronts::infeasible_text_lem))]
fn print_infeasible(counts: Counts, out: &mut [u8]) -> Option<usize>
    ensures { outcome result out.new ≡ printed (infeasible_text counts) out.old }
{
    print_result::print_answer(
        Answer {
            kind: Kind::Infeasible,
            counts,
            lower: &[],
            upper: &[],
            rows: Emitted {
                row: &[],
                rewritten: &[],
                rhs: &[],
                from: &[],
                upto: &[],
            },
            model: Terms {
                index: &[],
                coeff: &[],
            },
            terms: Terms {
                index: &[],
                coeff: &[],
            },
            kept: &[],
        },
        out,
    )
}

// Any answer of a call.
#[tactic(auto, unfolding(crate::specs::Fronts::call_text))]
fn print_call(
    answer: Result<Presolved, Refusal>,
    model: Input,
    results: &Results,
    out: &mut [u8],
) -> Option<usize>
    requires { CallFronts answer (length model.lower.now) (length model.upper.now) (held results.now) }
    ensures { outcome result out.new
        ≡ printed (call_text answer (length model.entry.lower.now) (length model.entry.upper.now) (held results.now)) out.old }
{
    match answer {
        Ok(Presolved::Model(x)) => print_reduced(x, model, results, out),
        Ok(Presolved::Infeasible(counts)) => print_infeasible(counts, out),
        Err(refusal) => print_result::print_refusal(u8::from(refusal), out),
    }
}

// Presolves the model and prints the answer. The space is enough for 128 variables, 128 rows and 512
// terms (docs/WORKSPACE.md), and so for every file that is read (proofs/Enough, `space_enough`).
pub struct Presolve;

impl Report for Presolve {
    ghost told = { model_text };

    fn print(model: Input<'_>, out: &mut [u8]) -> Option<usize> {
        let mut results = Results {
            lower: &mut [0.0; 128],
            upper: &mut [0.0; 128],
            emit_row: &mut [0; 128],
            emit_rewritten: &mut [0; 128],
            emit_rhs: &mut [0.0; 128],
            emit_from: &mut [0; 128],
            emit_upto: &mut [0; 128],
            kept: &mut [0; 128],
            term_index: &mut [0; 512],
            term_coeff: &mut [0.0; 512],
        };
        let mut space = Space {
            floats: &mut [0.0; 2048],
            numbers: &mut [0; 2694],
            adjacency: &mut [0; 641],
        };
        let answer = presolve::presolve(model, &mut results, &mut space);
        print_call(answer, model, &results, out)
    }
}
