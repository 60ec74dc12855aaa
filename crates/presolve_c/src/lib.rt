// presolve for callers in C and Rust: include/presolve.h declares it.
#![tactic(auto)]

ghost use Rattle.definition.specs.Of.{model_of};
ghost use Rattle.output.specs.Results.{results};
ghost use Rattle.presolve.specs.Promise.{working};
ghost use Rattle.std.specs.Prelude.{◌≡◌};
ghost use Rattle.row_terms.specs.Place.{place_of};
ghost use Rattle.presolve_c.specs.Face.{FacePromise, place};
ghost use Rattle.presolve_c.specs.PlanFace.{PlanPromise};

use definition::{Input, Rows};
use output::Results;
use plan::check_plan;
use presolve::Space;
use row_terms::Span;

mod tell;
mod tell_plan;

// `presolve::presolve`, its answer as a code and numbers, which go to `answer`. All parameters are loose, as C
// hands them in. Not compiled into the wrapper that C calls: a small call takes longer so (docs/PERFORMANCE.md).
#[unsafe(no_mangle)]
#[inline(never)]
pub extern "C" fn suedeonyx_presolve(
    obj: &[f64],
    lower: &[f64],
    upper: &[f64],
    domain: &[u8],
    starts: &[usize],
    index: &[usize],
    coeff: &[f64],
    cmp: &[u8],
    rhs: &[f64],
    mode: u8,
    feas: f64,
    int_tol: f64,
    out_lower: &mut [f64],
    out_upper: &mut [f64],
    emit_row: &mut [usize],
    emit_rewritten: &mut [u8],
    emit_rhs: &mut [f64],
    emit_from: &mut [usize],
    emit_upto: &mut [usize],
    kept: &mut [usize],
    term_index: &mut [usize],
    term_coeff: &mut [f64],
    floats: &mut [f64],
    numbers: &mut [usize],
    adjacency: &mut [usize],
    answer: &mut [usize],
) -> u8
    ensures { FacePromise (model_of obj.now lower.now upper.now domain.now starts.now
        index.now coeff.now cmp.now rhs.now mode feas int_tol)
        (results out_lower.old out_upper.old emit_row.old emit_rewritten.old emit_rhs.old
        emit_from.old emit_upto.old kept.old term_index.old term_coeff.old)
        (working floats.old numbers.old adjacency.old) answer.old result
        (results out_lower.new out_upper.new emit_row.new emit_rewritten.new emit_rhs.new
        emit_from.new emit_upto.new kept.new term_index.new term_coeff.new)
        (working floats.new numbers.new adjacency.new) answer.new }
{
    let input = Input {
        obj,
        lower,
        upper,
        domain,
        rows: Rows {
            starts,
            index,
            coeff,
            cmp,
            rhs,
        },
        mode,
        feas,
        int_tol,
    };
    let mut results = Results {
        lower: out_lower,
        upper: out_upper,
        emit_row,
        emit_rewritten,
        emit_rhs,
        emit_from,
        emit_upto,
        kept,
        term_index,
        term_coeff,
    };
    let mut space = Space {
        floats,
        numbers,
        adjacency,
    };
    if answer.len() < tell::ANSWER {
        return tell::short_answer(input, presolve::lent_lengths(&results, &space));
    }
    tell::tell(presolve::presolve(input, &mut results, &mut space), answer)
}

// `row_terms::Span::place`, for an emitted row's mark and span: 1 where its terms stand in term_index and term_coeff, 0 where in
// index and coeff; count of them, from start on. All parameters are loose, as C hands them in.
#[unsafe(no_mangle)]
pub extern "C" fn suedeonyx_row_terms<'a>(
    index: &'a [usize],
    coeff: &'a [f64],
    term_index: &'a [usize],
    term_coeff: &'a [f64],
    mark: u8,
    from: usize,
    upto: usize,
    start: &mut usize,
    count: &mut usize,
) -> u8
    ensures { place result start.new count.new
        ≡ place_of mark from upto index.now coeff.now term_index.now term_coeff.now }
{
    let p = Span { mark, from, upto }.place(index, coeff, term_index, term_coeff);
    *start = p.start;
    *count = p.count;
    p.rewritten
}

// `plan::check_plan`, its answer as a code, the variable or row that the code is about, and the excursion; a refusal writes
// neither. All parameters are loose, as C hands them in.
#[unsafe(no_mangle)]
#[inline(never)]
pub extern "C" fn suedeonyx_check_plan(
    obj: &[f64],
    lower: &[f64],
    upper: &[f64],
    domain: &[u8],
    starts: &[usize],
    index: &[usize],
    coeff: &[f64],
    cmp: &[u8],
    rhs: &[f64],
    mode: u8,
    feas: f64,
    int_tol: f64,
    plan: &[f64],
    place: &mut usize,
    excursion: &mut f64,
) -> u8
    ensures { PlanPromise (model_of obj.now lower.now upper.now domain.now starts.now
        index.now coeff.now cmp.now rhs.now mode feas int_tol) plan.now place.old excursion.old result place.new excursion.new }
{
    let input = Input {
        obj,
        lower,
        upper,
        domain,
        rows: Rows {
            starts,
            index,
            coeff,
            cmp,
            rhs,
        },
        mode,
        feas,
        int_tol,
    };
    match check_plan(input, plan) {
        Err(refusal) => u8::from(refusal),
        Ok(check) => {
            *place = tell_plan::place(check.verdict);
            *excursion = check.excursion;
            tell_plan::code(check.verdict)
        }
    }
}
