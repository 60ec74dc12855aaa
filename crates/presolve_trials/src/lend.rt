// A call on a model, with lent slices that hold junk.
ghost use Rattle.std.specs.Prelude.{◌≡◌, ◌≤◌, None};
ghost use Rattle.std.specs.Float.{binary64, nan};
ghost use Rattle.std.specs.Float.Ieee.{of_bits};

use crate::print::{Judged, Said};
use definition::{Input, Rows};
use output::Results;
use presolve::{Presolved, Space};
use refuse::Refusal;
use std::io;

pub(crate) type Answer = Result<Presolved, Refusal>;

// The junk that lent numbers and lent marks hold.
pub(crate) const JUNK: usize = 18446744073709551615;

const MARK: u8 = 165;

// A model that stands packed: in `floats` objective, lower and upper bounds, coefficients and right
// sides; in `numbers` row starts and indices; in `codes` domains and comparisons. Those and the mode are bytes,
// here and in the calls below, as `Input` has them: some calls are made with a byte that stands for nothing.
#[derive(Clone, Copy)]
pub(crate) struct Packed<'a> {
    pub floats: &'a [f64],
    pub numbers: &'a [usize],
    pub codes: &'a [u8],
}

// The lent slices have `spare` entries more than needed, and hold `junk`. Of all of presolve's
// slices, the model's nine first, the one numbered `short` has one entry less.
#[derive(Clone, Copy)]
pub(crate) struct Plan {
    pub vars: usize,
    pub rows: usize,
    pub terms: usize,
    pub mode: u8,
    pub feas: f64,
    pub int_tol: f64,
    pub spare: usize,
    pub short: Option<usize>,
    pub junk: f64,
}

// The model days' tolerances.
pub(crate) fn sized(vars: usize, rows: usize, terms: usize, mode: u8) -> Plan
    ensures { (result.vars ≡ vars) × (result.rows ≡ rows) × (result.terms ≡ terms) × (result.mode ≡ mode) × (result.spare ≡ 3) × (result.short ≡ None)
        × (result.feas ≡ of_bits binary64 0x3eb0_c6f7_a0b5_ed8d) × (result.int_tol ≡ of_bits binary64 0x3e11_2e0b_e826_d695) × (result.junk ≡ nan) }
{
    Plan {
        vars,
        rows,
        terms,
        mode,
        feas: 0.000001,
        int_tol: 0.000000001,
        spare: 3,
        short: None,
        junk: f64::NAN,
    }
}

// So that sums of sizes fit.
fn size(n: usize) -> usize
    ensures { result ≤ 65537 }
{
    n.min(65537)
}

impl Plan {
    // The length n of the slice numbered k, or one less where that one is to be short.
    fn length(self, n: usize, k: usize) -> usize {
        if self.short == Some(k) {
            n.saturating_sub(1)
        } else {
            n
        }
    }
}

// n entries from a place on, as far as there are so many.
fn part<T>(s: &[T], at: usize, n: usize) -> &[T] {
    let rest = &s[at.min(s.len())..];
    &rest[..n.min(rest.len())]
}

// The first n, as far as there are so many.
fn cut<T>(s: &mut [T], n: usize) -> &mut [T] {
    let n = n.min(s.len());
    &mut s[..n]
}

// What a lent slice may hold after a call: a zero where it is cleared, and junk elsewhere.
trait Held: Copy {
    fn holds(self, zero: bool, junk: f64) -> bool;
}

impl Held for f64 {
    // The zero is +0.0.
    fn holds(self, zero: bool, junk: f64) -> bool {
        if zero {
            return self == 0.0 && 1.0 / self > 0.0;
        }
        self == junk || (self.is_nan() && junk.is_nan())
    }
}

// Like the one below by chance: the junk of numbers and the mark of bytes are two constants.
impl Held for usize {
    fn holds(self, zero: bool, _junk: f64) -> bool {
        self == if zero { 0 } else { JUNK }
    }
}

impl Held for u8 {
    fn holds(self, zero: bool, _junk: f64) -> bool {
        self == if zero { 0 } else { MARK }
    }
}

// From a place on there are zeros up to another, and then junk.
fn hold<T: Held>(s: &[T], from: usize, zeros: usize, junk: f64) -> bool {
    s.iter()
        .enumerate()
        .skip(from)
        .all(|(i, x)| x.holds(i < zeros, junk))
}

// The result slices still hold the junk behind their used fronts. Tests are joined by `&`: each slice is looked at, whatever the others
// hold.
fn results_hold(r: &Results, a: Answer, p: Plan) -> bool {
    let (vars, rows, terms, kept) = match a {
        Ok(Presolved::Model(x)) => (p.vars, x.emitted, x.terms, x.kept),
        _ => (0, 0, 0, 0),
    };
    hold(r.lower, vars, 0, p.junk)
        & hold(r.upper, vars, 0, p.junk)
        & hold(r.emit_row, rows, 0, p.junk)
        & hold(r.emit_rewritten, rows, 0, p.junk)
        & hold(r.emit_rhs, rows, 0, p.junk)
        & hold(r.emit_from, rows, 0, p.junk)
        & hold(r.emit_upto, rows, 0, p.junk)
        & hold(r.kept, kept, 0, p.junk)
        & hold(r.term_index, terms, 0, p.junk)
        & hold(r.term_coeff, terms, 0, p.junk)
}

// How many floats, numbers and places of rows are lent to a call.
#[derive(Clone, Copy)]
struct Lengths {
    floats: usize,
    numbers: usize,
    adjacency: usize,
}

// The working slices hold zeros as far as they were lent to an accepted call, and junk behind.
fn space_holds(s: &Space, lent: Lengths, a: Answer, junk: f64) -> bool {
    let cleared = match a {
        Ok(_) => lent,
        Err(_) => Lengths {
            floats: 0,
            numbers: 0,
            adjacency: 0,
        },
    };
    hold(s.floats, 0, cleared.floats, junk)
        & hold(s.numbers, 0, cleared.numbers, junk)
        & hold(s.adjacency, 0, cleared.adjacency, junk)
}

// What a call hands in of a model.
fn input(p: Plan, m: Packed) -> Input {
    let vars = size(p.vars);
    let rows = size(p.rows);
    let terms = size(p.terms);
    let coeff = 3 * vars;
    Input {
        obj: part(m.floats, 0, p.length(vars, 0)),
        lower: part(m.floats, vars, p.length(vars, 1)),
        upper: part(m.floats, 2 * vars, p.length(vars, 2)),
        domain: part(m.codes, 0, p.length(vars, 3)),
        rows: Rows {
            starts: part(m.numbers, 0, p.length(rows + 1, 4)),
            index: part(m.numbers, rows + 1, p.length(terms, 5)),
            coeff: part(m.floats, coeff, p.length(terms, 6)),
            cmp: part(m.codes, vars, p.length(rows, 7)),
            rhs: part(m.floats, coeff + terms, p.length(rows, 8)),
        },
        mode: p.mode,
        feas: p.feas,
        int_tol: p.int_tol,
    }
}

// One call on the working slices as they are: its answer, and whether the result slices hold what
// they should, which are said apart.
fn call(p: Plan, m: Packed, space: &mut Space) -> (Answer, bool) {
    let v = size(p.vars) + size(p.spare);
    let r = size(p.rows) + size(p.spare);
    let t = size(p.terms) + size(p.spare);
    let mut lower = [p.junk; 4100];
    let mut upper = [p.junk; 4100];
    let mut emit_row = [JUNK; 8196];
    let mut emit_rewritten = [MARK; 8196];
    let mut emit_rhs = [p.junk; 8196];
    let mut emit_from = [JUNK; 8196];
    let mut emit_upto = [JUNK; 8196];
    let mut kept = [JUNK; 8196];
    let mut term_index = [JUNK; 65540];
    let mut term_coeff = [p.junk; 65540];
    let mut lent = Results {
        lower: cut(&mut lower, p.length(v, 9)),
        upper: cut(&mut upper, p.length(v, 10)),
        emit_row: cut(&mut emit_row, p.length(r, 11)),
        emit_rewritten: cut(&mut emit_rewritten, p.length(r, 12)),
        emit_rhs: cut(&mut emit_rhs, p.length(r, 13)),
        emit_from: cut(&mut emit_from, p.length(r, 14)),
        emit_upto: cut(&mut emit_upto, p.length(r, 15)),
        kept: cut(&mut kept, p.length(r, 16)),
        term_index: cut(&mut term_index, p.length(t, 17)),
        term_coeff: cut(&mut term_coeff, p.length(t, 18)),
    };
    let a = presolve::presolve(input(p, m), &mut lent, space);
    let whole = Results {
        lower: &mut lower,
        upper: &mut upper,
        emit_row: &mut emit_row,
        emit_rewritten: &mut emit_rewritten,
        emit_rhs: &mut emit_rhs,
        emit_from: &mut emit_from,
        emit_upto: &mut emit_upto,
        kept: &mut kept,
        term_index: &mut term_index,
        term_coeff: &mut term_coeff,
    };
    (a, results_hold(&whole, a, p))
}

// A line after its name.
fn say(rt: &impl Print, a: Answer, results: bool, working: bool) -> io::Result<()> {
    println!(rt;
        ": {}, results {}, working {}",
        Said(a),
        Judged(results),
        Judged(working)
    )
}

// One call on working slices that hold junk.
pub(crate) fn ask(rt: &impl Print, name: &str, p: Plan, m: Packed) -> io::Result<()> {
    let vars = size(p.vars);
    let rows = size(p.rows);
    let terms = size(p.terms);
    let spare = size(p.spare);
    let lent = Lengths {
        floats: p.length(4 * vars + 8 * rows + terms + spare, 19),
        numbers: p.length(3 * vars + 10 * rows + 2 * terms + 6 + spare, 20),
        adjacency: p.length(vars + terms + 1 + spare, 21),
    };
    let mut floats = [p.junk; 147470];
    let mut numbers = [JUNK; 225300];
    let mut adjacency = [JUNK; 69640];
    let mut space = Space {
        floats: cut(&mut floats, lent.floats),
        numbers: cut(&mut numbers, lent.numbers),
        adjacency: cut(&mut adjacency, lent.adjacency),
    };
    print!(rt; "{name}")?;
    let (a, results) = call(p, m, &mut space);
    let whole = Space {
        floats: &mut floats,
        numbers: &mut numbers,
        adjacency: &mut adjacency,
    };
    say(rt, a, results, space_holds(&whole, lent, a, p.junk))
}

// One call on working slices as an earlier one left them; at first their floats held `held`.
pub(crate) fn ask_again(
    rt: &impl Print,
    p: Plan,
    m: Packed,
    space: &mut Space,
    held: f64,
) -> io::Result<()> {
    let (a, results) = call(p, m, space);
    let lent = Lengths {
        floats: space.floats.len(),
        numbers: space.numbers.len(),
        adjacency: space.adjacency.len(),
    };
    say(rt, a, results, space_holds(space, lent, a, held))
}
