// Refusals 3 to 9, what is just not refused, and which of several faults is named.
ghost use Rattle.std.specs.Prelude.{◌≤◌};

use crate::lend::{Packed, ask, sized};
use std::io;

// Two Boolean variables in two rows.
fn starts(rt: &impl Print, name: &str, numbers: &[usize]) -> io::Result<()> {
    let m = Packed {
        floats: &[0.0, 0.0, 0.0, 0.0, 1.0, 1.0, 1.0, 1.0, 2.0, 2.0],
        numbers,
        codes: &[2, 2, 1, 1],
    };
    ask(rt, name, sized(2, 2, 2, 1), m)
}

// One variable in one row. Codes are bytes, here and below, as `lend` says.
fn codes(rt: &impl Print, name: &str, mode: u8, domain: u8, cmp: u8) -> io::Result<()> {
    let m = Packed {
        floats: &[0.0, 0.0, 1.0, 1.0, 2.0],
        numbers: &[0, 1, 0],
        codes: &[domain, cmp],
    };
    ask(rt, name, sized(1, 1, 1, mode), m)
}

fn row(rt: &impl Print, name: &str, floats: &[f64], cmp: u8) -> io::Result<()> {
    let m = Packed {
        floats,
        numbers: &[0, 1, 0],
        codes: &[1, cmp],
    };
    ask(rt, name, sized(1, 1, 1, 1), m)
}

fn tolerances(rt: &impl Print, name: &str, feas: f64, int_tol: f64) -> io::Result<()> {
    let mut p = sized(1, 1, 1, 1);
    p.feas = feas;
    p.int_tol = int_tol;
    let m = Packed {
        floats: &[0.0, 0.0, 1.0, 1.0, 2.0],
        numbers: &[0, 1, 0],
        codes: &[1, 1],
    };
    ask(rt, name, p, m)
}

fn shapes(rt: &impl Print) -> io::Result<()> {
    starts(rt, "first start 1", &[1, 2, 2, 0, 1])?;
    starts(rt, "a start falls", &[0, 3, 2, 0, 1])?;
    starts(rt, "last start 1", &[0, 1, 1, 0, 1])?;
    starts(rt, "index 2", &[0, 2, 2, 0, 2])?;
    starts(rt, "an index twice", &[0, 2, 2, 1, 1])?;
    starts(rt, "an index falls", &[0, 2, 2, 1, 0])?;
    starts(rt, "falls to the next row", &[0, 1, 2, 1, 0])?;
    codes(rt, "domain 3", 1, 3, 1)?;
    codes(rt, "comparison 3", 1, 1, 3)?;
    codes(rt, "mode 3", 3, 1, 1)?;
    codes(rt, "mode 2", 2, 2, 1)
}

fn numbers(rt: &impl Print, inf: f64, nan: f64) -> io::Result<()> {
    row(rt, "lower NaN", &[0.0, nan, 1.0, 1.0, 2.0], 1)?;
    row(rt, "upper NaN", &[0.0, 0.0, nan, 1.0, 2.0], 1)?;
    row(rt, "lower +infinity", &[0.0, inf, inf, 1.0, 2.0], 1)?;
    row(rt, "upper -infinity", &[0.0, -inf, -inf, 1.0, 2.0], 1)?;
    row(rt, "no bounds", &[0.0, -inf, inf, 1.0, 2.0], 1)?;
    row(rt, "objective infinite", &[inf, 0.0, 1.0, 1.0, 2.0], 1)?;
    row(rt, "coefficient NaN", &[0.0, 0.0, 1.0, nan, 2.0], 1)?;
    row(rt, "Eq +infinity", &[0.0, 0.0, 1.0, 1.0, inf], 0)?;
    row(rt, "Le -infinity", &[0.0, 0.0, 1.0, 1.0, -inf], 1)?;
    row(rt, "Ge NaN", &[0.0, 0.0, 1.0, 1.0, nan], 2)?;
    row(rt, "Le +infinity", &[0.0, 0.0, 1.0, 1.0, inf], 1)
}

fn limits(rt: &impl Print, nan: f64) -> io::Result<()> {
    tolerances(rt, "feasibility 0.51", 0.51, 0.0)?;
    tolerances(rt, "feasibility NaN", nan, 0.0)?;
    tolerances(rt, "int_tol 0.51", 0.0, 0.51)?;
    tolerances(rt, "int_tol below 0", 0.0, -5e-324)?;
    tolerances(rt, "both 0.5", 0.5, 0.5)?;
    tolerances(rt, "both 0", 0.0, 0.0)?;
    let nothing = Packed {
        floats: &[],
        numbers: &[0],
        codes: &[],
    };
    ask(rt, "nothing", sized(0, 0, 0, 1), nothing)
}

// One row of so many variables of this domain, from 0 to 1, each once with this coefficient, that add up to at most 1. The second
// term's variable is told too, and which slice is one entry short.
fn long(
    rt: &impl Print,
    terms: usize,
    mode: u8,
    domain: u8,
    coeff: f64,
    second: usize,
    short: Option<usize>,
) -> io::Result<()>
    requires { terms ≤ 257 }
{
    let mut floats = [0.0; 1029];
    let mut numbers = [0; 259];
    let mut codes = [1; 258];
    floats[2 * terms..].fill(1.0);
    floats[3 * terms..4 * terms].fill(coeff);
    numbers[1] = terms;
    for (i, index) in numbers.iter_mut().skip(2).enumerate() {
        *index = i;
    }
    numbers[3] = second;
    codes[..terms].fill(domain);
    let mut p = sized(terms, 1, terms, mode);
    p.short = short;
    p.spare = 0;
    print!(rt; "{terms} terms, mode {mode}, domain {domain}, second {second}")?;
    let m = Packed {
        floats: &floats,
        numbers: &numbers,
        codes: &codes,
    };
    ask(rt, "", p, m)
}

// A row of 256 terms passes and one of 257 does not, zeros too; 18 is looked at after 4 and before 5 and 10.
fn lengths(rt: &impl Print) -> io::Result<()> {
    for mode in 0..3 {
        long(rt, 256, mode, 2, 1.0, 1, None)?;
        long(rt, 257, mode, 2, 1.0, 1, None)?;
        long(rt, 257, mode, 2, 0.0, 1, None)?;
    }
    long(rt, 257, 1, 2, 1.0, 0, None)?;
    long(rt, 257, 1, 3, 1.0, 1, None)?;
    long(rt, 257, 3, 2, 1.0, 1, None)?;
    long(rt, 257, 1, 2, 1.0, 1, Some(9))
}

// Fault k and all later ones. Fault 2 takes a large model, so here 2 is as 3.
fn faults(rt: &impl Print, k: usize) -> io::Result<()> {
    let nan = f64::NAN;
    let mut p = sized(1, 1, 1, 1);
    p.feas = if k <= 9 { 0.51 } else { 0.5 };
    p.short = if k <= 1 {
        Some(0)
    } else if k <= 10 {
        Some(9)
    } else {
        None
    };
    p.spare = 0;
    let obj = if k <= 7 { nan } else { 0.0 };
    let lower = if k <= 6 { nan } else { 0.0 };
    let rhs = if k <= 8 { nan } else { 2.0 };
    let cmp = if k <= 5 { 3 } else { 1 };
    let start = if k <= 3 { 1 } else { 0 };
    let index = if k <= 4 { 1 } else { 0 };
    print!(rt; "faults from {k}")?;
    let m = Packed {
        floats: &[obj, lower, 1.0, 1.0, rhs],
        numbers: &[start, 1, index],
        codes: &[1, cmp],
    };
    ask(rt, "", p, m)
}

fn ladder(rt: &impl Print) -> io::Result<()> {
    for k in 1..12 {
        faults(rt, k)?;
    }
    Ok(())
}

pub(crate) fn all(rt: &impl Print) -> io::Result<()> {
    let inf = f64::INFINITY;
    let nan = f64::NAN;
    shapes(rt)?;
    numbers(rt, inf, nan)?;
    limits(rt, nan)?;
    lengths(rt)?;
    ladder(rt)
}
