// The largest sizes: 4,096 Integer variables, 8,192 rows and 65,536 terms, each row with the next
// eight variables in turn; then one more of each. The lent slices are exactly as long as needed.
ghost use Rattle.std.specs.Prelude.{◌≤◌};

use crate::lend::{self, Packed};
use std::io;

// From a place on, every eighth entry is a, and the others are b.
fn fill(s: &mut [f64], from: usize, a: f64, b: f64) {
    for (i, x) in s.iter_mut().enumerate().skip(from) {
        *x = if i % 8 == 0 { a } else { b };
    }
}

// Of each eight variables the first is 0 or 1, with coefficient `first`, and the others are 0 to
// `upper`, with coefficient 1. cmp is a byte, as `lend` says.
#[derive(Clone, Copy)]
struct Large {
    vars: usize,
    rows: usize,
    terms: usize,
    first: f64,
    upper: f64,
    cmp: u8,
    rhs: f64,
}

// All rows are Ge 8, and every coefficient and upper bound is 1.
const FORCED: Large = Large {
    vars: 4096,
    rows: 8192,
    terms: 65536,
    first: 1.0,
    upper: 1.0,
    cmp: 2,
    rhs: 8.0,
};

fn model(rt: &impl Print, name: &str, l: Large) -> io::Result<()>
    requires vars_bound { l.vars ≤ 4097 }
    requires rows_bound { l.rows ≤ 8193 }
    requires terms_bound { l.terms ≤ 65537 }
{
    let mut floats = [0.0; 86021];
    let mut numbers = [0; 73731];
    let mut codes = [0; 12290];
    fill(&mut floats, 2 * l.vars, 1.0, l.upper);
    fill(&mut floats, 3 * l.vars, l.first, 1.0);
    floats[3 * l.vars + l.terms..].fill(l.rhs);
    for (i, start) in numbers.iter_mut().enumerate() {
        *start = 8 * i;
    }
    for (i, index) in numbers.iter_mut().skip(l.rows + 1).enumerate() {
        *index = i % 4096;
    }
    codes[l.vars..].fill(l.cmp);
    let mut p = lend::sized(l.vars, l.rows, l.terms, 1);
    p.spare = 0;
    let m = Packed {
        floats: &floats,
        numbers: &numbers,
        codes: &codes,
    };
    lend::ask(rt, name, p, m)
}

pub(crate) fn all(rt: &impl Print) -> io::Result<()> {
    model(rt, "all forced", FORCED)?;
    let rewritten = Large {
        first: 3.0,
        upper: 8.0,
        cmp: 1,
        rhs: 57.0,
        ..FORCED
    };
    model(rt, "all rewritten", rewritten)?;
    model(
        rt,
        "4097 variables",
        Large {
            vars: 4097,
            ..FORCED
        },
    )?;
    model(
        rt,
        "8193 rows",
        Large {
            rows: 8193,
            ..FORCED
        },
    )?;
    model(
        rt,
        "65537 terms",
        Large {
            terms: 65537,
            ..FORCED
        },
    )
}
