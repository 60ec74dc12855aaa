// The least lent space, one entry less of each slice, and one working space for several calls.
use crate::lend::{self, JUNK, Packed};
use presolve::Space;
use std::io;

// How many slices a call of presolve is lent: the number that is printed where none is short.
const SLICES: usize = 22;

// u + v <= 1 and v >= 1.
fn lent(rt: &impl Print, spare: usize, short: usize) -> io::Result<()> {
    let mut p = lend::sized(2, 2, 3, 1);
    p.spare = spare;
    p.short = (short < SLICES).then_some(short);
    p.junk = 7.25;
    let m = Packed {
        floats: &[0.0, 0.0, 0.0, 0.0, 1.0, 1.0, 1.0, 1.0, 1.0, 1.0, 1.0],
        numbers: &[0, 2, 3, 0, 1, 1],
        codes: &[2, 2, 1, 2],
    };
    print!(rt; "spare {spare} short {short}")?;
    lend::ask(rt, "", p, m)
}

// At the last number each slice is exactly as long as needed.
fn shorts(rt: &impl Print) -> io::Result<()> {
    for k in 0..SLICES + 1 {
        lent(rt, 0, k)?;
    }
    Ok(())
}

// One row of u and v.
fn turn(
    rt: &impl Print,
    name: &str,
    floats: &[f64],
    codes: &[u8],
    space: &mut Space,
) -> io::Result<()> {
    let m = Packed {
        floats,
        numbers: &[0, 2, 0, 1],
        codes,
    };
    print!(rt; "{name}")?;
    lend::ask_again(rt, lend::sized(2, 1, 2, 1), m, space, 7.25)
}

// Day 7 is infeasible, day 8 rewritten.
fn again(rt: &impl Print) -> io::Result<()> {
    let mut space = Space {
        floats: &mut [7.25; 64],
        numbers: &mut [JUNK; 64],
        adjacency: &mut [JUNK; 64],
    };
    let f = [0.0, 0.0, 0.0, 0.0, 1.0, 1.0, 1.0, 1.0, 3.0];
    turn(rt, "first day 7", &f, &[2, 2, 2], &mut space)?;
    let g = [0.0, 0.0, 0.0, 0.0, 1.0, 8.0, 3.0, 1.0, 10.0];
    turn(rt, "then day 8", &g, &[2, 0, 1], &mut space)?;
    turn(rt, "then day 8", &g, &[2, 0, 1], &mut space)
}

pub(crate) fn all(rt: &impl Print) -> io::Result<()> {
    shorts(rt)?;
    lent(rt, 1, SLICES)?;
    again(rt)
}
