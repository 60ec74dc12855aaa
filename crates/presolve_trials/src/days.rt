// The twelve model days, with every lent slice longer than needed and full of junk.
use crate::lend::{Packed, ask, sized};
use std::io;

// p in one row of one term. cmp and mode are bytes, as `lend` says.
fn single(rt: &impl Print, name: &str, cmp: u8, rhs: f64) -> io::Result<()> {
    let m = Packed {
        floats: &[0.0, 0.0, 10.0, 2.0, rhs],
        numbers: &[0, 1, 0],
        codes: &[0, cmp],
    };
    ask(rt, name, sized(1, 1, 1, 1), m)
}

// u + v in one row.
fn pair(rt: &impl Print, name: &str, rhs: f64, mode: u8) -> io::Result<()> {
    let m = Packed {
        floats: &[0.0, 0.0, 0.0, 0.0, 1.0, 1.0, 1.0, 1.0, rhs],
        numbers: &[0, 2, 0, 1],
        codes: &[2, 2, 2],
    };
    ask(rt, name, sized(2, 1, 2, mode), m)
}

// No term in one row.
fn empty(rt: &impl Print, name: &str, rhs: f64) -> io::Result<()> {
    let m = Packed {
        floats: &[rhs],
        numbers: &[0, 0],
        codes: &[1],
    };
    ask(rt, name, sized(0, 1, 0, 1), m)
}

pub(crate) fn all(rt: &impl Print) -> io::Result<()> {
    single(rt, "day 1", 1, 7.0)?;
    single(rt, "day 2", 1, 6.0)?;
    single(rt, "day 3", 0, 7.0)?;
    single(rt, "day 4", 1, 1.0)?;
    pair(rt, "day 5", 2.0, 1)?;
    pair(rt, "day 6", 1.0, 1)?;
    pair(rt, "day 7", 3.0, 1)?;
    let m = Packed {
        floats: &[0.0, 0.0, 0.0, 0.0, 1.0, 8.0, 3.0, 1.0, 10.0],
        numbers: &[0, 2, 0, 1],
        codes: &[2, 0, 1],
    };
    ask(rt, "day 8", sized(2, 1, 2, 1), m)?;
    pair(rt, "day 9", 2.0, 0)?;
    let m = Packed {
        floats: &[0.0, 0.4, 0.6],
        numbers: &[0],
        codes: &[0],
    };
    ask(rt, "day 10", sized(1, 0, 0, 1), m)?;
    empty(rt, "day 11", -0.0000001)?;
    empty(rt, "day 12", -1.0)
}
