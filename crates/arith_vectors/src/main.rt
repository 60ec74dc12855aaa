// Vectors for the arithmetic crates: each line is a function's name, its operands and its result,
// floats as the 16 digits of their patterns. The expected text is computed from exact fractions by
// tools/arith_vectors.py, and not from a run of this program.
#![tactic(auto)]

mod bits;
mod doubles;
mod helpers;
mod rows;

use std::io;

fn main(rt: HostRuntime) -> io::Result<()> {
    helpers::all(&rt)?;
    doubles::all(&rt)?;
    rows::all(&rt)
}
