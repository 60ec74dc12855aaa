// Calls of presolve as a caller may make them: with lent slices that hold junk, that are exactly as
// long as needed or one short, on the working space of an earlier call, with each fault that is
// refused, and at the largest sizes. A line for each call: its name, the answer, and whether the
// lent slices hold what they should. The expected text is written by tools/trials_expected.py, and
// not by a run of this program.
#![tactic(auto)]

mod days;
mod exact;
mod large;
mod lend;
mod print;
mod refusals;

use std::io;

fn main(rt: HostRuntime) -> io::Result<()> {
    days::all(&rt)?;
    exact::all(&rt)?;
    refusals::all(&rt)?;
    large::all(&rt)
}
