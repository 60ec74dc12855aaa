// Replays a sample of the reference's answers. Standard input has model files, each after its length in
// two bytes; of each it prints its number and the answer. The expected text was made from the
// reference's answers by compare/run sample, and from no run of this program.
#![tactic(auto)]

ghost use Rattle.std.specs.Prelude.{◌≤◌, IfOk};
ghost use Rattle.standard_input.specs.Counts.{IsPrefixLen};

use presolve_file::{FILE_BYTES, Presolve, write_report};
use std::io;
use std::io::Read;

// More than the sample has.
const FILES: u64 = 1000;

// The number that two bytes hold, or as much as a file may have.
fn length(head: [u8; 2]) -> usize
    ensures { result ≤ 9750 }
{
    usize::from(u16::from_le_bytes(head)).min(FILE_BYTES)
}

// Puts the next bytes of the input at the start of file, and answers how many those are: as many as
// there is room for, or as are left. What a failed read is told with is this program's own.
fn read_part(from: &mut impl Read, file: &mut [u8]) -> io::Result<usize>
    ensures { IfOk result (λ n. IsPrefixLen n file.new) }
{
    standard_input::read_input(from, file).map_err(|_| io::Error::other("replay: standard input"))
}

// Reads as many bytes as there is room for, and prints their answer.
fn run_file(rt: &impl Print, from: &mut impl Read, file: &mut [u8]) -> io::Result<()> {
    let n = read_part(from, file)?;
    write_report::<Presolve, _>(&file[..n], &mut io::writer(rt))
}

// Whether there was one more file.
fn run_next(rt: &impl Print, from: &mut impl Read, k: u64) -> io::Result<bool> {
    let mut head = [0u8; 2];
    if read_part(from, &mut head)? < 2 {
        return Ok(false);
    }
    println!(rt; "file {k}")?;
    let mut file = [0u8; FILE_BYTES];
    run_file(rt, from, &mut file[..length(head)])?;
    Ok(true)
}

fn main(rt: HostRuntime) -> io::Result<()> {
    let mut from = rt.stdin();
    for k in 0..FILES {
        if !run_next(&rt, &mut from, k)? {
            break;
        }
    }
    Ok(())
}
