// Runs each model file that an argument names: the name, what is printed for the file, and what its
// prefixes are refused with. tools/examples.py writes the expected text, from the files
// examples/**/*.expected and by a reader of its own, and from no run.
#![tactic(auto)]

mod prefixes;

use presolve_file::{FILE_BYTES, Presolve, write_report};
use std::fs::File;
use std::io::Read;
use std::rt::Files;
use std::{env, io};

// Of longer files the prefixes are not run.
const PREFIXES: usize = 7000;

fn run_file(rt: &impl Print, file: &[u8]) -> io::Result<()> {
    write_report::<Presolve, _>(file, &mut io::writer(rt))?;
    if file.len() <= PREFIXES {
        prefixes::print_prefixes(rt, file)?;
    }
    Ok(())
}

// What a failed read is told with is this program's own.
fn run_open(rt: &impl Print, opened: &mut impl Read) -> io::Result<()> {
    let mut file = [0u8; FILE_BYTES];
    let read = standard_input::read_input(opened, &mut file);
    let n = read.map_err(|_| io::Error::other("run_examples: a file"))?;
    run_file(rt, &file[..n])
}

// A file that cannot be opened is named on standard error.
fn run_path(rt: &(impl Files + Print + Eprint), path: &str) -> io::Result<()> {
    println!(rt; "== {path}")?;
    match File::open(rt, path) {
        Ok(mut opened) => run_open(rt, &mut opened),
        Err(error) => eprintln!(rt; "{path}: {error}"),
    }
}

fn main(rt: HostRuntime) -> io::Result<()> {
    for path in env::args(&rt)?.skip(1) {
        run_path(&rt, path.as_str())?;
    }
    Ok(())
}
