// Reads one model file on standard input, presolves its model and prints the answer. A program needs its own `main`;
// what it shares with presolve_facts is `answer_input`.
#![tactic(auto)]

use presolve_file::{Presolve, answer_input};
use std::io;

fn main(rt: HostRuntime) -> io::Result<()> {
    let to = &mut io::writer(&rt);
    answer_input::<Presolve, _, _>(&mut rt.stdin(), to, "presolve: standard input")
}
