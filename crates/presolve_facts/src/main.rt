// Reads one model file on standard input and prints whether its model is 01's farm model, for which the
// promise about points is made, with a whole objective: `numbers whole`, or `numbers`, the condition that fails and its
// place. 8 is the objective, asked last: a model that is told to fail there is a farm model. A program needs its own
// `main`; what it shares with presolve_main is `answer_input`.
#![tactic(auto)]

use numbers_file::Numbers;
use presolve_file::answer_input;
use std::io;

fn main(rt: HostRuntime) -> io::Result<()> {
    let to = &mut io::writer(&rt);
    answer_input::<Numbers, _, _>(&mut rt.stdin(), to, "presolve: standard input")
}
