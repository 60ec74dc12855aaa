// Reads one model file on standard input, whose objective is a plan, and prints whether that plan is good: what it breaks first and the
// largest excursion. A program needs its own `main`; what it shares with presolve_main is `answer_input`.
#![tactic(auto)]

use plan_file::Plan;
use presolve_file::answer_input;
use std::io;

fn main(rt: HostRuntime) -> io::Result<()> {
    let to = &mut io::writer(&rt);
    answer_input::<Plan, _, _>(&mut rt.stdin(), to, "presolve: standard input")
}
