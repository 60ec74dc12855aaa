// Reading a whole input into a lent buffer, for the programs.
#![tactic(auto)]

ghost use Rattle.std.specs.Prelude.{IfOk};
ghost use Rattle.standard_input.specs.Counts.{IsPrefixLen};

use std::io;
use std::io::Read;

// Reads until file is full or the input ends: how many bytes that is. A read that fails is no file that
// ends early.
pub fn read_input<R: Read>(from: &mut R, file: &mut [u8]) -> io::Result<usize>
    ensures { IfOk result (λ n. IsPrefixLen n file.new) }
{
    let mut at = 0;
    // A read takes as many bytes as it likes, so no range has these steps.
    while at < file.len() {
        let n = from.read(&mut file[at..])?;
        if n == 0 {
            break;
        }
        at += n;
    }
    Ok(at)
}
