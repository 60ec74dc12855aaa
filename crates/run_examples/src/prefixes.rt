// Every prefix of a file but the file itself: for each length at which the first line that is printed
// changes, the length and that line.
ghost use Rattle.std.specs.Prelude.{◌≡◌, take, length, IfOk};
ghost use Rattle.standard_input.specs.Counts.{IsPrefixLen};

use presolve_file::TEXT_BYTES;
use std::io;
use std::io::Write;

// What stands before the first line's end.
fn first_line(text: &[u8]) -> &[u8]
    ensures { result.now ≡ take (length result.now) text.now }
{
    match text.iter().position(|byte| *byte == b'\n') {
        Some(end) => &text[..end],
        None => text,
    }
}

// Puts a line at the start of kept, as far as there is room, and answers how many bytes that is.
fn keep(line: &[u8], kept: &mut [u8]) -> usize
    ensures { IsPrefixLen result kept.new }
{
    let n = line.len().min(kept.len());
    kept[..n].copy_from_slice(&line[..n]);
    n
}

fn print_line(rt: &impl Print, n: usize, line: &[u8]) -> io::Result<()> {
    print!(rt; "from {n}: ")?;
    io::writer(rt).write_all(line)?;
    rt.print("\n")
}

// One prefix. The first j bytes of last are the line that was printed last, before and after. No Vec, which would ask for memory: no first line
// is longer than last.
fn print_prefix(rt: &impl Print, prefix: &[u8], last: &mut [u8], j: usize) -> io::Result<usize>
    requires { IsPrefixLen j last.old }
    ensures { IfOk result (λ n. IsPrefixLen n last.new) }
{
    let mut text = [0u8; TEXT_BYTES];
    presolve_file::file_text(prefix, &mut text);
    let line = first_line(&text);
    if line == &last[..j] {
        return Ok(j);
    }
    print_line(rt, prefix.len(), line)?;
    Ok(keep(line, last))
}

pub(crate) fn print_prefixes(rt: &impl Print, file: &[u8]) -> io::Result<()> {
    let mut last = [0u8; 64];
    let mut j = 0;
    for n in 0..file.len() {
        j = print_prefix(rt, &file[..n], &mut last, j)?;
    }
    Ok(())
}
