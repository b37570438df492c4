// Tries `constant` on the libraries of standard input: a line for each of the first 13 constants of each
// executable, and one for the first that is not there. Its stdin holds the outside libraries that have
// constants, and its stdout was made from the outside constants.

#![tactic(auto)]

mod lines;

use lines::write_constant;
use std::io;
use std::io::Write;
use stream::each_library;
use verifier::check;
use walk::constant;

// Writes a constant, and answers whether it is there.
fn write_next<W: Write>(output: &mut W, file: &[u8], executable: u32, n: u32) -> io::Result<bool> {
    match constant(file, executable, n) {
        Ok(constant) => {
            write_constant(output, executable, n, constant)?;
            Ok(true)
        }
        Err(refusal) => {
            writeln!(output, "{executable} {n} {refusal}")?;
            Ok(false)
        }
    }
}

// The outside constants are the first 13 of each executable.
fn write_constants<W: Write>(output: &mut W, file: &[u8], executable: u32) -> io::Result<()> {
    for n in 0..13 {
        if !write_next(output, file, executable, n)? {
            break;
        }
    }
    Ok(())
}

// The constants of one executable after another, none of a refused library, and then the refusal of the first
// that is not there.
fn write_executables<W: Write>(output: &mut W, file: &[u8]) -> io::Result<()> {
    let executables = check(file).map_or(0, |library| library.executables);
    for executable in 0..executables {
        write_constants(output, file, executable)?;
    }
    write_next(output, file, executables, 0)?;
    Ok(())
}

fn main(rt: HostRuntime) -> io::Result<()> {
    each_library(&mut rt.stdin(), &mut rt.stdout(), |_, output, file| {
        write_executables(output, file)?;
        Ok(true)
    })
}
