// Tries the layout of libraries: for each file that an argument names, a line with the first of refusals 1 to
// 8 and 13 to 17, or `ok`.

#![tactic(auto)]

use answer::Refusal;
use container::{Limits, executable_count, executable_fault, library_fault, program_of};
use inputs::{each_argument, open_file, read_what_comes};
use std::io;
use std::io::{Read, Write};
use std::rt::Files;

// The first fault of the DVLP, and of the executables that the header counts: at most 16 then.
fn first_fault(file: &[u8]) -> Result<(), Refusal> {
    let limits = Limits {
        words: 512,
        descriptors: 128,
    };
    library_fault(file, limits)?;
    let words = program_of(file).words;
    for index in 0..executable_count(file).min(16) {
        executable_fault(file, words, index, 1, index * 65536)?;
    }
    Ok(())
}

fn write_fault<W: Write>(output: &mut W, fault: Result<(), Refusal>) -> io::Result<()> {
    match fault {
        Ok(()) => writeln!(output, " ok"),
        Err(refusal) => writeln!(output, " {:02} {:08x}", refusal.number(), refusal.place),
    }
}

// One byte more than a library may have is read, so that a longer file is seen to be longer; where a read
// fails, what came before it is tried.
fn fault_of_file<R: Read>(file: &mut R) -> Result<(), Refusal> {
    let mut bytes = [0u8; 65537];
    let (count, _) = read_what_comes(file, &mut bytes);
    first_fault(&bytes[..count])
}

fn write_failure<E: Write>(errors: &mut E, name: &[u8], error: &io::Error) -> io::Result<()> {
    errors.write_all(name)?;
    writeln!(errors, ": {error}")
}

fn try_file<F: Files, W: Write, E: Write>(
    files: &F,
    output: &mut W,
    errors: &mut E,
    name: &[u8],
) -> io::Result<()> {
    match open_file(files, name) {
        Ok(mut file) => {
            let fault = fault_of_file(&mut file);
            output.write_all(name)?;
            write_fault(output, fault)
        }
        Err(error) => write_failure(errors, name, &error),
    }
}

fn main(rt: HostRuntime) -> io::Result<()> {
    let (mut output, mut errors) = (rt.stdout(), rt.stderr());
    each_argument(&rt, |name| {
        try_file(&rt, &mut output, &mut errors, name)
    })?;
    Ok(())
}
