// Judges the libraries that its arguments name: a line for each, accepted, or what is wrong.

#![tactic(auto)]

mod line;

use inputs::{each_argument, open_file, read_full};
use line::{write_line, write_verdict};
use std::io;
use std::io::Write;
use std::rt::Files;
use verifier::check;

// One byte more than a library may have is read, so that a longer file is refused and not cut.
fn judge_file<F: Files, W: Write>(files: &F, output: &mut W, name: &[u8]) -> io::Result<()> {
    let Ok(mut file) = open_file(files, name) else {
        return write_line(output, name, b": cannot be opened\n");
    };
    let mut bytes = [0u8; 65537];
    // A file that cannot be read is not an empty one.
    match read_full(&mut file, &mut bytes) {
        Ok(count) => write_verdict(output, name, check(&bytes[..count])),
        Err(_) => write_line(output, name, b": cannot be read\n"),
    }
}

fn main(rt: HostRuntime) -> io::Result<()> {
    let mut output = rt.stdout();
    if each_argument(&rt, |name| judge_file(&rt, &mut output, name))? == 0 {
        return eprintln!(rt; "usage: pica_check FILE..");
    }
    Ok(())
}
