// Tries `listing` on the libraries of standard input: for each its listing and then its report.
// Its stdin is that of trial_check; its stdout was made from the outside listings and reports.

#![tactic(auto)]

use listing::{list, summarize, write_text};
use std::io;
use std::io::Write;
use stream::each_library;

// The buffers have room for a record for each of 512 words and of 16 executables.
fn write_texts<W: Write>(output: &mut W, file: &[u8]) -> io::Result<()> {
    write_text(output, file, &mut [0u8; 40960], list)?;
    write_text(output, file, &mut [0u8; 1280], summarize)
}

fn main(rt: HostRuntime) -> io::Result<()> {
    each_library(&mut rt.stdin(), &mut rt.stdout(), |_, output, file| {
        write_texts(output, file)?;
        Ok(true)
    })
}
