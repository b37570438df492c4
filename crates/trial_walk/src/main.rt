// Tries `walk` on the libraries of standard input, each with settings after it: for each walk its steps and
// its first 48 words. The settings stand in the stream as libraries do, and an empty piece ends those of a
// library. Its stdin holds the outside libraries and settings, and its stdout was made from the outside
// walks.

#![tactic(auto)]

mod lines;

use binary::{ByteOffset, Range, bytes_of, tail, u8_at};
use lines::write_walk;
use std::io;
use std::io::{Read, Write};
use stream::each_library;
use walk::walk;

// Settings are one byte for the executable, 16 bools, 4 bytes x, and the truth list.
fn walk_with<W: Write>(output: &mut W, file: &[u8], settings: &[u8]) -> io::Result<()> {
    let executable = u8_at(settings, ByteOffset(0)) as u32;
    let bools = Range {
        start: ByteOffset(1),
        size: 16,
    };
    let ints = Range {
        start: ByteOffset(17),
        size: 4,
    };
    let mut fetched = [0u16; 48];
    let answer = walk(
        file,
        executable,
        bytes_of(settings, bools),
        bytes_of(settings, ints),
        tail(settings, ByteOffset(21)),
        &mut fetched,
    );
    write_walk(output, answer, &fetched)
}

// Walks with one setting after another, up to an empty piece.
fn walk_with_each<R: Read, W: Write>(input: &mut R, output: &mut W, file: &[u8]) -> io::Result<()> {
    each_library(input, output, |_, output, settings| {
        if settings.is_empty() {
            return Ok(false);
        }
        walk_with(output, file, settings)?;
        Ok(true)
    })
}

fn main(rt: HostRuntime) -> io::Result<()> {
    each_library(&mut rt.stdin(), &mut rt.stdout(), |input, output, file| {
        walk_with_each(input, output, file)?;
        Ok(true)
    })
}
