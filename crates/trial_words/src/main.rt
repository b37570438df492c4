// Tries `instruction` on the words of standard input, each four bytes with the lowest first: a line for each.

#![tactic(auto)]

mod line;

use inputs::read_full;
use line::write_line;
use std::io;
use std::io::{Read, Write};

fn write_cut_short<W: Write>(output: &mut W, left: usize) -> io::Result<()> {
    writeln!(output, "cut short: {left} bytes left over")
}

// A line for each whole word, and one for the bytes that are left over.
fn write_lines<W: Write>(output: &mut W, bytes: &[u8]) -> io::Result<()> {
    let (words, left) = bytes.as_chunks::<4>();
    for word in words {
        write_line(output, u32::from_le_bytes(*word))?;
    }
    if !left.is_empty() {
        write_cut_short(output, left.len())?;
    }
    Ok(())
}

// Reads once and answers whether to go on. 4 divides the buffer's length, so no word lies in two reads; it is
// short so that the trial takes two.
fn write_some<R: Read, W: Write>(input: &mut R, output: &mut W) -> io::Result<bool> {
    let mut bytes = [0u8; 1024];
    let n = read_full(input, &mut bytes)?;
    write_lines(output, &bytes[..n])?;
    Ok(n == bytes.len())
}

// A proved loop has to end, and nothing says that the input does. So the loop counts its turns, up to a
// number that no run uses up.
fn write_every_line<R: Read, W: Write>(input: &mut R, output: &mut W) -> io::Result<()> {
    for _ in 0..u64::MAX {
        if !write_some(input, output)? {
            break;
        }
    }
    Ok(())
}

fn main(rt: HostRuntime) -> io::Result<()> {
    write_every_line(&mut rt.stdin(), &mut rt.stdout())
}
