// The line of an input that is cut short.
use std::io;
use std::io::Write;

pub(crate) fn write_cut_length<W: Write>(output: &mut W, got: usize) -> io::Result<()> {
    writeln!(output, "cut short: {got} bytes of a length")
}

pub(crate) fn write_cut_library<W: Write>(
    output: &mut W,
    got: usize,
    length: usize,
) -> io::Result<()> {
    writeln!(output, "cut short: {got} bytes of {length}")
}
