// The line of a constant.
use std::io;
use std::io::Write;
use tables::{ByteVector, Constant, FloatVector};

// The bits of a float. No constant is a NaN; the trial does not lean on it.
fn bits_of(x: f32) -> u32 {
    if x.is_nan() { 0 } else { x.to_bits() }
}

fn write_bytes<W: Write>(output: &mut W, v: ByteVector) -> io::Result<()> {
    writeln!(
        output,
        "int {:02x} {:02x} {:02x} {:02x}",
        v.x, v.y, v.z, v.w
    )
}

fn write_vector<W: Write>(output: &mut W, v: FloatVector) -> io::Result<()> {
    let (x, y, z, w) = (bits_of(v.x), bits_of(v.y), bits_of(v.z), bits_of(v.w));
    writeln!(output, "vec {x:08x} {y:08x} {z:08x} {w:08x}")
}

pub(crate) fn write_constant<W: Write>(
    output: &mut W,
    executable: u32,
    n: u32,
    constant: Constant,
) -> io::Result<()> {
    write!(output, "{executable} {n} ")?;
    match constant {
        Constant::Flag(value) => writeln!(output, "bool {}", u8::from(value)),
        Constant::Bytes(v) => write_bytes(output, v),
        Constant::Vector(v) => write_vector(output, v),
    }
}
