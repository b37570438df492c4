// The line of a word.
use answer::Refusal;
use instruction::{Fields, decode, encode};
use std::io;
use std::io::Write;

// What follows the word on its line: the format, and each field by its name.
fn write_fields<W: Write>(output: &mut W, fields: Fields) -> io::Result<()> {
    match fields {
        Fields::Format0(op, rest) => writeln!(output, " format=0 op={op} rest={rest}"),
        Fields::Format1(op, desc, src2, src1, idx1, dst) => writeln!(
            output,
            " format=1 op={op} desc={desc} src2={src2} src1={src1} idx1={idx1} dst={dst}"
        ),
        Fields::Format1i(op, desc, src2, src1, idx2, dst) => writeln!(
            output,
            " format=1i op={op} desc={desc} src2={src2} src1={src1} idx2={idx2} dst={dst}"
        ),
        Fields::Format1u(op, desc, rest, src1, idx1, dst) => writeln!(
            output,
            " format=1u op={op} desc={desc} rest={rest} src1={src1} idx1={idx1} dst={dst}"
        ),
        Fields::Format1c(op, desc, src2, src1, idx1, cmpy, cmpx) => writeln!(
            output,
            " format=1c op={op} desc={desc} src2={src2} src1={src1} idx1={idx1} cmpy={cmpy} cmpx={cmpx}"
        ),
        Fields::Format2(op, num, rest, dst, condop, refy, refx) => writeln!(
            output,
            " format=2 op={op} num={num} rest={rest} dst={dst} condop={condop} refy={refy} refx={refx}"
        ),
        Fields::Format3(op, num, rest, dst, id) => writeln!(
            output,
            " format=3 op={op} num={num} rest={rest} dst={dst} id={id}"
        ),
        Fields::Format4(op, rest, winding, primemit, vtxid) => writeln!(
            output,
            " format=4 op={op} rest={rest} winding={winding} primemit={primemit} vtxid={vtxid}"
        ),
        Fields::Format5(op, desc, src3, src2, src1, idx2, dst) => writeln!(
            output,
            " format=5 op={op} desc={desc} src3={src3} src2={src2} src1={src1} idx2={idx2} dst={dst}"
        ),
        Fields::Format5i(op, desc, src3, src2, src1, idx3, dst) => writeln!(
            output,
            " format=5i op={op} desc={desc} src3={src3} src2={src2} src1={src1} idx3={idx3} dst={dst}"
        ),
    }
}

// The word that a word's fields encode to, and these: a known word's line starts with it, so that the line is
// right only if both ways are.
fn both_ways(word: u32) -> Result<(u32, Fields), Refusal> {
    let fields = decode(word)?;
    Ok((encode(fields)?, fields))
}

pub(crate) fn write_line<W: Write>(output: &mut W, word: u32) -> io::Result<()> {
    match both_ways(word) {
        Ok((encoded, fields)) => {
            write!(output, "{encoded:08X}")?;
            write_fields(output, fields)
        }
        // The place of 9 and of 31 is 0.
        Err(refusal) => writeln!(
            output,
            "{word:08X} refused {:02} 00000000",
            refusal.number()
        ),
    }
}
