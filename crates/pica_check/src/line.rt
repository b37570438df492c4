// The line of a file: its name, and what the bench says of it.
ghost use Rattle.std.specs.Prelude.{◌++◌, OnOk};
ghost use Rattle.std.specs.Io.KnownBytes.{Appends};

use answer::Refusal;
use std::io;
use std::io::Write;
use text::refused_line;
use verifier::Library;

pub(crate) fn write_line<W: Write>(output: &mut W, name: &[u8], said: &[u8]) -> io::Result<()>
    ensures { OnOk result (Appends (W.contents output.old) (W.contents output.new) (name.now ++ said.now)) }
{
    output.write_all(name)?;
    output.write_all(said)
}

// The number and the place are those of the report's record, whose other columns are spaces: one of them
// parts the place from the words.
fn write_refusal<W: Write>(output: &mut W, refusal: Refusal) -> io::Result<()> {
    let record = refused_line(refusal.number(), refusal.place);
    output.write_all(&record[..20])?;
    writeln!(output, "{}", refusal.reason)
}

pub(crate) fn write_verdict<W: Write>(
    output: &mut W,
    name: &[u8],
    verdict: Result<Library, Refusal>,
) -> io::Result<()> {
    match verdict {
        Ok(_) => write_line(output, name, b": accepted\n"),
        Err(refusal) => {
            write_line(output, name, b": ")?;
            write_refusal(output, refusal)
        }
    }
}
