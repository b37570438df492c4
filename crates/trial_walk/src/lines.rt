// The line of a walk.
use answer::Refusal;
use std::io;
use std::io::Write;

// The words of the first steps, as many as the list has, and dots if there were more.
fn write_words<W: Write>(output: &mut W, steps: u32, fetched: &[u16]) -> io::Result<()> {
    for word in fetched.iter().take(steps as usize) {
        write!(output, " {word}")?;
    }
    if fetched.len() < steps as usize {
        write!(output, " ...")?;
    }
    Ok(())
}

pub(crate) fn write_walk<W: Write>(
    output: &mut W,
    answer: Result<u32, Refusal>,
    fetched: &[u16],
) -> io::Result<()> {
    match answer {
        Ok(steps) => {
            write!(output, "steps {steps} fetched")?;
            write_words(output, steps, fetched)?;
            writeln!(output)
        }
        Err(refusal) => writeln!(output, "{refusal}"),
    }
}
