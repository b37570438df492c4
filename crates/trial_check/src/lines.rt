// The lines of a library.
use answer::Refusal;
use std::io;
use std::io::Write;
use verifier::{Judged, Report};

fn write_report<W: Write>(output: &mut W, index: u32, report: Report) -> io::Result<()> {
    writeln!(
        output,
        "exe {index} type {} main {} end {} in {} out {} con {} words {} most {}",
        report.shader_type,
        report.main.0,
        report.endmain.0,
        report.inputs,
        report.outputs,
        report.constants,
        report.words,
        report.total
    )
}

// An accepted library has at most 16 executables. The trial does not lean on that, so that a wrong count
// shows in the lines.
fn write_reports<W: Write>(output: &mut W, judged: Judged) -> io::Result<()> {
    let executables = judged.library.executables;
    writeln!(output, "accepted {executables}")?;
    for (index, report) in (0..executables).zip(judged.reports) {
        write_report(output, index, report)?;
    }
    Ok(())
}

pub(crate) fn write_judged<W: Write>(
    output: &mut W,
    judged: Result<Judged, Refusal>,
) -> io::Result<()> {
    match judged {
        Ok(judged) => write_reports(output, judged),
        Err(refusal) => writeln!(output, "{refusal}"),
    }
}
