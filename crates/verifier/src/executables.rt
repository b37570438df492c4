// The executables of a library: refusals 13 to 28, and their reports.
ghost use Rattle.std.specs.Prelude.{◌≡◌, ◌+◌, ◌*◌, ◌-◌, ◌≤◌};
ghost use Rattle.answer.specs.Answers.{given, answered};
ghost use Rattle.answer.specs.Faults.{first_in};
ghost use Rattle.verifier.specs.Executables.{entry_at, one_executable, no_report, report_with, report_of};
ghost use Rattle.verifier.specs.Lists.{filled};
ghost use Rattle.verifier.specs.Inside.{Loaded};
ghost use Rattle.verifier.specs.Verdict.{answer_by};

use crate::earlier::{Earlier, flow_after, good_entries, names_after};
use crate::verdict::{Library, Report};
use answer::Refusal;
use binary::{ByteOffset, tail};
use container::{Executable, Table, executable_fault, executable_of};
use flow::Measured;
use tables::{constant_fault, label_fault, output_fault, uniform_fault};

// The bytes of a table from an entry on.
fn entry_of(file: &[u8], table: Table, size: u64, entry: u32) -> &[u8]
    requires { table.start.0 + entry * size ≤ 65536 }
    ensures { result.now ≡ entry_at file.now table size entry }
{
    tail(file, ByteOffset(table.start.0 + entry as u64 * size))
}

#[tactic(auto, using(crate::proofs::Ones::ones_in_lem))]
fn report_with(e: Executable, measured: Measured) -> Report
    ensures { result ≡ report_with e (given measured) }
{
    let main = e.main;
    let endmain = e.endmain;
    Report {
        shader_type: e.shader_type,
        main,
        endmain,
        inputs: u16::count_ones(e.input_mask),
        outputs: u16::count_ones(e.output_mask),
        constants: e.constants.count,
        words: measured.words,
        total: measured.total,
    }
}

// 13 to 28 of the executables from `first` up to `end`, in their order, and the reports of these: one
// executable alone is a range of one. Good entries, names and the flow are taken over from the executable
// before, where it has the same. Reports are answered exactly where these have no fault; of the executables
// before and after them nothing is said.
pub(crate) fn judge_executables(
    file: &[u8],
    library: Library,
    words: &[u32],
    first: u32,
    end: u32,
) -> Result<[Report; 16], Refusal>
    requires { Loaded file.now library words.now × (end ≤ 16) }
    ensures { answered result ≡ answer_by (first_in (one_executable file.now library.program) first (end - first)) (filled (report_of file.now library.program) first 16 (end - first) no_report) }
{
    let count = library.program.words.count;
    let mut found = Ok(());
    let mut reports = [Report::default(); 16];
    let mut earlier = None;
    'executables: for index in first..end {
        let place = index * 65536;
        found = executable_fault(file, library.program.words, index, 1, place);
        if found.is_err() {
            break 'executables;
        }
        let e = executable_of(file, index);
        let names = names_after(file, earlier, e.symbols);
        let known = good_entries(earlier, e, names);
        for entry in known.constants..e.constants.count {
            found = constant_fault(entry_of(file, e.constants, 20, entry), place + entry);
            if found.is_err() {
                break 'executables;
            }
        }
        for entry in known.labels..e.labels.count {
            found = label_fault(
                entry_of(file, e.labels, 16, entry),
                count,
                names,
                place + entry,
            );
            if found.is_err() {
                break 'executables;
            }
        }
        for entry in known.outputs..e.outputs.count {
            found = output_fault(entry_of(file, e.outputs, 8, entry), place + entry);
            if found.is_err() {
                break 'executables;
            }
        }
        for entry in known.uniforms..e.uniforms.count {
            found = uniform_fault(entry_of(file, e.uniforms, 8, entry), names, place + entry);
            if found.is_err() {
                break 'executables;
            }
        }
        match flow_after(words, earlier, e) {
            Err(refusal) => {
                found = Err(refusal.reason.at(place + refusal.place));
                break 'executables;
            }
            Ok(measured) => {
                let i = (index - first) as usize;
                reports[i] = report_with(e, measured);
                earlier = Some(Earlier {
                    executable: e,
                    names,
                    measured,
                });
            }
        }
    }
    found?;
    Ok(reports)
}
