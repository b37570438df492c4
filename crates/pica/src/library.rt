// The check, the report, the listing and the report's records.
ghost use Rattle.std.specs.Prelude.{◌≡◌, Ok, length};
ghost use Rattle.answer.specs.Answers.{answered, map_answer};
ghost use Rattle.listing.specs.Listing.{list_answer, listed_bytes, summary_answer, summary_bytes};
ghost use Rattle.pica.specs.Libraries.{acceptance, ExactlyClean, report_numbers, report_reply, Kept, KeepsToTotal};
ghost use Rattle.pica.specs.Replies.{Answered, value_of, buffer_after};

use crate::reply::{packed, replied};
use answer::Refusal;
use listing::{list, summarize};
use verifier::{Report, check, report_of};

// The whole check: 0 if the library is accepted.
#[unsafe(no_mangle)]
pub extern "C" fn pica_check(file: &[u8]) -> u64
    ensures answers { Answered (acceptance file.now) result }
    ensures exactly { ExactlyClean file.now result }
{
    packed(check(file).map(|_| 0))
}

fn report_numbers(report: Report) -> [u32; 8]
    ensures { result ≡ report_numbers report }
{
    [
        u32::from(report.shader_type),
        report.main.0,
        report.endmain.0,
        report.inputs,
        report.outputs,
        report.constants,
        report.words,
        report.total,
    ]
}

fn write_report(file: &[u8], executable: u32, out: &mut [u32]) -> Result<u32, Refusal>
    ensures answers { answered result ≡ map_answer value_of (report_reply file.now executable (length out.old)) }
    ensures writes { out.new ≡ buffer_after out.old (report_reply file.now executable (length out.old)) }
    ensures runs { result ≡ Ok 8 → Kept file.now executable out.new }
{
    let report = report_of(file, executable)?;
    replied(8, &report_numbers(report), out)
}

// The report of an executable: 8, and its eight numbers in `out`.
#[unsafe(no_mangle)]
pub extern "C" fn pica_report(file: &[u8], executable: u32, out: &mut [u32]) -> u64
    ensures answers { Answered (map_answer value_of (report_reply file.now executable (length out.old))) result }
    ensures writes { out.new ≡ buffer_after out.old (report_reply file.now executable (length out.old)) }
    ensures runs { KeepsToTotal file.now executable result out.new }
{
    packed(write_report(file, executable, out))
}

// The listing, a record for each word: how many bytes were written.
#[unsafe(no_mangle)]
pub extern "C" fn pica_list(file: &[u8], out: &mut [u8]) -> u64
    ensures answers { Answered (list_answer file.now (length out.old)) result }
    ensures writes { out.new ≡ listed_bytes file.now out.old }
{
    packed(list(file, out))
}

// The report's records, one for each executable: how many bytes were written.
#[unsafe(no_mangle)]
pub extern "C" fn pica_summarize(file: &[u8], out: &mut [u8]) -> u64
    ensures answers { Answered (summary_answer file.now (length out.old)) result }
    ensures writes { out.new ≡ summary_bytes file.now out.old }
{
    packed(summarize(file, out))
}
