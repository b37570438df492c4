// The verdict on a whole library, and the reports of its executables.
ghost use Rattle.std.specs.Prelude.{◌≡◌};
ghost use Rattle.answer.specs.Answers.{answered, given, or_missing};
ghost use Rattle.verifier.specs.Promise.{AcceptsClean, Promises, PromisesAll};
ghost use Rattle.verifier.specs.Verdict.{check_of, judge_of, judged_as, report_answer};

use crate::executables::judge_executables;
use crate::words::{load_words, words_fault};
use answer::{Reason, Refusal};
use binary::WordAddress;
use container::{Limits, Program, executable_count, library_fault, program_of};

// Where the tables of an accepted library lie, and how many executables, words and descriptors it has.
#[derive(Clone, Copy)]
pub struct Library {
    pub executables: u32,
    pub program: Program,
}

impl Library {
    // 29 for an executable that is not there.
    pub fn require(self, executable: u32) -> Result<(), Refusal>
        ensures { answered result ≡ or_missing executable self.executables (given tt) }
    {
        if self.executables <= executable {
            return Err(Reason::NotThere.at(0));
        }
        Ok(())
    }
}

// The report of an executable: its type, main and endmain, the ones in its input and output masks, its
// constants, the distinct words visited, the total.
#[derive(Clone, Copy, Default)]
pub struct Report {
    pub shader_type: u8,
    pub main: WordAddress,
    pub endmain: WordAddress,
    pub inputs: u32,
    pub outputs: u32,
    pub constants: u32,
    pub words: u32,
    pub total: u32,
}

// An accepted library, and the report of each executable; zeros where there is none.
#[derive(Clone, Copy)]
pub struct Judged {
    pub library: Library,
    pub reports: [Report; 16],
}

// One pass over the library: 1 to 8, then 9 to 12, then 13 to 28 of each executable.
pub fn judge(file: &[u8]) -> Result<Judged, Refusal>
    ensures answers { judged_as result ≡ judge_of file.now }
    ensures runs { PromisesAll file.now result }
{
    let limits = Limits {
        words: 512,
        descriptors: 128,
    };
    library_fault(file, limits)?;
    let program = program_of(file);
    let executables = executable_count(file);
    let count = program.words.count as usize;
    let mut loaded = [0u32; 512];
    load_words(file, program.words, &mut loaded);
    let words = &loaded[..count];
    words_fault(words, program.descriptors.count)?;
    let library = Library {
        executables,
        program,
    };
    let reports = judge_executables(file, library, words, 0, executables)?;
    Ok(Judged { library, reports })
}

// The whole check.
pub fn check(file: &[u8]) -> Result<Library, Refusal>
    ensures answers { answered result ≡ check_of file.now }
    ensures exactly { AcceptsClean file.now result }
{
    let accepted = judge(file)?;
    Ok(accepted.library)
}

// The whole check, then 29 for an executable that is not there, else its report.
pub fn report_of(file: &[u8], executable: u32) -> Result<Report, Refusal>
    ensures answers { answered result ≡ report_answer file.now executable }
    ensures runs { Promises file.now executable result }
{
    let judged = judge(file)?;
    judged.library.require(executable)?;
    let reports = judged.reports;
    Ok(reports[executable as usize])
}
