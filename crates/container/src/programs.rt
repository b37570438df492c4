// The header and the DVLP: refusals 1 to 8.
ghost use Rattle.std.specs.Prelude.{◌≡◌, ◌||◌, drop, length};
ghost use Rattle.answer.specs.Faults.{faulted};
ghost use Rattle.container.specs.Program.{count_of, program_base, program_of, header_fault, bad_sizes, misplaced_table, overlapped_words, program_fault, library_fault};

use crate::placement::{Section, Table, is_bad_table, is_misplaced, words_meet};
use answer::{Reason, Refusal};
use binary::{ByteOffset, Range, tail, u32_at};

// "DVLB" and "DVLP", as little-endian numbers.
const DVLB: u32 = 0x424c_5644;

const DVLP: u32 = 0x504c_5644;

// Where the words and the descriptors lie and how many there are; the line table and the symbol table of file
// names.
#[derive(Clone, Copy)]
pub struct Program {
    pub words: Table,
    pub descriptors: Table,
    pub lines: Table,
    pub file_names: Table,
}

// The most words and descriptors that a library may have.
#[derive(Clone, Copy)]
pub struct Limits {
    pub words: u32,
    pub descriptors: u32,
}

// How many executables the header says there are.
pub fn executable_count(file: &[u8]) -> u32
    ensures { result ≡ count_of file.now }
{
    u32_at(file, ByteOffset(4))
}

// The DVLP, which starts after the header.
fn program_section(file: &[u8]) -> Section<'_>
    ensures starts { result.base.0 ≡ program_base file.now }
    ensures holds { result.bytes.now ≡ drop (program_base file.now) file.now }
{
    let base = ByteOffset(8 + executable_count(file) as u64 * 4);
    Section {
        bytes: tail(file, base),
        base,
    }
}

// What the DVLP holds, in a file of any kind.
pub fn program_of(file: &[u8]) -> Program
    ensures { result ≡ program_of file.now }
{
    let section = program_section(file);
    Program {
        words: section.table(0x08),
        descriptors: section.table(0x10),
        lines: section.table(0x18),
        file_names: section.table(0x20),
    }
}

// 1 to 4: the file's length and its header.
#[tactic(auto, unfolding(crate::specs::Program::header_fault))]
fn header_fault(file: &[u8]) -> Result<(), Refusal>
    ensures { faulted result ≡ header_fault file.now }
{
    if 65536 < file.len() {
        return Err(Reason::FileTooLong.at(0));
    }
    if file.len() < 8 {
        return Err(Reason::FileTooShort.at(0));
    }
    if u32_at(file, ByteOffset(0)) != DVLB {
        return Err(Reason::NoLibrary.at(0));
    }
    let n = executable_count(file);
    if (n == 0) | (16 < n) {
        return Err(Reason::ExecutableCount.at(0));
    }
    Ok(())
}

// Whether there are no words, too many words or too many descriptors.
#[tactic(auto, unfolding(crate::specs::Program::bad_sizes))]
fn has_bad_sizes(program: Program, limits: Limits) -> bool
    ensures { result ≡ bad_sizes limits program }
{
    (program.words.count == 0)
        | (limits.words < program.words.count)
        | (limits.descriptors < program.descriptors.count)
}

// Whether one of the four tables is unaligned or outside the file, or the opcode table shares a byte with
// another or with the header and the DVLP, which together are `size` bytes from the file's start.
#[tactic(auto, unfolding(crate::specs::Program::misplaced_table, crate::specs::Program::overlapped_words))]
fn has_bad_table(program: Program, size: u64, file: &[u8]) -> bool
    ensures { result ≡ (misplaced_table (length file.now) program || overlapped_words size program) }
{
    let words = program.words;
    let first = Range {
        start: ByteOffset(0),
        size,
    };
    is_misplaced(words, 4, 4, file)
        | words_meet(words, first)
        | is_bad_table(program.descriptors, 4, 8, words, file)
        | is_bad_table(program.lines, 4, 8, words, file)
        | is_bad_table(program.file_names, 1, 1, words, file)
}

// 5 to 8: the DVLP and its tables.
#[tactic(auto, unfolding(crate::specs::Program::program_fault))]
fn program_fault(file: &[u8], limits: Limits) -> Result<(), Refusal>
    ensures { faulted result ≡ program_fault limits file.now }
{
    let base = program_section(file).base;
    let end = base.0 + 40;
    if (file.len() as u64) < end {
        return Err(Reason::FileCutOff.at(0));
    }
    if u32_at(file, base) != DVLP {
        return Err(Reason::NoProgram.at(0));
    }
    let program = program_of(file);
    if has_bad_sizes(program, limits) {
        return Err(Reason::TableSizes.at(0));
    }
    if has_bad_table(program, end, file) {
        return Err(Reason::MisplacedProgramTable.at(0));
    }
    Ok(())
}

// Refusals 1 to 8, the first that applies.
#[tactic(auto, unfolding(crate::specs::Program::library_fault))]
pub fn library_fault(file: &[u8], limits: Limits) -> Result<(), Refusal>
    ensures { faulted result ≡ library_fault limits file.now }
{
    header_fault(file)?;
    program_fault(file, limits)
}
