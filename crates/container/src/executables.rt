// A DVLE: refusals 13 to 17.
ghost use Rattle.std.specs.Prelude.{◌≡◌, ◌||◌, drop, length};
ghost use Rattle.answer.specs.Faults.{faulted};
ghost use Rattle.container.specs.Executable.{executable_base, executable_of, misplaced_section, bad_entry, misplaced_tables, overlapped_by_tables, executable_fault};

use crate::placement::{Section, Table, is_bad_table, words_meet};
use answer::{Reason, Refusal};
use binary::{ByteOffset, Range, WordAddress, is_inside, tail, u8_at, u16_at, u32_at};

// "DVLE", as a little-endian number.
const DVLE: u32 = 0x454c_5644;

// What an executable says of itself: its shader's type, where it is entered and where it ends, its register
// masks, its tables.
#[derive(Clone, Copy)]
pub struct Executable {
    pub shader_type: u8,
    pub main: WordAddress,
    pub endmain: WordAddress,
    pub input_mask: u16,
    pub output_mask: u16,
    pub constants: Table,
    pub labels: Table,
    pub outputs: Table,
    pub uniforms: Table,
    pub symbols: Table,
}

// The DVLE of an executable, which starts where the header says.
fn executable_section(file: &[u8], index: u32) -> Section<'_>
    ensures starts { result.base.0 ≡ executable_base file.now index }
    ensures holds { result.bytes.now ≡ drop (executable_base file.now index) file.now }
{
    let base = ByteOffset(u32_at(file, ByteOffset(8 + index as u64 * 4)) as u64);
    Section {
        bytes: tail(file, base),
        base,
    }
}

// What the DVLE holds whose offset is at an index of the header; past the header's count it is whatever
// stands there, so a caller tests 29 first.
pub fn executable_of(file: &[u8], index: u32) -> Executable
    ensures { result ≡ executable_of file.now index }
{
    let section = executable_section(file, index);
    Executable {
        shader_type: u8_at(section.bytes, ByteOffset(0x06)),
        main: WordAddress(u32_at(section.bytes, ByteOffset(0x08))),
        endmain: WordAddress(u32_at(section.bytes, ByteOffset(0x0c))),
        input_mask: u16_at(section.bytes, ByteOffset(0x10)),
        output_mask: u16_at(section.bytes, ByteOffset(0x12)),
        constants: section.table(0x18),
        labels: section.table(0x20),
        outputs: section.table(0x28),
        uniforms: section.table(0x30),
        symbols: section.table(0x38),
    }
}

// Whether a DVLE's offset is unaligned, or its 64 bytes are outside the file or share a byte with the opcode
// table.
#[tactic(auto, unfolding(crate::specs::Executable::misplaced_section))]
fn is_misplaced_section(base: ByteOffset, words: Table, file: &[u8]) -> bool
    ensures { result ≡ misplaced_section base.0 words (length file.now) }
{
    let section = Range {
        start: base,
        size: 64,
    };
    (base.0 % 4 != 0) | !is_inside(section, file) | words_meet(words, section)
}

// Whether it is not so that main < endmain ≤ words.
#[tactic(auto, unfolding(crate::specs::Executable::bad_entry))]
fn is_bad_entry(main: WordAddress, endmain: WordAddress, words: u32) -> bool
    ensures { result ≡ bad_entry main.0 endmain.0 words }
{
    (endmain <= main) | (WordAddress(words) < endmain)
}

// Whether one of the five tables is unaligned, outside the file, or shares a byte with the opcode table.
#[tactic(auto, unfolding(crate::specs::Executable::misplaced_tables, crate::specs::Executable::overlapped_by_tables))]
fn has_bad_table(e: Executable, words: Table, file: &[u8]) -> bool
    ensures { result ≡ (misplaced_tables (length file.now) e || overlapped_by_tables words e) }
{
    is_bad_table(e.constants, 4, 20, words, file)
        | is_bad_table(e.labels, 4, 16, words, file)
        | is_bad_table(e.outputs, 4, 8, words, file)
        | is_bad_table(e.uniforms, 4, 8, words, file)
        | is_bad_table(e.symbols, 1, 1, words, file)
}

// Refusals 13 to 17 of an executable, the first that applies, at the place given. `words` is the opcode
// table, `most_type` the highest type allowed.
#[tactic(auto, unfolding(crate::specs::Executable::executable_fault))]
pub fn executable_fault(
    file: &[u8],
    words: Table,
    index: u32,
    most_type: u8,
    place: u32,
) -> Result<(), Refusal>
    ensures { faulted result ≡ executable_fault most_type words file.now index place }
{
    let base = executable_section(file, index).base;
    if is_misplaced_section(base, words, file) {
        return Err(Reason::MisplacedExecutable.at(place));
    }
    if u32_at(file, base) != DVLE {
        return Err(Reason::NoExecutable.at(place));
    }
    let e = executable_of(file, index);
    if most_type < e.shader_type {
        return Err(Reason::UnknownType.at(place));
    }
    if is_bad_entry(e.main, e.endmain, words.count) {
        return Err(Reason::BadEntry.at(place));
    }
    if has_bad_table(e, words, file) {
        return Err(Reason::MisplacedTable.at(place));
    }
    Ok(())
}
