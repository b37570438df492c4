// A whole library as text, in a lent buffer: the listing of its words, the report of its executables. Nothing
// is written where the library is refused or the buffer is too short.

#![tactic(auto)]

ghost use Rattle.std.specs.Prelude.{◌≡◌, ℕ, ◌<◌, ◌≤◌, length, take, slice_index_or, is_ok};
ghost use Rattle.answer.specs.Answers.{answered};
ghost use Rattle.text.specs.Records.{record_of, line_text, report_text};
ghost use Rattle.verifier.specs.Executables.{no_report};
ghost use Rattle.verifier.specs.Words.{word_at};
ghost use Rattle.listing.specs.Listing.{WritesEach, WritesMade, descriptors_of, list_answer, listed_bytes, room, summary_answer, summary_bytes};

use answer::{Reason, Refusal};
use binary::{ByteOffset, WordAddress, offset_of_word, tail, u32_at};
use container::Table;
use std::io;
use std::io::Write;
use text::{listing_line, refused_line, report_line};
use verifier::{check, judge};

fn word_at(file: &[u8], words: Table, p: u32) -> u32
    ensures { result ≡ word_at file.now words p }
{
    u32_at(tail(file, words.start), offset_of_word(WordAddress(p)))
}

// The descriptors, at the start of an array. In the file each has eight bytes, of which the first four are
// used.
fn descriptors_of(file: &[u8], table: Table) -> [u32; 128]
    requires { table.count ≤ 128 }
    ensures { take table.count result ≡ descriptors_of file.now table }
{
    let bytes = tail(file, table.start);
    let count = table.count as usize;
    let mut descriptors = [0u32; 128];
    for (index, descriptor) in descriptors[..count].iter_mut().enumerate() {
        *descriptor = u32_at(bytes, ByteOffset(index as u64 * 8));
    }
    descriptors
}

// How many bytes so many records have; or refuses a buffer that is too short for them.
fn room_for(out: &[u8], count: u32) -> Result<u32, Refusal>
    requires { count ≤ 512 }
    ensures { answered result ≡ room (length out.now) count }
{
    if out.len() < count as usize * 80 {
        return Err(Reason::BufferTooShort.at(0));
    }
    Ok(count * 80)
}

// Writes the records 0, 1, .., `count` in all, and answers how many bytes they have; or refuses a buffer that
// is too short for them.
fn write_records<F: Fn(u32) -> [u8; 80]>(
    out: &mut [u8],
    count: u32,
    record_at: F,
) -> Result<u32, Refusal>
    requires few { count ≤ 512 }
    requires callable { (i : ℕ) → i < count → F.pre record_at i }
    ensures answers { answered result ≡ room (length out.old) count }
    ensures writes { WritesEach (F.post record_at) count (room (length out.old) count) out.old out.new }
{
    let size = room_for(out, count)?;
    for index in 0..count {
        let at = index as usize * 80;
        out[at..at + 80].copy_from_slice(&record_at(index));
    }
    Ok(size)
}

// The listing: a record for each word, and how many bytes they have.
#[tactic(auto, unfolding(crate::specs::Listing::list_answer, crate::specs::Listing::listed_bytes))]
pub fn list(file: &[u8], out: &mut [u8]) -> Result<u32, Refusal>
    ensures answers { answered result ≡ list_answer file.now (length out.old) }
    ensures writes { out.new ≡ listed_bytes file.now out.old }
{
    let library = check(file)?;
    let program = library.program;
    // Before the descriptors are loaded, so that a short buffer costs no more than the check.
    room_for(out, program.words.count)?;
    let all = descriptors_of(file, program.descriptors);
    let descriptors = &all[..program.descriptors.count as usize];
    write_records(
        out,
        program.words.count,
        |index|
            ensures { result ≡ record_of 80 (line_text index (word_at file.entry.now program.words index) descriptors.entry.now) }
        { listing_line(index, word_at(file, program.words, index), descriptors) },
    )
}

// The report: a record for each executable, and how many bytes they have.
#[tactic(auto, unfolding(crate::specs::Listing::summary_answer, crate::specs::Listing::summary_bytes, verifier::specs::Verdict::judge_of))]
pub fn summarize(file: &[u8], out: &mut [u8]) -> Result<u32, Refusal>
    ensures answers { answered result ≡ summary_answer file.now (length out.old) }
    ensures writes { out.new ≡ summary_bytes file.now out.old }
{
    let judged = judge(file)?;
    write_records(
        out,
        judged.library.executables,
        |index|
            requires { index < 16 }
            ensures { result ≡ record_of 80 (report_text index (slice_index_or judged.reports index no_report)) }
        { report_line(index, judged.reports[index as usize]) },
    )
}

// Writes the text that a call makes of a file in a lent buffer: the bytes that it says to be written there,
// or the record of its refusal.
pub fn write_text<W: Write, F: FnOnce(&[u8], &mut [u8]) -> Result<u32, Refusal>>(
    output: &mut W,
    file: &[u8],
    text: &mut [u8],
    make: F,
) -> io::Result<()>
    requires { F.IsAlwaysCallable make }
    ensures { WritesMade (F.post make) file.now text.old text.new (is_ok result) (W.contents output.old) (W.contents output.new) }
{
    match make(file, text) {
        Ok(written) => output.write_all(&text[..text.len().min(written as usize)]),
        Err(refusal) => output.write_all(&refused_line(refusal.number(), refusal.place)),
    }
}
