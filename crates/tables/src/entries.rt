// Entries of the label, output and uniform tables: refusals 19, 20 and 21.
ghost use Rattle.std.specs.Prelude.{◌≡◌, not};
ghost use Rattle.answer.specs.Faults.{fault_if, faulted};
ghost use Rattle.answer.specs.Reasons.{number_of};
ghost use Rattle.tables.specs.Entries.{label_fault, output_fault, both_in, in_one_kind, uniform_fault};

use answer::{Reason, Refusal};
use binary::{ByteOffset, WordAddress, u16_at, u32_at};

// The refusal for a reason, unless a test is met.
pub(crate) fn refuse_unless(good: bool, reason: Reason, place: u32) -> Result<(), Refusal>
    ensures { faulted result ≡ fault_if (not good) (number_of reason) place }
{
    if good { Ok(()) } else { Err(reason.at(place)) }
}

// The fault of a label, in a program of `words` words. `names_end` is what the function of that name answers
// for the symbol table.
#[tactic(auto, unfolding(crate::specs::Entries::label_fault, crate::specs::Entries::good_label))]
pub fn label_fault(entry: &[u8], words: u32, names_end: u64, place: u32) -> Result<(), Refusal>
    ensures { faulted result ≡ label_fault entry.now words names_end place }
{
    let address = WordAddress(u32_at(entry, ByteOffset(0x04)));
    let name = ByteOffset(u32_at(entry, ByteOffset(0x0c)) as u64);
    let good = (address <= WordAddress(words)) & (name < ByteOffset(names_end));
    refuse_unless(good, Reason::BadLabel, place)
}

// The fault of an output.
#[tactic(auto, unfolding(crate::specs::Entries::output_fault, crate::specs::Entries::good_output))]
pub fn output_fault(entry: &[u8], place: u32) -> Result<(), Refusal>
    ensures { faulted result ≡ output_fault entry.now place }
{
    let kind = u16_at(entry, ByteOffset(0));
    let register = u16_at(entry, ByteOffset(2));
    let mask = u16_at(entry, ByteOffset(4));
    let good = ((kind <= 6) | (kind == 8)) & (register <= 15) & (1..=15).contains(&mask);
    refuse_unless(good, Reason::BadOutput, place)
}

fn both_in(low: u16, high: u16, start: u16, end: u16) -> bool
    ensures { result ≡ both_in low high start end }
{
    (low..=high).contains(&start) & (low..=high).contains(&end)
}

// Whether both registers are vertex inputs, or both float, integer or bool uniforms.
#[tactic(auto, unfolding(crate::specs::Entries::in_one_kind))]
fn in_one_kind(start: u16, end: u16) -> bool
    ensures { result ≡ in_one_kind start end }
{
    both_in(0x00, 0x0f, start, end)
        | both_in(0x10, 0x6f, start, end)
        | both_in(0x70, 0x73, start, end)
        | both_in(0x78, 0x87, start, end)
}

// The fault of a uniform. `names_end` is as for a label.
#[tactic(auto, unfolding(crate::specs::Entries::uniform_fault, crate::specs::Entries::good_uniform))]
pub fn uniform_fault(entry: &[u8], names_end: u64, place: u32) -> Result<(), Refusal>
    ensures { faulted result ≡ uniform_fault entry.now names_end place }
{
    let name = ByteOffset(u32_at(entry, ByteOffset(0)) as u64);
    let start = u16_at(entry, ByteOffset(4));
    let end = u16_at(entry, ByteOffset(6));
    let good = (start <= end) & in_one_kind(start, end) & (name < ByteOffset(names_end));
    refuse_unless(good, Reason::BadUniform, place)
}
