// The words of a library: refusals 9 to 12.
ghost use Rattle.std.specs.Prelude.{◌≡◌, true, ◌+◌, ◌*◌, ◌≤◌, ◌<◌, min, length, replicate};
ghost use Rattle.answer.specs.Faults.{faulted};
ghost use Rattle.binary.specs.Bytes.{u32_at};
ghost use Rattle.verifier.specs.Words.{loaded_words, word_fault, words_fault};

use answer::{Reason, Refusal};
use binary::{WordAddress, offset_of_word, tail, u32_at};
use container::Table;
use instruction::{Control, compare_operators_of, control_of, descriptor_of, takes_any_fields};

// The word at `p` of a table. If the whole table is there no length is tested, so that the compiler copies
// many words at once.
fn word_at(bytes: &[u8], whole: bool, p: usize) -> u32
    requires fits { p < 512 }
    requires there { whole ≡ true → p * 4 + 4 ≤ length bytes.now }
    ensures { result ≡ u32_at bytes.now (p * 4) }
{
    let at = offset_of_word(WordAddress(p as u32));
    if whole {
        let i = at.0 as usize;
        return u32::from_le_bytes([bytes[i], bytes[i + 1], bytes[i + 2], bytes[i + 3]]);
    }
    u32_at(bytes, at)
}

// Fills the caller's array of zeros with the words of the opcode table, of more than 512 the first: handed
// back by value it would be copied. After 1 to 8 the whole table is there.
pub(crate) fn load_words(file: &[u8], table: Table, words: &mut [u32; 512])
    requires { words.old ≡ replicate 512 0 }
    ensures { words.new ≡ loaded_words file.now table }
{
    let bytes = tail(file, table.start);
    let count = table.count.min(512);
    let end = offset_of_word(WordAddress(count));
    let whole = end.0 <= bytes.len() as u64;
    for (p, word) in words[..count as usize].iter_mut().enumerate() {
        *word = word_at(bytes, whole, p);
    }
}

// The words of the opcode table in an array: of more than 512 the first, and after fewer zeros.
pub fn words_of(file: &[u8], table: Table) -> [u32; 512]
    ensures { result ≡ loaded_words file.now table }
{
    let mut words = [0u32; 512];
    load_words(file, table, &mut words);
    words
}

// The fault of one word, in a library of so many descriptors. A word that takes any fields is passed by its
// opcode alone, which is quicker.
#[tactic(auto, unfolding(crate::specs::Words::word_fault), using(crate::proofs::AnyFields::no_fault))]
fn word_fault(word: u32, descriptors: u32, place: u32) -> Result<(), Refusal>
    ensures { faulted result ≡ word_fault descriptors word place }
{
    if takes_any_fields(word) {
        return Ok(());
    }
    let control = control_of(word);
    if matches!(control, Control::Unknown) {
        return Err(Reason::UnknownOpcode.at(place));
    }
    if compare_operators_of(word).is_some_and(|o| (5 < o.x) | (5 < o.y)) {
        return Err(Reason::BadOperator.at(place));
    }
    if descriptor_of(word).is_some_and(|id| descriptors <= id) {
        return Err(Reason::MissingDescriptor.at(place));
    }
    if matches!(control, Control::Loop(4.., _)) {
        return Err(Reason::BadRegister.at(place));
    }
    Ok(())
}

// Refusals 9 to 12: words ascending, the first that applies at each.
pub(crate) fn words_fault(words: &[u32], descriptors: u32) -> Result<(), Refusal>
    requires { length words.now ≤ 512 }
    ensures { faulted result ≡ words_fault descriptors words.now }
{
    for (p, word) in words.iter().enumerate() {
        word_fault(*word, descriptors, p as u32)?;
    }
    Ok(())
}
