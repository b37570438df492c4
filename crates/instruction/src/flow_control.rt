// What a word does to control flow.
#![tactic(auto, using(crate::proofs::Formats::by_range), unfolding(crate::specs::Control::control_of, crate::specs::Words::decode_of))]

ghost use Rattle.std.specs.Prelude.{◌≡◌, ◌<◌, ◌≤◌};
ghost use Rattle.bits.specs.Fields.{field};
ghost use Rattle.instruction.specs.Control.{control_of, is_block, is_untested};

use binary::WordAddress;
use bits::field;

// When a word of control flow is taken: always; by the outcome of comparisons, which comes from outside; by a
// bool register.
#[derive(Clone, Copy, Debug, PartialEq, Eq)]
pub enum Condition {
    Always,
    Compared,
    Uniform(u32),
}

#[derive(Clone, Copy)]
pub enum Control {
    // No operation has the opcode.
    Unknown,
    // Goes on at the next word.
    Plain,
    // EMIT or SETEMIT, which go on at the next word too.
    Emit,
    End,
    Break(Condition),
    // Condition, DST, NUM.
    If(Condition, WordAddress, u32),
    // Integer register, DST.
    Loop(u32, WordAddress),
    // Condition, DST, NUM.
    Call(Condition, WordAddress, u32),
    // Condition, DST, NUM.
    Jump(Condition, WordAddress, u32),
}

// The opcodes of control flow and output: 20h to 2Dh. The one that is left is NOP. Expanded where it is
// called, so that a caller reads the fields of its own kinds of word alone.
#[inline(always)]
fn flow_control_of(op: u32, word: u32) -> Control
    requires { (op ≡ field 26 6 word) × (0x20 ≤ op) × (op < 0x2e) }
    ensures { result ≡ control_of word }
{
    let num = field(word, 0, 8);
    let dst = field(word, 10, 12);
    let id = field(word, 22, 4);
    match op {
        0x20 => Control::Break(Condition::Always),
        0x22 => Control::End,
        0x23 => Control::Break(Condition::Compared),
        0x24 => Control::Call(Condition::Always, WordAddress(dst), num),
        0x25 => Control::Call(Condition::Compared, WordAddress(dst), num),
        0x26 => Control::Call(Condition::Uniform(id), WordAddress(dst), num),
        0x27 => Control::If(Condition::Uniform(id), WordAddress(dst), num),
        0x28 => Control::If(Condition::Compared, WordAddress(dst), num),
        0x29 => Control::Loop(id, WordAddress(dst)),
        0x2a | 0x2b => Control::Emit,
        0x2c => Control::Jump(Condition::Compared, WordAddress(dst), num),
        0x2d => Control::Jump(Condition::Uniform(id), WordAddress(dst), num),
        _ => Control::Plain,
    }
}

// Goes by ranges of opcodes, so that the compiler expands the test where it is called: most words are plain.
pub fn control_of(word: u32) -> Control
    ensures { result ≡ control_of word }
{
    let op = field(word, 26, 6);
    match op {
        0x00..=0x0f => Control::Plain,
        0x10..=0x11 => Control::Unknown,
        0x12..=0x13 => Control::Plain,
        0x14..=0x17 => Control::Unknown,
        0x18..=0x1b => Control::Plain,
        0x1c..=0x1f => Control::Unknown,
        0x20..=0x2d => flow_control_of(op, word),
        _ => Control::Plain,
    }
}

// Whether a word is an IF or a LOOP, told by its opcode alone: a search over own words asks it of each.
#[tactic(auto, using(crate::proofs::ByOpcode::block_of))]
pub fn is_block(word: u32) -> bool
    ensures { result ≡ is_block (control_of word) }
{
    matches!(field(word, 26, 6), 0x27..=0x29)
}

// Whether nothing of a word is tested where it is visited, told by its opcode alone: it is NOP or END, or of
// neither control flow nor output.
#[tactic(auto, using(crate::proofs::Untested::untested_of))]
pub fn is_untested(word: u32) -> bool
    ensures { result ≡ is_untested (control_of word) }
{
    !matches!(field(word, 26, 6), 0x20 | 0x23..=0x2d)
}
