// The list of operations: which opcode has which format.
#![tactic(auto, using(crate::proofs::Formats::by_range))]

ghost use Rattle.std.specs.Prelude.{◌≡◌, ◌<◌, ◌≤◌, Some};
ghost use Rattle.instruction.specs.Operations.{format_of, entry_format};

// The formats of document 01.
#[derive(Clone, Copy, Debug, PartialEq, Eq)]
pub enum Format {
    F0,
    F1,
    F1i,
    F1u,
    F1c,
    F2,
    F3,
    F4,
    F5,
    F5i,
}

// The opcodes below 20h.
fn arithmetic_format(opcode: u32) -> Option<Format>
    requires { opcode < 0x20 }
    ensures { result ≡ format_of opcode }
{
    match opcode {
        0x00..=0x04 | 0x08..=0x0a | 0x0c..=0x0d => Some(Format::F1),
        0x05..=0x07 | 0x0b | 0x0e..=0x0f | 0x12..=0x13 => Some(Format::F1u),
        0x18..=0x1b => Some(Format::F1i),
        _ => None,
    }
}

// The opcodes of control flow and output, which are all listed.
fn control_format(opcode: u32) -> Format
    requires { (0x20 ≤ opcode) × (opcode < 0x2e) }
    ensures { Some result ≡ format_of opcode }
{
    match opcode {
        0x20..=0x22 | 0x2a => Format::F0,
        0x2b => Format::F4,
        0x23..=0x25 | 0x28 | 0x2c => Format::F2,
        _ => Format::F3,
    }
}

// The format of the operation that has the opcode, if one has. In three parts, each of which is small enough
// for the compiler to expand where it is called.
pub(crate) fn format_of(opcode: u32) -> Option<Format>
    ensures { result ≡ format_of opcode }
{
    match opcode {
        0x00..=0x1f => arithmetic_format(opcode),
        0x20..=0x2d => Some(control_format(opcode)),
        0x2e..=0x2f => Some(Format::F1c),
        0x30..=0x37 => Some(Format::F5i),
        0x38..=0x3f => Some(Format::F5),
        _ => None,
    }
}

// The format of the entry whose lowest opcode is `op`, if one has that number.
#[tactic(auto, using(crate::proofs::Formats::by_number))]
pub(crate) fn entry_format(op: u32) -> Option<Format>
    ensures { result ≡ entry_format op }
{
    match op {
        0x2f | 0x31..=0x37 | 0x39..=0x3f => None,
        _ => format_of(op),
    }
}
