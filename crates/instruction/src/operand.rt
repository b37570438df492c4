// What a word uses beside its registers: an operand descriptor, compare operators. The parts of a descriptor.
#![tactic(auto, using(crate::proofs::Formats::by_range), unfolding(crate::specs::Operands::descriptor_of, crate::specs::Operands::operators_of, crate::specs::Words::decode_of))]

ghost use Rattle.std.specs.Prelude.{◌≡◌, ◌<◌};
ghost use Rattle.instruction.specs.Operands.{descriptor_of, operators_of, takes_any_fields, source_at, mask_of, source1_of, source2_of, source3_of};

use crate::decoding::MAD_DESC_BITS;
use bits::field;

// The ID of the operand descriptor that a word uses, if it uses one. Goes by ranges of opcodes, as
// `control_of` does. DESC starts at bit 0, and that of MAD and MADI is shorter.
pub fn descriptor_of(word: u32) -> Option<u32>
    ensures { result ≡ descriptor_of word }
{
    match field(word, 26, 6) {
        0x00..=0x0f => Some(field(word, 0, 7)),
        0x10..=0x11 => None,
        0x12..=0x13 => Some(field(word, 0, 7)),
        0x14..=0x17 => None,
        0x18..=0x1b => Some(field(word, 0, 7)),
        0x1c..=0x2d => None,
        0x2e..=0x2f => Some(field(word, 0, 7)),
        _ => Some(field(word, 0, MAD_DESC_BITS)),
    }
}

// The compare operators of a CMP, of the components x and of the components y: 0 to 7 as the word has them.
#[derive(Clone, Copy, Debug, PartialEq, Eq)]
pub struct CompareOperators {
    pub x: u32,
    pub y: u32,
}

// Only CMP, 2Eh and 2Fh, has operators.
pub fn compare_operators_of(word: u32) -> Option<CompareOperators>
    ensures { result ≡ operators_of word }
{
    matches!(field(word, 26, 6), 0x2e..=0x2f).then_some(CompareOperators {
        x: field(word, 24, 3),
        y: field(word, 21, 3),
    })
}

// Whether none of 9 to 12 can refuse the word, whatever its fields hold: the opcodes 20h to 2Dh (control
// flow, output, NOP) but LOOP, whose register has a limit.
#[tactic(auto, using(crate::proofs::ByOpcode::any_fields_of))]
pub fn takes_any_fields(word: u32) -> bool
    ensures { result ≡ takes_any_fields word }
{
    let op = field(word, 26, 6);
    matches!(op, 0x20..=0x2d) && op != 0x29
}

// How a source is read: whether it is negated, and for each component which of x, y, z, w (0 to 3) it takes.
#[derive(Clone, Copy, Debug, PartialEq, Eq)]
pub struct Source {
    pub negated: bool,
    pub components: [u32; 4],
}

// The parts of the source that start at a bit of the descriptor.
fn source_at(descriptor: u32, pos: u32) -> Source
    requires { pos < 32 }
    ensures { result ≡ source_at pos descriptor }
{
    Source {
        negated: field(descriptor, pos, 1) == 1,
        components: [
            field(descriptor, pos + 7, 2),
            field(descriptor, pos + 5, 2),
            field(descriptor, pos + 3, 2),
            field(descriptor, pos + 1, 2),
        ],
    }
}

// An operand descriptor: the first four bytes of its entry.
#[derive(Clone, Copy, Debug, PartialEq, Eq)]
pub struct Descriptor(pub u32);

impl Descriptor {
    // The components that are written: x is 8, y 4, z 2, w 1.
    pub fn mask(self) -> u32
        ensures { result ≡ mask_of self.0 }
    {
        field(self.0, 0, 4)
    }

    pub fn source1(self) -> Source
        ensures { result ≡ source1_of self.0 }
    {
        source_at(self.0, 4)
    }

    pub fn source2(self) -> Source
        ensures { result ≡ source2_of self.0 }
    {
        source_at(self.0, 13)
    }

    pub fn source3(self) -> Source
        ensures { result ≡ source3_of self.0 }
    {
        source_at(self.0, 22)
    }
}
