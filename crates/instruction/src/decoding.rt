// Words into fields.
ghost use Rattle.std.specs.Prelude.{◌≡◌};
ghost use Rattle.answer.specs.Answers.{answered};
ghost use Rattle.instruction.specs.Words.{format0, format1, format1i, format1u, format1c, format2, format3, format4, format5, format5i, fields_as, decode_of};

use crate::operation::{Format, format_of};
use answer::{Reason, Refusal};
use bits::field;

// The fields of a word, a variant for each format. First the operation's number, which is the lowest opcode
// of its entry; then the fields from bit 0 up, under document 004's names; `rest` are the bits that the
// format does not name.
#[derive(Clone, Copy, Debug, PartialEq, Eq)]
pub enum Fields {
    // op, rest
    Format0(u32, u32),
    // op, desc, src2, src1, idx1, dst
    Format1(u32, u32, u32, u32, u32, u32),
    // op, desc, src2, src1, idx2, dst
    Format1i(u32, u32, u32, u32, u32, u32),
    // op, desc, rest, src1, idx1, dst
    Format1u(u32, u32, u32, u32, u32, u32),
    // op, desc, src2, src1, idx1, cmpy, cmpx
    Format1c(u32, u32, u32, u32, u32, u32, u32),
    // op, num, rest, dst, condop, refy, refx
    Format2(u32, u32, u32, u32, u32, u32, u32),
    // op, num, rest, dst, id
    Format3(u32, u32, u32, u32, u32),
    // op, rest, winding, primemit, vtxid
    Format4(u32, u32, u32, u32, u32),
    // op, desc, src3, src2, src1, idx2, dst
    Format5(u32, u32, u32, u32, u32, u32, u32),
    // op, desc, src3, src2, src1, idx3, dst
    Format5i(u32, u32, u32, u32, u32, u32, u32),
}

// MAD and MADI have fewer bits for the descriptor ID, and so reach the first 32 descriptors only.
pub(crate) const MAD_DESC_BITS: u32 = 5;

fn format_0(word: u32) -> Fields
    ensures { result ≡ format0 word }
{
    let op = field(word, 26, 6);
    let rest = field(word, 0, 26);
    Fields::Format0(op, rest)
}

fn format_1(word: u32) -> Fields
    ensures { result ≡ format1 word }
{
    let op = field(word, 26, 6);
    let desc = field(word, 0, 7);
    let src2 = field(word, 7, 5);
    let src1 = field(word, 12, 7);
    let idx1 = field(word, 19, 2);
    let dst = field(word, 21, 5);
    Fields::Format1(op, desc, src2, src1, idx1, dst)
}

fn format_1i(word: u32) -> Fields
    ensures { result ≡ format1i word }
{
    let op = field(word, 26, 6);
    let desc = field(word, 0, 7);
    let src2 = field(word, 7, 7);
    let src1 = field(word, 14, 5);
    let idx2 = field(word, 19, 2);
    let dst = field(word, 21, 5);
    Fields::Format1i(op, desc, src2, src1, idx2, dst)
}

fn format_1u(word: u32) -> Fields
    ensures { result ≡ format1u word }
{
    let op = field(word, 26, 6);
    let desc = field(word, 0, 7);
    let rest = field(word, 7, 5);
    let src1 = field(word, 12, 7);
    let idx1 = field(word, 19, 2);
    let dst = field(word, 21, 5);
    Fields::Format1u(op, desc, rest, src1, idx1, dst)
}

fn format_1c(word: u32) -> Fields
    ensures { result ≡ format1c word }
{
    let op = 0x2e;
    let desc = field(word, 0, 7);
    let src2 = field(word, 7, 5);
    let src1 = field(word, 12, 7);
    let idx1 = field(word, 19, 2);
    let cmpy = field(word, 21, 3);
    let cmpx = field(word, 24, 3);
    Fields::Format1c(op, desc, src2, src1, idx1, cmpy, cmpx)
}

fn format_2(word: u32) -> Fields
    ensures { result ≡ format2 word }
{
    let op = field(word, 26, 6);
    let num = field(word, 0, 8);
    let rest = field(word, 8, 2);
    let dst = field(word, 10, 12);
    let condop = field(word, 22, 2);
    let refy = field(word, 24, 1);
    let refx = field(word, 25, 1);
    Fields::Format2(op, num, rest, dst, condop, refy, refx)
}

fn format_3(word: u32) -> Fields
    ensures { result ≡ format3 word }
{
    let op = field(word, 26, 6);
    let num = field(word, 0, 8);
    let rest = field(word, 8, 2);
    let dst = field(word, 10, 12);
    let id = field(word, 22, 4);
    Fields::Format3(op, num, rest, dst, id)
}

fn format_4(word: u32) -> Fields
    ensures { result ≡ format4 word }
{
    let op = field(word, 26, 6);
    let rest = field(word, 0, 22);
    let winding = field(word, 22, 1);
    let primemit = field(word, 23, 1);
    let vtxid = field(word, 24, 2);
    Fields::Format4(op, rest, winding, primemit, vtxid)
}

fn format_5(word: u32) -> Fields
    ensures { result ≡ format5 word }
{
    let op = 0x38;
    let desc = field(word, 0, MAD_DESC_BITS);
    let src3 = field(word, 5, 5);
    let src2 = field(word, 10, 7);
    let src1 = field(word, 17, 5);
    let idx2 = field(word, 22, 2);
    let dst = field(word, 24, 5);
    Fields::Format5(op, desc, src3, src2, src1, idx2, dst)
}

fn format_5i(word: u32) -> Fields
    ensures { result ≡ format5i word }
{
    let op = 0x30;
    let desc = field(word, 0, MAD_DESC_BITS);
    let src3 = field(word, 5, 7);
    let src2 = field(word, 12, 5);
    let src1 = field(word, 17, 5);
    let idx3 = field(word, 22, 2);
    let dst = field(word, 24, 5);
    Fields::Format5i(op, desc, src3, src2, src1, idx3, dst)
}

// The fields of a word of the format.
fn fields_as(format: Format, word: u32) -> Fields
    ensures { result ≡ fields_as format word }
{
    match format {
        Format::F0 => format_0(word),
        Format::F1 => format_1(word),
        Format::F1i => format_1i(word),
        Format::F1u => format_1u(word),
        Format::F1c => format_1c(word),
        Format::F2 => format_2(word),
        Format::F3 => format_3(word),
        Format::F4 => format_4(word),
        Format::F5 => format_5(word),
        Format::F5i => format_5i(word),
    }
}

// The fields of a word; refused if no operation has its opcode.
#[tactic(auto, unfolding(crate::specs::Words::decode_of))]
pub fn decode(word: u32) -> Result<Fields, Refusal>
    ensures { answered result ≡ decode_of word }
{
    format_of(field(word, 26, 6))
        .map(|format| fields_as(format, word))
        .ok_or(Reason::UnknownOpcode.at(0))
}
