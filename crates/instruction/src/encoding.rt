// Fields into words.
ghost use Rattle.std.specs.Prelude.{◌≡◌, IsTrue, nat_lt};
ghost use Rattle.std.specs.List.{list_all};
ghost use Rattle.answer.specs.Answers.{answered};
ghost use Rattle.bits.specs.Fields.{total, pack, fit};
ghost use Rattle.instruction.specs.Words.{layout, word_if, code_of, word_of, encode_of};

use crate::decoding::Fields;
use crate::operation::{Format, entry_format};
use answer::{Reason, Refusal};

// The word that has the parts at the widths, from bit 0 up; none if a part exceeds its bits. Expanded where
// it is called, as is `word`, so that the widths are constants: encoding takes two thirds of the time.
#[inline(always)]
fn packed<const N: usize>(widths: &[u32; N], parts: &[u32; N]) -> Option<u32>
    requires whole { total widths.now ≡ 32 }
    requires narrow { IsTrue (list_all (λ n. nat_lt n 32) widths.now) }
    ensures { result ≡ word_if (fit widths.now parts.now) (pack widths.now parts.now) }
{
    let mut word = 0;
    for (width, part) in widths.iter().rev().zip(parts.iter().rev()) {
        let limit = 1 << *width;
        if limit <= *part {
            return None;
        }
        word = word * limit + *part;
    }
    Some(word)
}

// A format and the widths of its parts, from bit 0 up, the opcode's last.
struct Layout<const N: usize>(Format, [u32; N]);

const LAYOUT_0: Layout<2> = Layout(Format::F0, [26, 6]);

const LAYOUT_1: Layout<6> = Layout(Format::F1, [7, 5, 7, 2, 5, 6]);

const LAYOUT_1I: Layout<6> = Layout(Format::F1i, [7, 7, 5, 2, 5, 6]);

const LAYOUT_1U: Layout<6> = Layout(Format::F1u, [7, 5, 7, 2, 5, 6]);

const LAYOUT_1C: Layout<7> = Layout(Format::F1c, [7, 5, 7, 2, 3, 3, 5]);

const LAYOUT_2: Layout<7> = Layout(Format::F2, [8, 2, 12, 2, 1, 1, 6]);

const LAYOUT_3: Layout<5> = Layout(Format::F3, [8, 2, 12, 4, 6]);

const LAYOUT_4: Layout<5> = Layout(Format::F4, [22, 1, 1, 2, 6]);

const LAYOUT_5: Layout<7> = Layout(Format::F5, [5, 5, 7, 5, 2, 5, 3]);

const LAYOUT_5I: Layout<7> = Layout(Format::F5i, [5, 7, 5, 5, 2, 5, 3]);

impl<const N: usize> Layout<N> {
    // The word that has the parts, if `op` is the lowest opcode of an entry of the format.
    #[inline(always)]
    fn word(&self, op: u32, parts: &[u32; N]) -> Option<u32>
        requires { self.now.1 ≡ layout self.now.0 }
        ensures { result ≡ code_of op self.now.0 parts.now }
    {
        if entry_format(op) == Some(self.0) {
            packed(&self.1, parts)
        } else {
            None
        }
    }
}

// The word that has these fields. None has them if one exceeds its bits or the operation's number is not the
// lowest opcode of an entry of the format.
fn word_of(fields: Fields) -> Option<u32>
    ensures { result ≡ word_of fields }
{
    match fields {
        Fields::Format0(op, rest) => LAYOUT_0.word(op, &[rest, op]),
        Fields::Format1(op, desc, src2, src1, idx1, dst) => {
            LAYOUT_1.word(op, &[desc, src2, src1, idx1, dst, op])
        }
        Fields::Format1i(op, desc, src2, src1, idx2, dst) => {
            LAYOUT_1I.word(op, &[desc, src2, src1, idx2, dst, op])
        }
        Fields::Format1u(op, desc, rest, src1, idx1, dst) => {
            LAYOUT_1U.word(op, &[desc, rest, src1, idx1, dst, op])
        }
        Fields::Format1c(op, desc, src2, src1, idx1, cmpy, cmpx) => {
            LAYOUT_1C.word(op, &[desc, src2, src1, idx1, cmpy, cmpx, 0x17])
        }
        Fields::Format2(op, num, rest, dst, condop, refy, refx) => {
            LAYOUT_2.word(op, &[num, rest, dst, condop, refy, refx, op])
        }
        Fields::Format3(op, num, rest, dst, id) => LAYOUT_3.word(op, &[num, rest, dst, id, op]),
        Fields::Format4(op, rest, winding, primemit, vtxid) => {
            LAYOUT_4.word(op, &[rest, winding, primemit, vtxid, op])
        }
        Fields::Format5(op, desc, src3, src2, src1, idx2, dst) => {
            LAYOUT_5.word(op, &[desc, src3, src2, src1, idx2, dst, 7])
        }
        Fields::Format5i(op, desc, src3, src2, src1, idx3, dst) => {
            LAYOUT_5I.word(op, &[desc, src3, src2, src1, idx3, dst, 6])
        }
    }
}

// The word that has these fields; refused if no word has them.
#[tactic(auto, unfolding(crate::specs::Words::encode_of))]
pub fn encode(fields: Fields) -> Result<u32, Refusal>
    ensures { answered result ≡ encode_of fields }
{
    word_of(fields).ok_or(Reason::NotEncodable.at(0))
}
