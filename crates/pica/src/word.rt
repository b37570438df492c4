// Decoding and encoding of one word.
ghost use Rattle.std.specs.Prelude.{◌≡◌, length};
ghost use Rattle.answer.specs.Answers.{answered, map_answer};
ghost use Rattle.pica.specs.Replies.{Answered, value_of, buffer_after};
ghost use Rattle.pica.specs.Words.{decode_reply, encode_numbers};

use crate::fields::{fields_of, numbers_of};
use crate::reply::{packed, replied};
use answer::{Reason, Refusal};
use instruction::{decode, encode};

fn write_fields(word: u32, out: &mut [u32]) -> Result<u32, Refusal>
    ensures answers { answered result ≡ map_answer value_of (decode_reply word (length out.old)) }
    ensures writes { out.new ≡ buffer_after out.old (decode_reply word (length out.old)) }
{
    let (format, numbers) = numbers_of(decode(word)?);
    replied(format, &numbers, out)
}

// The numbers of the fields are those that were given exactly if each one after the format's fields is 0.
#[tactic(auto, unfolding(crate::specs::Words::encode_numbers))]
fn encode_numbers(format: u32, fields: &[u32]) -> Result<u32, Refusal>
    ensures { answered result ≡ encode_numbers format fields.now }
{
    let refusal = Reason::NotEncodable.at(0);
    let numbers = fields.first_chunk::<8>().ok_or(refusal)?;
    let parts = fields_of(format, numbers).ok_or(refusal)?;
    if *numbers != numbers_of(parts).1 {
        return Err(refusal);
    }
    encode(parts)
}

// The fields of a word: its format, and eight numbers in `out`.
#[unsafe(no_mangle)]
pub extern "C" fn pica_decode(word: u32, out: &mut [u32]) -> u64
    ensures answers { Answered (map_answer value_of (decode_reply word (length out.old))) result }
    ensures writes { out.new ≡ buffer_after out.old (decode_reply word (length out.old)) }
{
    packed(write_fields(word, out))
}

// The word that has a format's fields, the first eight numbers of `fields`.
#[unsafe(no_mangle)]
pub extern "C" fn pica_encode(format: u32, fields: &[u32]) -> u64
    ensures { Answered (encode_numbers format fields.now) result }
{
    packed(encode_numbers(format, fields))
}
