// An answer as one number, and numbers in a lent buffer.
ghost use Rattle.std.specs.Prelude.{◌≡◌, length};
ghost use Rattle.answer.specs.Answers.{answered, given, map_answer};
ghost use Rattle.pica.specs.Replies.{Answered, reply, value_of, fitted, buffer_after};

use answer::{Reason, Refusal};

// A value as it is, a refusal by its number in the upper half and its place in the lower.
pub(crate) fn packed(answer: Result<u32, Refusal>) -> u64
    ensures { Answered (answered answer) result }
{
    match answer {
        Ok(value) => u64::from(value),
        Err(refusal) => u64::from(refusal.number()) * 0x1_0000_0000 + u64::from(refusal.place),
    }
}

// Writes the numbers that belong to a value to the start of a buffer, and answers the value; or refuses a
// buffer that is too short for them.
#[tactic(auto, using(crate::proofs::Laws::put_first))]
pub(crate) fn replied(value: u32, numbers: &[u32], out: &mut [u32]) -> Result<u32, Refusal>
    ensures answers { answered result ≡ map_answer value_of (fitted (length out.old) (given (reply value numbers.now))) }
    ensures writes { out.new ≡ buffer_after out.old (fitted (length out.old) (given (reply value numbers.now))) }
{
    if out.len() < numbers.len() {
        return Err(Reason::BufferTooShort.at(0));
    }
    out[..numbers.len()].copy_from_slice(numbers);
    Ok(value)
}
