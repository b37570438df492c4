// A constant of an executable.
ghost use Rattle.std.specs.Prelude.{◌≡◌};
ghost use Rattle.answer.specs.Answers.{answered};
ghost use Rattle.walk.specs.Constants.{constant_answer, Hands};

use answer::{Reason, Refusal};
use binary::{ByteOffset, tail};
use container::executable_of;
use tables::{Constant, constant_entry, constant_of};
use verifier::check;

// The whole check, then 29 for an executable or a constant that is not there, else the constant. `n` counts
// the entries of the executable's constant table.
pub fn constant(file: &[u8], executable: u32, n: u32) -> Result<Constant, Refusal>
    ensures answers { answered result ≡ constant_answer file.now executable n }
    ensures hands { Hands file.now result }
{
    let library = check(file)?;
    library.require(executable)?;
    let table = executable_of(file, executable).constants;
    if table.count <= n {
        return Err(Reason::NotThere.at(0));
    }
    let entry = tail(tail(file, table.start), ByteOffset(n as u64 * 20));
    // There is one: the check refuses every bad entry.
    constant_of(constant_entry(entry)).ok_or(Reason::BadConstant.at(0))
}
