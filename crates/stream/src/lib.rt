// A stream of libraries, before each its length in four bytes with the lowest first: what the trials read.

#![tactic(auto)]

mod cut_short;
mod input;

ghost use Rattle.std.specs.Prelude.{◌≡◌, [], length, take, Some, None, MatchOption, IfOk, IfSome, OnOk, OnErr};
ghost use Rattle.std.specs.Counts.{IsPrefixLen};
ghost use Rattle.stream.specs.Stream.{Takes, TakesLibrary, TakesCut, IsOver, VisitsEach};

use binary::{ByteOffset, u32_at};
use cut_short::{write_cut_length, write_cut_library};
use input::{read_some, skip};
use inputs::read_full;
use std::io;
use std::io::{Read, Write};

// One byte more than a library may have is kept, so that a longer one is seen to be longer. The rest is
// passed over, so that the next library is read from its start.
fn read_library<R: Read, W: Write>(
    input: &mut R,
    output: &mut W,
    length: usize,
    bytes: &mut [u8; 65537],
) -> io::Result<Option<usize>>
    ensures inside { IfOk result (λ next. IfSome next (λ kept. IsPrefixLen kept bytes.new)) }
    ensures next { IfOk result (λ next. MatchOption next (TakesCut (R.remaining input.old) (R.remaining input.new) length) (λ kept. TakesLibrary (R.remaining input.old) (R.remaining input.new) length (take kept bytes.new))) }
    ensures silent { IfOk result (λ next. IfSome next (λ kept. output.new ≡ output.old)) }
{
    let count = read_some(input, length, bytes)?;
    let mut got = count;
    if count == 65537 {
        got += skip(input, length - count)?;
    }
    if got < length {
        write_cut_library(output, got, length)?;
        return Ok(None);
    }
    Ok(Some(count))
}

// Puts the next library at the start of `bytes`, and answers how many of its bytes are kept; none where the
// stream is over. One that is cut short is over, and a line of the output says so, alike in every trial.
pub fn next_library<R: Read, W: Write>(
    input: &mut R,
    output: &mut W,
    bytes: &mut [u8; 65537],
) -> io::Result<Option<usize>>
    ensures next { IfOk result (λ next. IfSome next (λ kept. IsPrefixLen kept bytes.new)) }
    ensures taken { IfOk result (λ next. MatchOption next (IsOver (R.remaining input.old) (R.remaining input.new)) (λ kept. Takes (R.remaining input.old) (R.remaining input.new) (take kept bytes.new))) }
    ensures silent { IfOk result (λ next. IfSome next (λ kept. output.new ≡ output.old)) }
    ensures over { R.remaining input.old ≡ Some [] → IfOk result (λ next. (next ≡ None) × (output.new ≡ output.old)) }
    ensures failed { OnErr result (length bytes.new ≡ length bytes.old) }
{
    let mut length = [0u8; 4];
    let got = read_full(input, &mut length)?;
    if got == length.len() {
        let length = u32_at(&length, ByteOffset(0)) as usize;
        return read_library(input, output, length, bytes);
    }
    if 0 < got {
        write_cut_length(output, got)?;
    }
    Ok(None)
}

// Visits one library after another, until the stream is over or a visit answers that it was the last. A
// proved loop has to end, and nothing says that the input does: so it counts its turns, up to a number that
// no run uses up.
pub fn each_library<R: Read, W: Write, F: FnMut(&mut R, &mut W, &[u8]) -> io::Result<bool>>(
    input: &mut R,
    output: &mut W,
    mut visit: F,
) -> io::Result<()>
    requires { F.IsAlwaysCallable visit }
    ensures visits { OnOk result (VisitsEach R.remaining F.step input.old output.old visit input.new output.new) }
    ensures over { R.remaining input.old ≡ Some [] → OnOk result (output.new ≡ output.old) }
{
    let mut bytes = [0u8; 65537];
    for _ in 0..u64::MAX {
        let Some(kept) = next_library(input, output, &mut bytes)? else {
            return Ok(());
        };
        if !visit(input, output, &bytes[..kept])? {
            return Ok(());
        }
    }
    Ok(())
}
