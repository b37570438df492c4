// Bytes of the input.
ghost use Rattle.std.specs.Prelude.{◌≡◌, ℕ, ◌<◌, ◌≤◌, List, length, take, IfOk, OnErr};
ghost use Rattle.std.specs.Counts.{IsPrefixLen};
ghost use Rattle.std.specs.Io.KnownBytes.{Consumes, IsAtEnd};

use inputs::read_full;
use std::io;
use std::io::Read;

// Puts the next bytes at the start of `bytes`, at most `most`, and answers how many there are; fewer than fit
// where the input ends.
pub(crate) fn read_some<R: Read>(input: &mut R, most: usize, bytes: &mut [u8]) -> io::Result<usize>
    ensures read { IfOk result (λ count. (count ≤ most) × IsPrefixLen count bytes.new) }
    ensures next { IfOk result (λ count. Consumes (R.remaining input.old) (R.remaining input.new) (take count bytes.new)) }
    ensures ended { IfOk result (λ count. count < most → count < length bytes.new → IsAtEnd (R.remaining input.new)) }
    ensures failed { OnErr result (length bytes.new ≡ length bytes.old) }
{
    let size = most.min(bytes.len());
    read_full(input, &mut bytes[..size])
}

// Passes over the next bytes, `count` of them, and answers how many the input had. A turn that finds none is
// the last, so that the loop ends.
pub(crate) fn skip<R: Read>(input: &mut R, count: usize) -> io::Result<usize>
    ensures next { IfOk result (λ passed. (passed ≤ count) × ((gone : List ℕ) × (length gone ≡ passed) × Consumes (R.remaining input.old) (R.remaining input.new) gone)) }
    ensures ended { IfOk result (λ passed. passed < count → IsAtEnd (R.remaining input.new)) }
{
    let mut piece = [0u8; 4096];
    let mut left = count;
    while 0 < left {
        let passed = read_some(input, left, &mut piece)?;
        if passed == 0 {
            break;
        }
        left -= passed;
    }
    Ok(count - left)
}
