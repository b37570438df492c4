// The control walk of an executable, and its constants.
ghost use Rattle.std.specs.Prelude.{◌≡◌, length};
ghost use Rattle.answer.specs.Answers.{answered, map_answer};
ghost use Rattle.walk.specs.Walk.{walk_fetches, steps_of, written_to};
ghost use Rattle.pica.specs.Replies.{Answered, value_of, buffer_after};
ghost use Rattle.pica.specs.Executables.{WalksWhole, flag_numbers, byte_numbers, NoNans, pattern_numbers, constant_reply, HandsNo18, RepliesNo18};

use crate::reply::{packed, replied};
use answer::Refusal;
use tables::{ByteVector, Constant, FloatVector};
use walk::{constant, walk};

// The control walk of an executable: how many steps were made, and in `fetched` the index of each fetched
// word, as many as fit.
#[unsafe(no_mangle)]
pub extern "C" fn pica_walk(
    file: &[u8],
    executable: u32,
    bools: &[u8],
    ints: &[u8],
    truth: &[u8],
    fetched: &mut [u16],
) -> u64
    ensures answers { Answered (steps_of (walk_fetches file.now executable bools.now ints.now truth.now)) result }
    ensures writes { fetched.new ≡ written_to fetched.old (walk_fetches file.now executable bools.now ints.now truth.now) }
    ensures runs { WalksWhole file.now executable bools.now ints.now truth.now result }
{
    packed(walk(file, executable, bools, ints, truth, fetched))
}

fn flag_numbers(value: bool) -> [u32; 4]
    ensures { result ≡ flag_numbers value }
{
    [u32::from(value), 0, 0, 0]
}

fn byte_numbers(v: ByteVector) -> [u32; 4]
    ensures { result ≡ byte_numbers v }
{
    [v.x, v.y, v.z, v.w].map(u32::from)
}

fn pattern_numbers(v: FloatVector) -> [u32; 4]
    requires { NoNans v }
    ensures { result ≡ pattern_numbers v }
{
    [v.x.to_bits(), v.y.to_bits(), v.z.to_bits(), v.w.to_bits()]
}

fn write_constant(file: &[u8], executable: u32, n: u32, out: &mut [u32]) -> Result<u32, Refusal>
    ensures answers { answered result ≡ map_answer value_of (constant_reply file.now executable n (length out.old)) }
    ensures writes { out.new ≡ buffer_after out.old (constant_reply file.now executable n (length out.old)) }
    ensures hands { RepliesNo18 file.now result }
{
    match constant(file, executable, n)? {
        Constant::Flag(value) => replied(0, &flag_numbers(value), out),
        Constant::Bytes(v) => replied(1, &byte_numbers(v), out),
        Constant::Vector(v) => replied(2, &pattern_numbers(v), out),
    }
}

// A constant of an executable: its kind, and its four numbers in `out`.
#[unsafe(no_mangle)]
pub extern "C" fn pica_constant(file: &[u8], executable: u32, n: u32, out: &mut [u32]) -> u64
    ensures answers { Answered (map_answer value_of (constant_reply file.now executable n (length out.old))) result }
    ensures writes { out.new ≡ buffer_after out.old (constant_reply file.now executable n (length out.old)) }
    ensures hands { HandsNo18 file.now result }
{
    packed(write_constant(file, executable, n, out))
}
