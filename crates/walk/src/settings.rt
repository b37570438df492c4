// What a caller gives a run: the bools, the bytes x and the outcomes of comparisons.
ghost use Rattle.std.specs.Prelude.{◌≡◌, drop, get_or};
ghost use Rattle.walk.specs.Inside.{settings_by, truth_of, left_by};
ghost use Rattle.walk.specs.Walk.{non_zero};

use binary::{ByteOffset, u8_at};
use instruction::Condition;

// One byte for each register, or for each outcome in the order in which they are read.
#[derive(Clone, Copy)]
pub struct Settings<'a> {
    pub bools: &'a [u8],
    pub ints: &'a [u8],
    pub truth: &'a [u8],
}

// The next outcome; false past the last.
fn take_outcome(outcomes: &mut &[u8]) -> bool
    ensures truth { result ≡ non_zero (get_or outcomes.old.now 0 0) }
    ensures left { outcomes.new.now ≡ drop 1 outcomes.old.now }
{
    let Some((outcome, rest)) = outcomes.split_first() else {
        return false;
    };
    *outcomes = rest;
    *outcome != 0
}

impl<'a> Settings<'a> {
    // The truth of a condition, which may take the next outcome.
    pub(crate) fn is_true(&self, condition: Condition, outcomes: &mut &[u8]) -> bool
        ensures truth { result ≡ truth_of (settings_by self.now) condition outcomes.old.now }
        ensures left { outcomes.new.now ≡ left_by condition outcomes.old.now }
    {
        match condition {
            Condition::Always => true,
            Condition::Compared => take_outcome(outcomes),
            Condition::Uniform(b) => u8_at(self.bools, ByteOffset(b as u64)) != 0,
        }
    }

    // A LOOP's byte x.
    pub(crate) fn x_of(&self, register: u32) -> u8
        ensures { result ≡ (settings_by self.now).ints register }
    {
        u8_at(self.ints, ByteOffset(register as u64))
    }
}
