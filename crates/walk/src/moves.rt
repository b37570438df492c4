// What a fetched word asks of the open regions.
ghost use Rattle.std.specs.Prelude.{◌≡◌};
ghost use Rattle.walk.specs.Inside.{move_break, move_if, move_loop, move_call, move_jump, move_of, left_after, settings_by};

use crate::frames::{After, Frame};
use crate::settings::Settings;
use instruction::Control;

// What a word asks for. Addresses are sums of its DST and NUM, which have 64 bits here.
#[derive(Clone, Copy, Debug, PartialEq, Eq)]
pub enum Move {
    // Go on at a word.
    Go(u64),
    // Close what is open up to the innermost LOOP, with it.
    Leave,
    // Open a region, and go on at a word.
    Open(Frame, u64),
}

fn move_break(taken: bool, next: u64) -> Move
    ensures { result ≡ move_break taken next }
{
    if taken { Move::Leave } else { Move::Go(next) }
}

fn move_if(taken: bool, next: u64, dst: u32, num: u32) -> Move
    ensures { result ≡ move_if taken next dst num }
{
    let first = dst as u64;
    let after = first + num as u64;
    let (end, word) = if taken { (first, next) } else { (after, first) };
    Move::Open(
        Frame {
            end,
            after: After::GoOn(after),
        },
        word,
    )
}

fn move_loop(x: u8, next: u64, dst: u32) -> Move
    ensures { result ≡ move_loop x next dst }
{
    Move::Open(
        Frame {
            end: dst as u64 + 1,
            after: After::Turns(next, x),
        },
        next,
    )
}

fn move_call(taken: bool, next: u64, dst: u32, num: u32) -> Move
    ensures { result ≡ move_call taken next dst num }
{
    if taken {
        let first = dst as u64;
        Move::Open(
            Frame {
                end: first + num as u64,
                after: After::GoOn(next),
            },
            first,
        )
    } else {
        Move::Go(next)
    }
}

fn move_jump(taken: bool, next: u64, dst: u32) -> Move
    ensures { result ≡ move_jump taken next dst }
{
    Move::Go(if taken { dst as u64 } else { next })
}

// What a word asks for, with the address after it and the outcomes that are left; None at END. NUM of a jump
// is not read. An unknown word and a LOOP register over 3 have no next step, so what is answered for them
// does not matter.
pub(crate) fn move_of(
    settings: &Settings,
    control: &Control,
    next: u64,
    outcomes: &mut &[u8],
) -> Option<Move>
    ensures moves { result ≡ move_of (settings_by settings.now) control.now next outcomes.old.now }
    ensures left { outcomes.new.now ≡ left_after control.now outcomes.old.now }
{
    match *control {
        Control::End => None,
        Control::Unknown | Control::Plain | Control::Emit => Some(Move::Go(next)),
        Control::Break(c) => Some(move_break(settings.is_true(c, outcomes), next)),
        Control::If(c, dst, num) => {
            let taken = settings.is_true(c, outcomes);
            Some(move_if(taken, next, dst.0, num))
        }
        Control::Loop(register, dst) => Some(move_loop(settings.x_of(register), next, dst.0)),
        Control::Call(c, dst, num) => {
            let taken = settings.is_true(c, outcomes);
            Some(move_call(taken, next, dst.0, num))
        }
        Control::Jump(c, dst, _) => Some(move_jump(settings.is_true(c, outcomes), next, dst.0)),
    }
}
