// A visited word: its tests 22 to 26, and the parts that are visited after it.
ghost use Rattle.std.specs.Prelude.{◌≡◌, ◌≤◌, ◌<◌, length};
ghost use Rattle.answer.specs.Answers.{answered};
ghost use Rattle.flow.specs.Flow.{code_of};
ghost use Rattle.flow.specs.Inside.{rules_of, look_if, look_loop, look_call, look_jump, look_of};

use crate::depths::Depths;
use crate::limits::{Allowed, Scan};
use crate::own::{after_if, after_loop, is_own};
use answer::{Reason, Refusal};
use binary::WordAddress;
use instruction::{Control, control_of};

// What is open at a word, that of callers included; and whether a LOOP is open in the same main or called
// region.
#[derive(Clone, Copy)]
pub struct Opens {
    pub depths: Depths,
    pub looped: bool,
}

// A region to visit: what is open in it, what each visit adds to the total, its first word and its end.
#[derive(Clone, Copy)]
pub struct Part {
    pub opens: Opens,
    pub weight: u32,
    pub from: WordAddress,
    pub to: WordAddress,
}

// What a visited word asks for: to go on at the next word, or to visit one part or two and then go on at a
// word. Of two, the second begins where the first ends, has the same open, and ends at that word.
#[derive(Clone, Copy)]
pub enum Look {
    Next,
    One(Part, WordAddress),
    Two(Part, WordAddress),
}

#[tactic(auto, unfolding(crate::specs::Inside::look_if))]
fn look_if(allowed: Allowed, part: Part, p: u32, dst: u32, num: u32) -> Result<Look, Refusal>
    ensures { answered result ≡ look_if (rules_of allowed) part.opens part.weight p part.to.0 dst num }
{
    let next = after_if(p, part.to.0, dst, num).ok_or(Reason::BadBounds.at(p))?;
    if allowed.depths.ifs <= part.opens.depths.ifs {
        return Err(Reason::TooDeep.at(p));
    }
    let depths = Depths {
        ifs: part.opens.depths.ifs + 1,
        ..part.opens.depths
    };
    let opens = Opens {
        depths,
        ..part.opens
    };
    let yes = Part {
        opens,
        weight: part.weight,
        from: WordAddress(p + 1),
        to: WordAddress(dst),
    };
    Ok(Look::Two(yes, WordAddress(next)))
}

#[tactic(auto, unfolding(crate::specs::Inside::look_loop))]
fn look_loop(allowed: Allowed, part: Part, p: u32, dst: u32) -> Result<Look, Refusal>
    requires { part.weight ≤ 65536 }
    ensures { answered result ≡ look_loop (rules_of allowed) part.opens part.weight p part.to.0 dst }
{
    let past = after_loop(p, part.to.0, dst).ok_or(Reason::BadBounds.at(p))?;
    if allowed.depths.loops <= part.opens.depths.loops {
        return Err(Reason::TooDeep.at(p));
    }
    let depths = Depths {
        loops: part.opens.depths.loops + 1,
        ..part.opens.depths
    };
    let opens = Opens {
        depths,
        looped: true,
    };
    let body = Part {
        opens,
        weight: part.weight * 256,
        from: WordAddress(p + 1),
        to: WordAddress(past),
    };
    Ok(Look::One(body, WordAddress(past)))
}

#[tactic(auto, unfolding(crate::specs::Inside::look_call))]
fn look_call(scan: Scan, caller: Part, p: u32, dst: u32, num: u32) -> Result<Look, Refusal>
    requires { p < length scan.words.now }
    ensures { answered result ≡ look_call (rules_of scan.entry.allowed) caller.opens caller.weight p (length scan.entry.words.now) dst num }
{
    let end = dst as u64 + num as u64;
    if num < 1 || (scan.words.len() as u64) < end {
        return Err(Reason::BadBounds.at(p));
    }
    if scan.allowed.depths.calls <= caller.opens.depths.calls {
        return Err(Reason::TooDeep.at(p));
    }
    let depths = Depths {
        calls: caller.opens.depths.calls + 1,
        ..caller.opens.depths
    };
    let opens = Opens {
        depths,
        looped: false,
    };
    let called = Part {
        opens,
        weight: caller.weight,
        from: WordAddress(dst),
        to: WordAddress(end as u32),
    };
    Ok(Look::One(called, WordAddress(p + 1)))
}

#[tactic(auto, unfolding(crate::specs::Inside::look_jump))]
fn look_jump(words: &[u32], p: u32, end: u32, dst: u32) -> Result<Look, Refusal>
    requires { (end ≤ length words.now) × (p < end) }
    ensures { answered result ≡ look_jump (code_of words.now 0) p end dst }
{
    if p < dst && dst < end && is_own(words, end, p + 1, dst) {
        Ok(Look::Next)
    } else {
        Err(Reason::BadJump.at(p))
    }
}

// The word at `p` of a region, of which what is open, the weight and the end are looked at. An unknown word
// passes: 9 is a test of the whole library.
#[tactic(auto, unfolding(crate::specs::Inside::look_of, crate::specs::Visits::fault_at, crate::specs::Inside::look_if, crate::specs::Inside::look_loop, crate::specs::Inside::look_call, crate::specs::Inside::look_jump))]
pub(crate) fn look_at(scan: Scan, part: Part, p: u32) -> Result<Look, Refusal>
    requires { (part.to.0 ≤ length scan.words.now) × (p < part.to.0) × (part.weight ≤ 65536) }
    ensures { answered result ≡ look_of (code_of scan.entry.words.now 0) (rules_of scan.entry.allowed) part.opens part.weight p part.to.0 }
{
    match control_of(scan.words[p as usize]) {
        Control::Unknown | Control::Plain | Control::End => Ok(Look::Next),
        Control::Emit if scan.allowed.emits => Ok(Look::Next),
        Control::Emit => Err(Reason::EmitInVertex.at(p)),
        Control::Break(_) if part.opens.looped => Ok(Look::Next),
        Control::Break(_) => Err(Reason::BreakOutsideLoop.at(p)),
        Control::If(_, dst, num) => look_if(scan.allowed, part, p, dst.0, num),
        Control::Loop(_, dst) => look_loop(scan.allowed, part, p, dst.0),
        Control::Call(_, dst, num) => look_call(scan, part, p, dst.0, num),
        Control::Jump(_, dst, _) => look_jump(scan.words, p, part.to.0, dst.0),
    }
}
