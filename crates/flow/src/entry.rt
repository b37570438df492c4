// The flow check of one main.
ghost use Rattle.std.specs.Prelude.{◌≡◌, false, ◌&&◌, ◌≤◌, ◌<◌, ◌-◌, length, get_or};
ghost use Rattle.answer.specs.Answers.{answered};
ghost use Rattle.flow.specs.Flow.{code_of, flow_of, flow_answer};
ghost use Rattle.flow.specs.Inside.{count_to};
ghost use Rattle.flow.specs.Own.{own_words, has};
ghost use Rattle.flow.specs.Rules.{full_rules};
ghost use Rattle.flow.specs.Visits.{is_end};

use crate::depths::Depths;
use crate::limits::{Allowed, Scan};
use crate::look::{Opens, Part};
use crate::own::is_own;
use crate::scan::Kept;
use answer::{Reason, Refusal};
use binary::WordAddress;
use instruction::{Control, control_of};

// What an accepted main is measured to be: its total and how many distinct words are visited.
#[derive(Clone, Copy, Debug, PartialEq, Eq)]
pub struct Measured {
    pub total: u32,
    pub words: u32,
}

fn count_marks(marks: &[bool]) -> u32
    requires { length marks.now ≤ 512 }
    ensures { result ≡ count_to (length marks.now) (λ i. get_or marks.now i false) }
{
    marks.iter().map(|mark| *mark as u32).sum()
}

// Whether main's last word is END, and an own word of main.
fn ends_well(words: &[u32], main: u32, endmain: u32) -> bool
    requires { (endmain ≤ length words.now) × (main < endmain) }
    ensures { result ≡ (is_end ((code_of words.now 0).control (endmain - 1)) && has (own_words (code_of words.now 0) main endmain) (endmain - 1)) }
{
    let last = endmain - 1;
    matches!(control_of(words[last as usize]), Control::End) && is_own(words, endmain, main, last)
}

// The check of a main that lies inside the words, at document 01's limits.
fn measure(words: &[u32], emits: bool, main: u32, endmain: u32) -> Result<Measured, Refusal>
    requires { (main < endmain) × (endmain ≤ length words.now) × (length words.now ≤ 512) }
    ensures { answered result ≡ flow_of (full_rules emits) words.now main endmain }
{
    let allowed = Allowed {
        depths: Depths {
            calls: 4,
            ifs: 8,
            loops: 2,
        },
        most: 4_000_000,
        emits,
    };
    let none_open = Opens {
        depths: Depths::NONE,
        looped: false,
    };
    let part = Part {
        opens: none_open,
        weight: 1,
        from: WordAddress(main),
        to: WordAddress(endmain),
    };
    let mut kept = Kept {
        marks: [false; 512],
        costs: [0; 512],
        depths: [0; 512],
    };
    let outcome = kept.scan_part(Scan { words, allowed }, part, 0)?;
    if !ends_well(words, main, endmain) {
        return Err(Reason::BadEnd.at(endmain - 1));
    }
    Ok(Measured {
        total: outcome.total,
        words: count_marks(&kept.marks[..words.len()]),
    })
}

// The flow check of main, in words of a shader type: 22 to 28, and of the rest 7, 15 and 16 as far as it
// relies on them. Words that 9 to 12 refuse may pass.
#[tactic(auto, unfolding(crate::specs::Flow::flow_answer))]
pub fn flow_of(words: &[u32], shader_type: u8, main: u32, endmain: u32) -> Result<Measured, Refusal>
    ensures { answered result ≡ flow_answer words.now shader_type main endmain }
{
    if words.is_empty() || 512 < words.len() {
        return Err(Reason::TableSizes.at(0));
    }
    if 1 < shader_type {
        return Err(Reason::UnknownType.at(0));
    }
    if endmain <= main || words.len() < endmain as usize {
        return Err(Reason::BadEntry.at(0));
    }
    measure(words, shader_type == 1, main, endmain)
}
