// The open regions of a run.
ghost use Rattle.std.specs.Prelude.{◌≡◌, [], ◌∷◌, ◌<◌, length};
ghost use Rattle.walk.specs.Inside.{frame, standing, stands, closing, repeats, leaving, arrive_by};
ghost use Rattle.walk.specs.declared.frames.After.TheVariants.{GoOn};

use crate::moves::Move;
use std::marker::Model;

// What follows the end of an open region: the word where the run goes on; or, of a LOOP, its first word, and
// how many turns it makes after this one.
#[derive(Clone, Copy, Debug, PartialEq, Eq)]
pub enum After {
    GoOn(u64),
    Turns(u64, u8),
}

// An open region. After its last turn a LOOP goes on at its end.
#[derive(Clone, Copy, Debug, PartialEq, Eq)]
pub struct Frame {
    pub end: u64,
    pub after: After,
}

// Sixteen regions at most, the outermost first.
#[derive(Drop)]
pub struct Frames {
    frames: [Frame; 16],
    depth: usize,
}

// Clauses see the open regions as the stepping rules list them, the innermost first.
impl Model for Frames {
    ghost use Rattle.std.specs.Prelude.{List, ◌≤◌, reverse, take};
    ghost use Rattle.walk.specs.declared.frames.Frame.{Frame};

    ghost Value = { List Frame };

    ghost view = { λ s. reverse (take s.depth s.frames) };

    ghost invariant = { λ s. s.depth ≤ 16 };
}

impl Frames {
    // Main alone, which nothing follows.
    pub(crate) fn of_main(end: u64) -> Frames
        ensures { result ≡ frame end (GoOn end) ∷ [] }
    {
        let main = Frame {
            end,
            after: After::GoOn(end),
        };
        Frames {
            frames: [main; 16],
            depth: 1,
        }
    }

    // Opens a region inside the others.
    fn open(&mut self, region: Frame)
        requires { length self.old < 16 }
        ensures { self.new ≡ region ∷ self.old }
    {
        self.frames[self.depth] = region;
        self.depth += 1;
    }

    // Arrives at a word: closes the regions that end there, the innermost first, and answers where the run
    // goes on. A LOOP with turns left begins again; an empty one closes in all its turns.
    fn arrive(&mut self, word: u64) -> u64
        ensures { standing result self.new ≡ closing word self.old }
    {
        let mut at = word;
        while 0 < self.depth {
            let top = self.depth - 1;
            let region = &self.frames[top];
            if at != region.end {
                return at;
            }
            match region.after {
                After::GoOn(next) => at = next,
                After::Turns(first, turns) => {
                    if 0 < turns && first != at {
                        self.frames[top].after = After::Turns(first, turns - 1);
                        return first;
                    }
                }
            }
            self.depth = top;
        }
        at
    }

    // BREAK: closes what is open up to the innermost LOOP, with it, and answers where it ends; None where no
    // LOOP is open.
    #[tactic(auto, using(crate::proofs::Regions::leaves_none))]
    fn leave(&mut self) -> Option<u64>
        ensures { stands result self.new ≡ leaving self.old }
    {
        let open = &self.frames[..self.depth];
        let innermost = open.iter().rposition(
            |region|
                ensures { result ≡ repeats region.now.after }
            { matches!(region.after, After::Turns(..)) },
        )?;
        let end = open[innermost].end;
        self.depth = innermost;
        Some(end)
    }

    // Does what a word asks for, and arrives; None where a run has no next step.
    pub(crate) fn follow(&mut self, asked: Move) -> Option<u64>
        requires { length self.old < 16 }
        ensures { stands result self.new ≡ arrive_by self.old asked }
    {
        match asked {
            Move::Go(word) => Some(self.arrive(word)),
            Move::Leave => {
                let end = self.leave()?;
                Some(self.arrive(end))
            }
            Move::Open(region, word) => {
                self.open(region);
                Some(self.arrive(word))
            }
        }
    }
}
