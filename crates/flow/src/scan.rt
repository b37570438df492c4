// The visits of a region, those of its parts and called regions among them.
ghost use Rattle.std.specs.Prelude.{◌≡◌, ◌+◌, ◌*◌, ◌-◌, ◌≤◌, ◌<◌, length, get_or};
ghost use Rattle.std.specs.Option.{is_some, option_and_then};
ghost use Rattle.flow.specs.Flow.{code_of};
ghost use Rattle.instruction.specs.Control.{control_of};
ghost use Rattle.flow.specs.Inside.{rules_of, after_part, Over, Under, cost_of, Asks, AsksBoth, goes_on, no_tests, mark_all, recalled, remember, passed_over, ReadyFor, ScansTo, ScansBothTo};

use crate::depths::Depths;
use crate::limits::{Allowed, Index, Scan};
use crate::look::{Look, Part, look_at};
use answer::{Reason, Refusal};
use binary::WordAddress;
use instruction::{Control, control_of, is_untested};

// What a part that was scanned without a fault leaves: the total, and the most that was open.
#[derive(Clone, Copy)]
pub struct Outcome {
    pub total: u32,
    pub depths: Depths,
}

// What a region costs wherever it is visited: how many visits, without the weight, and the most that it
// opens, without what is open around it.
#[derive(Clone, Copy)]
pub struct Cost {
    pub visits: u32,
    pub depths: Depths,
}

impl Outcome {
    // What a part costs that left this, with so much counted before it.
    fn cost(self, part: Part, before: u32) -> Cost
        requires weighs { 0 < part.weight }
        requires more { before ≤ self.total }
        requires over { Over self.depths part.opens.depths }
        ensures { result ≡ cost_of part before self }
    {
        Cost {
            visits: (self.total - before) / part.weight,
            depths: self.depths.beyond(part.opens.depths),
        }
    }
}

// What is kept of each word of a main: whether it was visited, and the cost of the parts that it asks for.
// A cost of 0 visits stands for none. The depths of a word are packed into one number, so that one array of
// them is cleared for each main and not three.
#[derive(Drop)]
pub struct Kept {
    pub marks: [bool; 512],
    pub costs: [u32; 512],
    pub depths: [u32; 512],
}

// What a region of this cost leaves without being visited: its cost in the total, and what it opens added to
// what is open around it. None where it costs nothing, or does not fit in here or into the total.
#[tactic(auto, unfolding(crate::specs::Inside::fits_here))]
fn passed_over(allowed: Allowed, part: Part, total: u32, cost: Cost) -> Option<Outcome>
    requires { Under (rules_of allowed) part.opens.depths }
    ensures { result ≡ passed_over (rules_of allowed) part total cost }
{
    let around = part.opens.depths;
    let sum = total as u64 + part.weight as u64 * cost.visits as u64;
    if cost.visits == 0
        || (allowed.most as u64) < sum
        || !cost.depths.within(allowed.depths.beyond(around))
    {
        return None;
    }
    Some(Outcome {
        total: sum as u32,
        depths: around.plus(cost.depths),
    })
}

// The part after another, with the same open, up to `next`.
fn after_part(part: Part, next: WordAddress) -> Part
    ensures { result ≡ after_part part next }
{
    Part {
        from: part.to,
        to: next,
        ..part
    }
}

// Whether the words from `from` up to `to` have none of the tests 22 to 26: none is an EMIT, a BREAK, an IF,
// a LOOP, a CALL or a jump. Not expanded in the cycle of calls, so that its loops keep their registers.
#[inline(never)]
fn no_tests(words: &[u32], from: u32, to: u32) -> bool
    requires { (from ≤ to) × (to ≤ length words.now) }
    ensures { result ≡ no_tests (code_of words.now 0) from (to - from) }
{
    words[from as usize..to as usize]
        .iter()
        .all(|word| is_untested(*word))
}

fn mark_all(marks: &mut [bool; 512], from: u32, to: u32)
    requires { (from ≤ to) × (to ≤ 512) }
    ensures { marks.new ≡ mark_all marks.old from (to - from) }
{
    marks[from as usize..to as usize].fill(true);
}

impl Kept {
    // The cost of the parts that the word asks for, where it is remembered. No part costs 0 visits.
    fn recall(&self, at: Index) -> Option<Cost>
        ensures { result ≡ recalled self.now at.word }
    {
        let visits = self.costs[at.word as usize];
        let packed = self.depths[at.word as usize];
        let depths = Depths {
            calls: packed / 65536,
            ifs: packed / 256 % 256,
            loops: packed % 256,
        };
        (0 < visits).then_some(Cost { visits, depths })
    }

    // Stores what was found of the parts that the word asks for.
    fn remember(&mut self, at: Index, cost: Cost)
        requires { (cost.depths.calls < 256) × (cost.depths.ifs < 256) × (cost.depths.loops < 256) }
        ensures { self.new ≡ remember self.old at.word cost }
    {
        let depths = cost.depths;
        self.costs[at.word as usize] = cost.visits;
        self.depths[at.word as usize] = depths.calls * 65536 + depths.ifs * 256 + depths.loops;
    }

    // True where a visited word is known to go on without its tests: it has none, as its opcode tells, or it
    // is a jump whose target was found before and lies in the region. Else they are made.
    fn goes_on(&self, word: u32, at: Index, end: u32) -> bool
        ensures { result ≡ goes_on (control_of word) (is_some (recalled self.now at.word)) end }
    {
        if is_untested(word) {
            return true;
        }
        match control_of(word) {
            Control::Jump(_, dst, _) => self.recall(at).is_some() && dst.0 < end,
            _ => false,
        }
    }

    // What the parts that the word asks for leave, where their cost is remembered and fits: they are
    // not visited again, as they would meet no fault, and their words are marked.
    fn passed_again(&self, allowed: Allowed, at: Index, part: Part, total: u32) -> Option<Outcome>
        requires { Under (rules_of allowed) part.opens.depths }
        ensures { result ≡ option_and_then (passed_over (rules_of allowed) part total) (recalled self.now at.word) }
    {
        passed_over(allowed, part, total, self.recall(at)?)
    }

    // Visits the part that a LOOP or a CALL asks for, and remembers what it found.
    #[cycle(regions)]
    fn descend(&mut self, scan: Scan, at: Index, part: Part, total: u32) -> Result<Outcome, Refusal>
        requires { ReadyFor (code_of scan.words.now 0) scan.allowed part self.old × Asks ((code_of scan.words.now 0).control at.word) at.word part }
        ensures { ScansTo (code_of scan.entry.words.now 0) (rules_of scan.entry.allowed) part total self.old result self.new }
    {
        let found = self.scan_part(scan, part, total)?;
        self.remember(at, found.cost(part, total));
        Ok(found)
    }

    // Enters the part that a LOOP or a CALL asks for.
    #[cycle(regions)]
    fn enter(&mut self, scan: Scan, at: Index, part: Part, total: u32) -> Result<Outcome, Refusal>
        requires { ReadyFor (code_of scan.words.now 0) scan.allowed part self.old × Asks ((code_of scan.words.now 0).control at.word) at.word part }
        ensures { ScansTo (code_of scan.entry.words.now 0) (rules_of scan.entry.allowed) part total self.old result self.new }
    {
        match self.passed_again(scan.allowed, at, part, total) {
            Some(outcome) => Ok(outcome),
            None => self.descend(scan, at, part, total),
        }
    }

    // Visits the two parts that an IF asks for. If they have no tests they cost as many visits as they
    // have words, open nothing, and are counted and marked at once. Else they are scanned, and what was found
    // is remembered where no LOOP is open in the main or called region: with one around, a BREAK passes in
    // them. Nothing is lost by that: a LOOP's body is remembered whole.
    #[cycle(regions)]
    fn descend_both(
        &mut self,
        scan: Scan,
        at: Index,
        yes: Part,
        next: WordAddress,
        total: u32,
    ) -> Result<Outcome, Refusal>
        requires { ReadyFor (code_of scan.words.now 0) scan.allowed yes self.old × (next.0 ≤ length scan.words.now) × AsksBoth ((code_of scan.words.now 0).control at.word) at.word yes next }
        ensures { ScansBothTo (code_of scan.entry.words.now 0) (rules_of scan.entry.allowed) yes next total self.old result self.new }
    {
        let untested = Cost {
            visits: next.0 - yes.from.0,
            depths: Depths::NONE,
        };
        if no_tests(scan.words, yes.from.0, next.0) {
            if let Some(outcome) = passed_over(scan.allowed, yes, total, untested) {
                mark_all(&mut self.marks, yes.from.0, next.0);
                return Ok(outcome);
            }
        }
        let first = self.scan_part(scan, yes, total)?;
        let second = self.scan_part(scan, after_part(yes, next), first.total)?;
        let both = Outcome {
            total: second.total,
            depths: first.depths.max(second.depths),
        };
        if !yes.opens.looped {
            self.remember(at, both.cost(yes, total));
        }
        Ok(both)
    }

    // As `enter`, for an IF.
    #[cycle(regions)]
    fn enter_both(
        &mut self,
        scan: Scan,
        at: Index,
        yes: Part,
        next: WordAddress,
        total: u32,
    ) -> Result<Outcome, Refusal>
        requires { ReadyFor (code_of scan.words.now 0) scan.allowed yes self.old × (next.0 ≤ length scan.words.now) × AsksBoth ((code_of scan.words.now 0).control at.word) at.word yes next }
        ensures { ScansBothTo (code_of scan.entry.words.now 0) (rules_of scan.entry.allowed) yes next total self.old result self.new }
    {
        match self.passed_again(scan.allowed, at, yes, total) {
            Some(outcome) if !yes.opens.looped => Ok(outcome),
            _ => self.descend_both(scan, at, yes, next, total),
        }
    }

    // Counts, marks and tests each word of a region, and goes into the parts that it asks for. `total` is
    // what was counted before. A jump's target is searched once, however often the jump is visited.
    #[cycle(regions)]
    pub(crate) fn scan_part(
        &mut self,
        scan: Scan,
        part: Part,
        total: u32,
    ) -> Result<Outcome, Refusal>
        requires { ReadyFor (code_of scan.words.now 0) scan.allowed part self.old }
        ensures { ScansTo (code_of scan.entry.words.now 0) (rules_of scan.entry.allowed) part total self.old result self.new }
    {
        let end = part.to.0;
        let mut p = part.from.0;
        let mut t = total;
        let mut depths = part.opens.depths;
        while p < end {
            let sum = t as u64 + part.weight as u64;
            if (scan.allowed.most as u64) < sum {
                return Err(Reason::TooLong.at(p));
            }
            t = sum as u32;
            let at = Index { word: p };
            self.marks[p as usize] = true;
            if self.goes_on(scan.words[p as usize], at, end) {
                p += 1;
                continue;
            }
            match look_at(scan, part, p)? {
                Look::Next => {
                    // A jump has no parts, and any cost says that its target is good. Of EMIT and BREAK it is
                    // never read.
                    let seen = Cost {
                        visits: 1,
                        depths: Depths::NONE,
                    };
                    self.remember(at, seen);
                    p += 1;
                }
                Look::One(inner, next) => {
                    let found = self.enter(scan, at, inner, t)?;
                    depths = depths.max(found.depths);
                    t = found.total;
                    p = next.0;
                }
                Look::Two(yes, next) => {
                    let found = self.enter_both(scan, at, yes, next, t)?;
                    depths = depths.max(found.depths);
                    t = found.total;
                    p = next.0;
                }
            }
        }
        Ok(Outcome { total: t, depths })
    }
}
