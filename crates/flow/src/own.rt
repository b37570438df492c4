// Own words of a region.
ghost use Rattle.std.specs.Prelude.{◌≡◌, ◌≤◌, ◌<◌, length, get_or};
ghost use Rattle.instruction.specs.Control.{control_of};
ghost use Rattle.flow.specs.Flow.{code_of};
ghost use Rattle.flow.specs.Inside.{after_if, after_loop, after_of};
ghost use Rattle.flow.specs.Own.{own_words, has};

use instruction::{Control, control_of, is_block};

// The own word after an IF; none where its bounds are bad. A word may hold any DST and NUM: a sum past 32
// bits is beyond every end.
pub(crate) fn after_if(p: u32, end: u32, dst: u32, num: u32) -> Option<u32>
    ensures { result ≡ after_if p end dst num }
{
    dst.checked_add(num)
        .filter(|next| p as u64 + 2 <= dst as u64 && *next <= end)
}

// The same of a LOOP.
pub(crate) fn after_loop(p: u32, end: u32, dst: u32) -> Option<u32>
    ensures { result ≡ after_loop p end dst }
{
    dst.checked_add(1).filter(|past| p < dst && *past <= end)
}

// The own word after another; none after an IF or LOOP with bad bounds.
fn own_after(words: &[u32], end: u32, p: u32) -> Option<u32>
    requires { (end ≤ length words.now) × (p < end) }
    ensures { result ≡ after_of (control_of (get_or words.now p 0)) p end }
{
    match control_of(words[p as usize]) {
        Control::If(_, dst, num) => after_if(p, end, dst.0, num),
        Control::Loop(_, dst) => after_loop(p, end, dst.0),
        _ => Some(p + 1),
    }
}

// Whether a word is one of the own words from another on. These ascend, so the search ends at the word; most
// words are no block, and then the next word is the next own word.
pub(crate) fn is_own(words: &[u32], end: u32, from: u32, word: u32) -> bool
    requires { end ≤ length words.now }
    ensures { result ≡ has (own_words (code_of words.now 0) from end) word }
{
    if end <= word {
        return false;
    }
    let mut p = from;
    while p < word {
        if is_block(words[p as usize]) {
            let Some(next) = own_after(words, end, p) else {
                return false;
            };
            p = next;
        } else {
            p += 1;
        }
    }
    p == word
}
