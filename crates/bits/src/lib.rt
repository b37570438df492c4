// Bit fields of a word, by position and width. The laws that hold of every layout stand in proofs/Laws.antt.

#![tactic(auto)]

ghost use Rattle.std.specs.Prelude.{◌≡◌};
ghost use Rattle.bits.specs.Fields.{field};

// The `width` bits of `word` from bit `pos` on; bits past the word's end are 0.
#[tactic(auto, using(crate::proofs::Laws::in_one_word))]
pub fn field(word: u32, pos: u32, width: u32) -> u32
    ensures { result ≡ field pos width word }
{
    let above = word.checked_shr(pos).unwrap_or(0);
    1u32.checked_shl(width).map_or(above, |limit| above % limit)
}
