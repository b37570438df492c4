// What the check of a main goes by: the words, and what is allowed in them.
ghost use Rattle.std.specs.Prelude.{◌≤◌, ◌<◌, length};

use crate::depths::Depths;

// The most that may be open, the most total, and whether EMIT and SETEMIT are allowed. Depths up to these can
// be packed, and what a visit adds to the total stays small.
#[derive(Clone, Copy)]
pub struct Allowed {
    pub depths: Depths,
    pub most: u32,
    pub emits: bool,
    ghost small: { (depths.calls < 256) × (depths.ifs < 256) × (depths.loops ≤ 2) },
}

// The words that are scanned, at most as many as a library may have, and what is allowed in them.
#[derive(Clone, Copy)]
pub struct Scan<'a> {
    pub words: &'a [u32],
    pub allowed: Allowed,
    ghost few: { length words.now ≤ 512 },
}

// The index of a word, below the most that a library may have.
#[derive(Clone, Copy)]
pub struct Index {
    pub word: u32,
    ghost small: { word < 512 },
}
