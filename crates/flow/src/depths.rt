// How deep calls, IFs and LOOPs are open.
ghost use Rattle.std.specs.Prelude.{◌≡◌, ◌+◌, ◌^◌, ◌<◌};
ghost use Rattle.flow.specs.Inside.{Over, deepest, beyond, opened, within};

// Counts of calls, IFs and LOOPs: those open at a word, the most that were open at once, or the most that a
// region opens beyond those around it.
#[derive(Clone, Copy)]
pub struct Depths {
    pub calls: u32,
    pub ifs: u32,
    pub loops: u32,
}

impl Depths {
    pub(crate) const NONE: Depths = Depths {
        calls: 0,
        ifs: 0,
        loops: 0,
    };

    // The larger of each.
    pub(crate) fn max(self, other: Depths) -> Depths
        ensures { result ≡ deepest self other }
    {
        Depths {
            calls: self.calls.max(other.calls),
            ifs: self.ifs.max(other.ifs),
            loops: self.loops.max(other.loops),
        }
    }

    // Without those around.
    pub(crate) fn beyond(self, around: Depths) -> Depths
        requires { Over self around }
        ensures { result ≡ beyond self around }
    {
        Depths {
            calls: self.calls - around.calls,
            ifs: self.ifs - around.ifs,
            loops: self.loops - around.loops,
        }
    }

    // So many more.
    pub(crate) fn plus(self, more: Depths) -> Depths
        requires { (self.calls + more.calls < 2 ^ 32) × (self.ifs + more.ifs < 2 ^ 32) × (self.loops + more.loops < 2 ^ 32) }
        ensures { result ≡ opened self more }
    {
        Depths {
            calls: self.calls + more.calls,
            ifs: self.ifs + more.ifs,
            loops: self.loops + more.loops,
        }
    }

    pub(crate) fn within(self, most: Depths) -> bool
        ensures { result ≡ within self most }
    {
        (self.calls <= most.calls) & (self.ifs <= most.ifs) & (self.loops <= most.loops)
    }
}
