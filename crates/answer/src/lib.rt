// What calls give back, as document 01 counts it: values, or a refusal.

#![tactic(auto)]

mod reason;

ghost use Rattle.std.specs.Prelude.{◌≡◌};
ghost use Rattle.answer.specs.Reasons.{number_of};

pub use reason::Reason;
use std::fmt;

// Why a call is refused, and where the fault lies: in the file, in a word, in an executable or one of its
// entries.
#[derive(Clone, Copy, Debug, PartialEq, Eq)]
pub struct Refusal {
    pub reason: Reason,
    pub place: u32,
}

impl Refusal {
    pub fn number(self) -> u32
        ensures { result ≡ number_of self.reason }
    {
        self.reason.number()
    }
}

impl fmt::Display for Refusal {
    fn fmt<W: fmt::Write>(&self, f: &mut fmt::Formatter<W>) -> fmt::Result {
        write!(f, "refused {} {:08x}", self.number(), self.place)
    }
}
