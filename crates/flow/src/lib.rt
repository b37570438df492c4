// The flow check of one main: the visits that document 01 asks for, their total and the distinct words among
// them, or the first fault.

#![tactic(auto)]

mod depths;
mod entry;
mod limits;
mod look;
mod own;
mod scan;

pub use depths::Depths;
pub use entry::{Measured, flow_of};
pub use limits::{Allowed, Scan};
pub use look::{Look, Opens, Part};
pub use scan::Outcome;
