// The sections of a DVLB library: where its tables lie, and whether they lie where they may.

#![tactic(auto)]

mod executables;
mod placement;
mod programs;

pub use executables::{Executable, executable_fault, executable_of};
pub use placement::Table;
pub use programs::{Limits, Program, executable_count, library_fault, program_of};
