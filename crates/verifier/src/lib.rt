// The whole check of a library in document 01's order, and the reports of its executables.

#![tactic(auto)]

mod earlier;
mod executables;
mod verdict;
mod words;

pub use earlier::{Earlier, GoodEntries};
pub use verdict::{Judged, Library, Report, check, judge, report_of};
pub use words::words_of;
