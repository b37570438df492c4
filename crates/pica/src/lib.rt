// The calls for C and Rust: numbers and slices alone. Each answers one number of 64 bits: a refusal's number
// in the upper half, which is 0 if there is none, and in the lower its place, or a value without a refusal.

#![tactic(auto)]

mod executable;
mod fields;
mod library;
mod reply;
mod word;

pub use executable::{pica_constant, pica_walk};
pub use library::{pica_check, pica_list, pica_report, pica_summarize};
pub use word::{pica_decode, pica_encode};
