// Instruction words: decoding, encoding, what a word does to control flow. Parts of an operand descriptor.

#![tactic(auto)]

mod decoding;
mod encoding;
mod flow_control;
mod operand;
mod operation;

pub use decoding::{Fields, decode};
pub use encoding::encode;
pub use flow_control::{Condition, Control, control_of, is_block, is_untested};
pub use operand::{
    CompareOperators, Descriptor, Source, compare_operators_of, descriptor_of, takes_any_fields,
};
