// The entries of an executable's tables: constants, labels, outputs, uniforms, and the names of its symbol
// table.
// An entry is handed over as the bytes from its start on; bytes past the end read as 0.
// Tests are joined by `&` and `|`, which evaluate both sides: each test is cheap and has an answer for every
// input, and a proof has one case.

#![tactic(auto)]

mod constants;
mod entries;
mod float24;
mod names;

pub use constants::{
    ByteVector, Constant, ConstantEntry, FloatVector, constant_entry, constant_fault, constant_of,
};
pub use entries::{label_fault, output_fault, uniform_fault};
pub use names::names_end;
