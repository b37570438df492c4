// Records of text, 80 bytes each with a line feed at the end: a line of the listing, a line of the report,
// the record of a refused file.

#![tactic(auto)]

mod line;
mod operands;
mod record;
mod registers;

pub use record::{listing_line, refused_line, report_line};
