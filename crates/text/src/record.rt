// Records: a text, spaces after it, and a line feed in the last column.
#![tactic(auto, using(crate::proofs::Fits::texts, crate::proofs::Records::name_at, crate::proofs::Records::no_name), unfolding(crate::specs::Records::line_text, crate::specs::Records::report_text, crate::specs::Records::refused_text))]

ghost use Rattle.std.specs.Prelude.{◌≡◌, ◌++◌, ◌+◌, ◌≤◌, length};
ghost use Rattle.instruction.specs.Words.{number_of, decode_of};
ghost use Rattle.text.specs.Pieces.{name_text};
ghost use Rattle.text.specs.Records.{record_of, operation_text, line_text, head_text, counts_text, report_text, refused_text};

use crate::line::Line;
use instruction::{Fields, decode};
use verifier::Report;

// The name of each operation, by its number, in seven columns.
#[rattlefmt::skip]
const NAMES: [[u8; 7]; 64] = [
    *b"ADD    ", *b"DP3    ", *b"DP4    ", *b"DPH    ",
    *b"DST    ", *b"EX2    ", *b"LG2    ", *b"LITP   ",
    *b"MUL    ", *b"SGE    ", *b"SLT    ", *b"FLR    ",
    *b"MAX    ", *b"MIN    ", *b"RCP    ", *b"RSQ    ",
    *b"       ", *b"       ", *b"MOVA   ", *b"MOV    ",
    *b"       ", *b"       ", *b"       ", *b"       ",
    *b"DPHI   ", *b"DSTI   ", *b"SGEI   ", *b"SLTI   ",
    *b"       ", *b"       ", *b"       ", *b"       ",
    *b"BREAK  ", *b"NOP    ", *b"END    ", *b"BREAKC ",
    *b"CALL   ", *b"CALLC  ", *b"CALLU  ", *b"IFU    ",
    *b"IFC    ", *b"LOOP   ", *b"EMIT   ", *b"SETEMIT",
    *b"JMPC   ", *b"JMPU   ", *b"CMP    ", *b"       ",
    *b"MADI   ", *b"       ", *b"       ", *b"       ",
    *b"       ", *b"       ", *b"       ", *b"       ",
    *b"MAD    ", *b"       ", *b"       ", *b"       ",
    *b"       ", *b"       ", *b"       ", *b"       ",
];

fn number_of(fields: Fields) -> u32
    ensures { result ≡ number_of fields }
{
    match fields {
        Fields::Format0(op, ..)
        | Fields::Format1(op, ..)
        | Fields::Format1i(op, ..)
        | Fields::Format1u(op, ..)
        | Fields::Format1c(op, ..)
        | Fields::Format2(op, ..)
        | Fields::Format3(op, ..)
        | Fields::Format4(op, ..)
        | Fields::Format5(op, ..)
        | Fields::Format5i(op, ..) => op,
    }
}

impl Line {
    fn put_name(&mut self, op: u32)
        requires { length self.old + 7 ≤ 79 }
        ensures { self.new ≡ self.old ++ name_text op }
    {
        match NAMES.get(op as usize) {
            Some(name) => self.put_text(name),
            None => self.put_text(b"       "),
        }
    }

    // The name and the operands of a word; nothing for an unknown one.
    fn put_operation(&mut self, word: u32, descriptors: &[u32])
        requires { length self.old + 64 ≤ 79 }
        ensures { self.new ≡ self.old ++ operation_text descriptors.now (decode_of word) }
    {
        if let Ok(fields) = decode(word) {
            self.put_name(number_of(fields));
            self.put_byte(b' ');
            self.put_operands(fields, descriptors);
        }
    }

    // What an executable is.
    fn put_head(&mut self, index: u32, r: Report)
        requires { length self.old + 32 ≤ 79 }
        ensures { self.new ≡ self.old ++ head_text index r }
    {
        self.put_labelled::<2>(b"exe ", index);
        self.put_labelled::<1>(b" type ", u32::from(r.shader_type));
        self.put_labelled::<4>(b" main ", r.main.0);
        self.put_labelled::<4>(b" end ", r.endmain.0);
    }

    // What was counted of it.
    fn put_counts(&mut self, r: Report)
        requires { length self.old + 46 ≤ 79 }
        ensures { self.new ≡ self.old ++ counts_text r }
    {
        self.put_labelled::<2>(b" in ", r.inputs);
        self.put_labelled::<2>(b" out ", r.outputs);
        self.put_labelled::<4>(b" con ", r.constants);
        self.put_labelled::<4>(b" words ", r.words);
        self.put_labelled::<7>(b" most ", r.total);
    }
}

// A line of the listing: the word at an index, with the library's descriptors.
pub fn listing_line(index: u32, word: u32, descriptors: &[u32]) -> [u8; 80]
    ensures { result ≡ record_of 80 (line_text index word descriptors.now) }
{
    let mut line = Line::new();
    line.put_digits::<16, 4>(index);
    line.put_byte(b' ');
    line.put_digits::<16, 8>(word);
    line.put_byte(b' ');
    line.put_operation(word, descriptors);
    line.finish()
}

// A line of the report: that of an executable.
pub fn report_line(index: u32, r: Report) -> [u8; 80]
    ensures { result ≡ record_of 80 (report_text index r) }
{
    let mut line = Line::new();
    line.put_head(index, r);
    line.put_counts(r);
    line.finish()
}

// The record of a refused file.
pub fn refused_line(number: u32, place: u32) -> [u8; 80]
    ensures { result ≡ record_of 80 (refused_text number place) }
{
    let mut line = Line::new();
    line.put_labelled::<2>(b"refused ", number);
    line.put_byte(b' ');
    line.put_digits::<16, 8>(place);
    line.finish()
}
