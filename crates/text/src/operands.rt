// The operands of a word.
#![tactic(auto, using(crate::proofs::Fits::texts))]

ghost use Rattle.std.specs.Prelude.{◌≡◌, ◌++◌, ◌+◌, ◌≤◌, length, get_or};
ghost use Rattle.text.specs.Operands.{operator_text, target_text, condition_of, both_text, condition_text, one_source, two_sources, three_sources, of_format2, of_format3, of_format4, operands_in};
ghost use Rattle.text.specs.Pieces.{bytes};
ghost use Rattle.text.specs.Registers.{source_text};

use crate::line::Line;
use crate::registers::{Destination, Register, destination_of, indexed, plain};
use instruction::{Descriptor, Fields, Source};

const OPERATORS: [[u8; 2]; 8] = [
    *b"EQ", *b"NE", *b"LT", *b"LE", *b"GT", *b"GE", *b"??", *b"??",
];

// Operations of formats 2 and 3, by their numbers in the list of operations.
const BREAKC: u32 = 0x23;

const CALL: u32 = 0x24;

const LOOP: u32 = 0x29;

const JMPC: u32 = 0x2c;

const JMPU: u32 = 0x2d;

// Where a word goes: an address, and a number of words from there.
#[derive(Clone, Copy)]
struct Target {
    dst: u32,
    num: u32,
}

// What a word tests: the value that is asked of x, of y, or of both.
#[derive(Clone, Copy)]
enum Condition {
    Or(u32, u32),
    And(u32, u32),
    X(u32),
    Y(u32),
}

// The condition of a CONDOP, with the values that the word has for y and x.
fn condition_of(operator: u32, y: u32, x: u32) -> Condition
    ensures { result ≡ condition_of operator y x }
{
    match operator {
        0 => Condition::Or(x, y),
        2 => Condition::X(x),
        3 => Condition::Y(y),
        _ => Condition::And(x, y),
    }
}

// The descriptor of an ID; one that is not there reads as zeros.
fn descriptor_at(descriptors: &[u32], id: u32) -> Descriptor
    ensures { result.0 ≡ get_or descriptors.now id 0 }
{
    Descriptor(descriptors.get(id as usize).copied().unwrap_or(0))
}

impl Line {
    fn put_target(&mut self, target: Target)
        requires { length self.old + 7 ≤ 79 }
        ensures { self.new ≡ self.old ++ target_text target }
    {
        self.put_digits::<16, 4>(target.dst);
        self.put_byte(b'+');
        self.put_digits::<16, 2>(target.num);
    }

    fn put_both(&mut self, x: u32, sign: u8, y: u32)
        requires { length self.old + 7 ≤ 79 }
        ensures { self.new ≡ self.old ++ both_text x sign y }
    {
        self.put_lettered(b'x', x);
        self.put_byte(sign);
        self.put_lettered(b'y', y);
    }

    fn put_condition(&mut self, condition: Condition)
        requires { length self.old + 7 ≤ 79 }
        ensures { self.new ≡ self.old ++ condition_text condition }
    {
        match condition {
            Condition::Or(x, y) => self.put_both(x, b'|', y),
            Condition::And(x, y) => self.put_both(x, b'&', y),
            Condition::X(x) => self.put_lettered(b'x', x),
            Condition::Y(y) => self.put_lettered(b'y', y),
        }
    }

    // A source, after another operand.
    fn put_next(&mut self, s: Source, register: Register)
        requires { length self.old + 16 ≤ 79 }
        ensures { self.new ≡ self.old ++ bytes "," ++ source_text s register }
    {
        self.put_byte(b',');
        self.put_source(s, register);
    }

    fn put_one(&mut self, to: Destination, first: Register)
        requires { length self.old + 24 ≤ 79 }
        ensures { self.new ≡ self.old ++ one_source to first }
    {
        self.put_destination(to);
        self.put_next(to.descriptor.source1(), first);
    }

    fn put_two(&mut self, to: Destination, first: Register, second: Register)
        requires { length self.old + 40 ≤ 79 }
        ensures { self.new ≡ self.old ++ two_sources to first second }
    {
        self.put_one(to, first);
        self.put_next(to.descriptor.source2(), second);
    }

    fn put_three(&mut self, to: Destination, first: Register, second: Register, third: Register)
        requires { length self.old + 56 ≤ 79 }
        ensures { self.new ≡ self.old ++ three_sources to first second third }
    {
        self.put_two(to, first, second);
        self.put_next(to.descriptor.source3(), third);
    }

    // A compare operator, after another operand.
    fn put_operator(&mut self, operator: u32)
        requires { length self.old + 3 ≤ 79 }
        ensures { self.new ≡ self.old ++ bytes "," ++ operator_text operator }
    {
        self.put_byte(b',');
        self.put_text(&OPERATORS[(operator % 8) as usize]);
    }

    // CALL shows its target, BREAKC its condition, JMPC no NUM.
    fn put_format_2(&mut self, op: u32, target: Target, condition: Condition)
        requires { length self.old + 15 ≤ 79 }
        ensures { self.new ≡ self.old ++ of_format2 op target condition }
    {
        match op {
            CALL => self.put_target(target),
            BREAKC => self.put_condition(condition),
            JMPC => {
                self.put_condition(condition);
                self.put_byte(b' ');
                self.put_digits::<16, 4>(target.dst);
            }
            _ => {
                self.put_condition(condition);
                self.put_byte(b' ');
                self.put_target(target);
            }
        }
    }

    // LOOP has an integer register, the others a bool; LOOP and JMPU show no NUM.
    fn put_format_3(&mut self, op: u32, target: Target, id: u32)
        requires { length self.old + 11 ≤ 79 }
        ensures { self.new ≡ self.old ++ of_format3 op target id }
    {
        self.put_lettered(if op == LOOP { b'i' } else { b'b' }, id);
        self.put_byte(b' ');
        match op {
            LOOP | JMPU => self.put_digits::<16, 4>(target.dst),
            _ => self.put_target(target),
        }
    }

    fn put_format_4(&mut self, winding: u32, primemit: u32, vtxid: u32)
        requires { length self.old + 11 ≤ 79 }
        ensures { self.new ≡ self.old ++ of_format4 winding primemit vtxid }
    {
        self.put_lettered(b'v', vtxid);
        self.put_byte(b' ');
        self.put_lettered(b'p', primemit);
        self.put_byte(b' ');
        self.put_lettered(b'w', winding);
    }

    pub(crate) fn put_operands(&mut self, fields: Fields, descriptors: &[u32])
        requires { length self.old + 56 ≤ 79 }
        ensures { self.new ≡ self.old ++ operands_in descriptors.now fields }
    {
        match fields {
            Fields::Format0(_, _) => {}
            Fields::Format1(op, desc, src2, src1, idx1, dst) => {
                let to = destination_of(op, dst, descriptor_at(descriptors, desc));
                self.put_two(to, indexed(src1, idx1), plain(src2));
            }
            Fields::Format1i(op, desc, src2, src1, idx2, dst) => {
                let to = destination_of(op, dst, descriptor_at(descriptors, desc));
                self.put_two(to, plain(src1), indexed(src2, idx2));
            }
            Fields::Format1u(op, desc, _, src1, idx1, dst) => {
                let to = destination_of(op, dst, descriptor_at(descriptors, desc));
                self.put_one(to, indexed(src1, idx1));
            }
            Fields::Format1c(_, desc, src2, src1, idx1, cmpy, cmpx) => {
                let d = descriptor_at(descriptors, desc);
                self.put_source(d.source1(), indexed(src1, idx1));
                self.put_operator(cmpx);
                self.put_operator(cmpy);
                self.put_next(d.source2(), plain(src2));
            }
            Fields::Format2(op, num, _, dst, operator, y, x) => {
                self.put_format_2(op, Target { dst, num }, condition_of(operator, y, x));
            }
            Fields::Format3(op, num, _, dst, id) => self.put_format_3(op, Target { dst, num }, id),
            Fields::Format4(_, _, winding, primemit, vtxid) => {
                self.put_format_4(winding, primemit, vtxid);
            }
            Fields::Format5(op, desc, src3, src2, src1, idx2, dst) => {
                let to = destination_of(op, dst, descriptor_at(descriptors, desc));
                self.put_three(to, plain(src1), indexed(src2, idx2), plain(src3));
            }
            Fields::Format5i(op, desc, src3, src2, src1, idx3, dst) => {
                let to = destination_of(op, dst, descriptor_at(descriptors, desc));
                self.put_three(to, plain(src1), plain(src2), indexed(src3, idx3));
            }
        }
    }
}
