// The text of registers: destinations and sources.
#![tactic(auto, using(crate::proofs::Fits::texts), unfolding(crate::specs::Registers::source_text, crate::specs::Registers::destination_text))]

ghost use Rattle.std.specs.Prelude.{◌≡◌, ◌++◌, ◌+◌, ◌≤◌, length};
ghost use Rattle.text.specs.Registers.{component, indexed, plain, destination_of, register_text, sign_text, index_text, selectors_text, source_text, written_text, mask_text, written_register, destination_text};

use crate::line::Line;
use instruction::{Descriptor, Source};

const COMPONENTS: [u8; 4] = *b"xyzw";

// The operation that writes the address register, by its number.
const MOVA: u32 = 0x12;

// A source register, and IDX: which of the index registers is added to its number; 0 is none.
#[derive(Clone, Copy)]
pub(crate) struct Register {
    pub(crate) number: u32,
    pub(crate) index: u32,
}

pub(crate) fn indexed(number: u32, index: u32) -> Register
    ensures { result ≡ indexed number index }
{
    Register { number, index }
}

pub(crate) fn plain(number: u32) -> Register
    ensures { result ≡ plain number }
{
    indexed(number, 0)
}

// Where an operation writes, and its descriptor, which has the mask, and how the sources are read.
#[derive(Clone, Copy)]
pub(crate) struct Destination {
    pub(crate) op: u32,
    pub(crate) register: u32,
    pub(crate) descriptor: Descriptor,
}

pub(crate) fn destination_of(op: u32, register: u32, descriptor: Descriptor) -> Destination
    ensures { result ≡ destination_of op register descriptor.0 }
{
    Destination {
        op,
        register,
        descriptor,
    }
}

fn component(k: u32) -> u8
    ensures { result ≡ component k }
{
    COMPONENTS[(k % 4) as usize]
}

impl Line {
    // A source's register, by its number among all of them: inputs, temporaries, constants.
    fn put_register(&mut self, register: u32)
        requires { length self.old + 3 ≤ 79 }
        ensures { self.new ≡ self.old ++ register_text register }
    {
        if register < 0x10 {
            self.put_lettered(b'v', register);
        } else if register < 0x20 {
            self.put_lettered(b'r', register - 0x10);
        } else {
            self.put_lettered(b'c', register - 0x20);
        }
    }

    fn put_sign(&mut self, negated: bool)
        requires { length self.old + 1 ≤ 79 }
        ensures { self.new ≡ self.old ++ sign_text negated }
    {
        if negated {
            self.put_byte(b'-');
        }
    }

    fn put_index(&mut self, idx: u32)
        requires { length self.old + 6 ≤ 79 }
        ensures { self.new ≡ self.old ++ index_text idx }
    {
        match idx {
            1 => self.put_text(b"[a0.x]"),
            2 => self.put_text(b"[a0.y]"),
            3 => self.put_text(b"[aL]"),
            _ => {}
        }
    }

    fn put_selectors(&mut self, s: Source)
        requires { length self.old + 5 ≤ 79 }
        ensures { self.new ≡ self.old ++ selectors_text s }
    {
        self.put_byte(b'.');
        for &k in &s.components {
            self.put_byte(component(k));
        }
    }

    pub(crate) fn put_source(&mut self, s: Source, register: Register)
        requires { length self.old + 15 ≤ 79 }
        ensures { self.new ≡ self.old ++ source_text s register }
    {
        self.put_sign(s.negated);
        self.put_register(register.number);
        self.put_index(register.index);
        self.put_selectors(s);
    }

    // A component, if it is written.
    fn put_written(&mut self, written: bool, k: u32)
        requires { length self.old + 1 ≤ 79 }
        ensures { self.new ≡ self.old ++ written_text written k }
    {
        if written {
            self.put_byte(component(k));
        }
    }

    fn put_mask(&mut self, mask: u32)
        requires { length self.old + 4 ≤ 79 }
        ensures { self.new ≡ self.old ++ mask_text mask }
    {
        if mask % 16 == 0 {
            self.put_byte(b'_');
        } else {
            self.put_written(mask / 8 % 2 == 1, 0);
            self.put_written(mask / 4 % 2 == 1, 1);
            self.put_written(mask / 2 % 2 == 1, 2);
            self.put_written(mask % 2 == 1, 3);
        }
    }

    fn put_written_register(&mut self, op: u32, register: u32)
        requires { length self.old + 3 ≤ 79 }
        ensures { self.new ≡ self.old ++ written_register op register }
    {
        if op == MOVA {
            self.put_lettered(b'a', 0);
        } else if register < 0x10 {
            self.put_lettered(b'o', register);
        } else {
            self.put_lettered(b'r', register - 0x10);
        }
    }

    pub(crate) fn put_destination(&mut self, to: Destination)
        requires { length self.old + 8 ≤ 79 }
        ensures { self.new ≡ self.old ++ destination_text to }
    {
        self.put_written_register(to.op, to.register);
        self.put_byte(b'.');
        self.put_mask(to.descriptor.mask());
    }
}
