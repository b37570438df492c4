// A line of text, written from the left.
#![tactic(auto, unfolding(crate::specs::Pieces::digits, crate::specs::Pieces::decimal, crate::specs::Pieces::lettered, crate::specs::Pieces::labelled))]

ghost use Rattle.std.specs.Prelude.{◌≡◌, [], ◌∷◌, ◌++◌, ◌+◌, ◌≤◌, ◌<◌, length};
ghost use Rattle.text.specs.Pieces.{digits, decimal, lettered, labelled};
ghost use Rattle.text.specs.Records.{record_of};

use std::marker::Model;

const DIGITS: [u8; 16] = *b"0123456789ABCDEF";

// A record that was blank at first, its text written over the start, and how long the text is.
#[derive(Drop)]
pub(crate) struct Line {
    bytes: [u8; 80],
    length: usize,
}

// Clauses see the text that was put so far.
impl Model for Line {
    ghost use Rattle.std.specs.Prelude.{◌≡◌, ◌≤◌, List, [], ℕ, take};
    ghost use Rattle.std.proofs.lemmas.List.Edits.{sets};
    ghost use Rattle.text.specs.Records.{record_of};

    ghost Value = { List ℕ };

    ghost view = { λ line. take line.length line.bytes };

    ghost invariant = { λ line. (line.length ≤ 79) × (line.bytes ≡ sets (record_of 80 []) 0 (take line.length line.bytes)) };
}

impl Line {
    pub(crate) fn new() -> Self
        ensures { result ≡ [] }
    {
        let mut bytes = [b' '; 80];
        bytes[79] = b'\n';
        Line { bytes, length: 0 }
    }

    // The record as it stands.
    pub(crate) fn finish(self) -> [u8; 80]
        ensures { result ≡ record_of 80 self }
    {
        self.bytes
    }

    pub(crate) fn put_byte(&mut self, byte: u8)
        requires { length self.old < 79 }
        ensures { self.new ≡ self.old ++ byte ∷ [] }
    {
        self.bytes[self.length] = byte;
        self.length += 1;
    }

    pub(crate) fn put_text(&mut self, text: &[u8])
        requires { length self.old + length text.now ≤ 79 }
        ensures { self.new ≡ self.old ++ text.now }
    {
        for &byte in text {
            self.put_byte(byte);
        }
    }

    // The lowest WIDTH digits of a number.
    pub(crate) fn put_digits<const BASE: u32, const WIDTH: usize>(&mut self, n: u32)
        requires { (1 < BASE) × (BASE ≤ 16) × (length self.old + WIDTH ≤ 79) }
        ensures { self.new ≡ self.old ++ digits BASE WIDTH n }
    {
        self.put_text(&digits_of::<BASE, WIDTH>(n));
    }

    // A number below 100 as it is read, without zeros before it.
    pub(crate) fn put_decimal(&mut self, n: u32)
        requires { length self.old + 2 ≤ 79 }
        ensures { self.new ≡ self.old ++ decimal n }
    {
        if n < 10 {
            self.put_digits::<10, 1>(n);
        } else {
            self.put_digits::<10, 2>(n);
        }
    }

    // A letter and a number: a register, a flag.
    pub(crate) fn put_lettered(&mut self, letter: u8, n: u32)
        requires { length self.old + 3 ≤ 79 }
        ensures { self.new ≡ self.old ++ lettered letter n }
    {
        self.put_byte(letter);
        self.put_decimal(n);
    }

    // A label and a number of WIDTH decimal digits.
    pub(crate) fn put_labelled<const WIDTH: usize>(&mut self, label: &[u8], n: u32)
        requires { length self.old + (length label.now + WIDTH) ≤ 79 }
        ensures { self.new ≡ self.old ++ labelled label.now WIDTH n }
    {
        self.put_text(label);
        self.put_digits::<10, WIDTH>(n);
    }
}

// The lowest WIDTH digits of n. They are found from the last.
fn digits_of<const BASE: u32, const WIDTH: usize>(n: u32) -> [u8; WIDTH]
    requires { (1 < BASE) × (BASE ≤ 16) }
    ensures { result ≡ digits BASE WIDTH n }
{
    let mut out = [0; WIDTH];
    let mut rest = n;
    for digit in out.iter_mut() {
        *digit = DIGITS[(rest % BASE) as usize];
        rest /= BASE;
    }
    out.reverse();
    out
}
