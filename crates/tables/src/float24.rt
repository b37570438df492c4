// Float24 words, and the f32 that has the same value.
ghost use Rattle.std.specs.Prelude.{◌≡◌};
ghost use Rattle.std.specs.Float.{binary32};
ghost use Rattle.std.specs.Float.Ieee.{of_bits};
ghost use Rattle.tables.specs.Float24.{good_float24, f32_bits};

use bits::field;

// Whether a word of the file is a good float24: its top byte is 0, and with exponent 0 it is a zero. Exponent
// 127 is refused.
#[tactic(auto, unfolding(crate::specs::Float24::good_float24))]
pub(crate) fn is_float24(word: u32) -> bool
    ensures { result ≡ good_float24 word }
{
    let exponent = field(word, 16, 7);
    let normal = (1 <= exponent) & (exponent <= 126);
    let zero = (exponent == 0) & (field(word, 0, 16) == 0);
    (field(word, 24, 8) == 0) & (normal | zero)
}

// The bits of the f32: its exponent has bias 127 and not 63, and its fraction 23 bits and not 16.
#[tactic(auto, unfolding(crate::specs::Float24::f32_bits))]
fn f32_bits(word: u32) -> u32
    ensures { result ≡ f32_bits word }
{
    let sign = field(word, 23, 1) * 0x8000_0000;
    let exponent = field(word, 16, 7);
    let fraction = field(word, 0, 16);
    if exponent == 0 {
        sign
    } else {
        sign + (exponent + 64) * 0x80_0000 + fraction * 128
    }
}

// The f32 of a good float24. Any other word is converted by the same rule, which never gives a NaN, so that
// this asks for nothing.
#[tactic(auto, using(crate::proofs::Laws::no_nan))]
pub(crate) fn f32_of(word: u32) -> f32
    ensures { result ≡ of_bits binary32 (f32_bits word) }
{
    f32::from_bits(f32_bits(word))
}
