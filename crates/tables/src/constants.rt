// Constants: reading an entry, and the constant that it holds; refusal 18.
ghost use Rattle.std.specs.Prelude.{◌≡◌, is_some};
ghost use Rattle.answer.specs.Faults.{faulted};
ghost use Rattle.tables.specs.Constants.{entry_of, flag_of, bytes_of, vector_of, convert_of, constant_fault};

use crate::entries::refuse_unless;
use crate::float24::{f32_of, is_float24};
use answer::{Reason, Refusal};
use binary::{ByteOffset, u8_at, u32_at};
use bits::field;

// An entry as the file has it: x, y, z, w are the words at 4, 8, 0Ch and 10h. A bool is the lowest byte of x;
// an integer's bytes are all four of x, lowest first.
#[derive(Clone, Copy)]
pub struct ConstantEntry {
    pub kind: u8,
    pub id: u8,
    pub x: u32,
    pub y: u32,
    pub z: u32,
    pub w: u32,
}

// The value of an integer constant.
#[derive(Clone, Copy)]
pub struct ByteVector {
    pub x: u8,
    pub y: u8,
    pub z: u8,
    pub w: u8,
}

// The value of a vector constant: each component has the value of its float24.
#[derive(Clone, Copy)]
pub struct FloatVector {
    pub x: f32,
    pub y: f32,
    pub z: f32,
    pub w: f32,
}

// A constant's value, by its kind.
#[derive(Clone, Copy)]
pub enum Constant {
    Flag(bool),
    Bytes(ByteVector),
    Vector(FloatVector),
}

// The fields of an entry, whatever they hold.
pub fn constant_entry(entry: &[u8]) -> ConstantEntry
    ensures { result ≡ entry_of entry.now }
{
    ConstantEntry {
        kind: u8_at(entry, ByteOffset(0x00)),
        id: u8_at(entry, ByteOffset(0x02)),
        x: u32_at(entry, ByteOffset(0x04)),
        y: u32_at(entry, ByteOffset(0x08)),
        z: u32_at(entry, ByteOffset(0x0c)),
        w: u32_at(entry, ByteOffset(0x10)),
    }
}

// Whether an entry is a good bool, a good integer, a good vector. Told without a conversion, since the check
// tests every entry and converts none.
fn is_flag(e: ConstantEntry) -> bool
    ensures { result ≡ is_some (flag_of e) }
{
    (e.id <= 15) & (field(e.x, 0, 8) <= 1)
}

fn is_bytes(e: ConstantEntry) -> bool
    ensures { result ≡ is_some (bytes_of e) }
{
    e.id <= 3
}

// One word after another: joined by `&` all four are loaded as one vector, and that load waits for the four
// stores before it.
fn is_vector(e: ConstantEntry) -> bool
    ensures { result ≡ is_some (vector_of e) }
{
    e.id <= 95 && is_float24(e.x) && is_float24(e.y) && is_float24(e.z) && is_float24(e.w)
}

fn flag_of(e: ConstantEntry) -> Option<Constant>
    ensures { result ≡ flag_of e }
{
    is_flag(e).then_some(Constant::Flag(field(e.x, 0, 8) == 1))
}

fn bytes_of(e: ConstantEntry) -> Option<Constant>
    ensures { result ≡ bytes_of e }
{
    let [x, y, z, w] = e.x.to_le_bytes();
    is_bytes(e).then_some(Constant::Bytes(ByteVector { x, y, z, w }))
}

fn vector_of(e: ConstantEntry) -> Option<Constant>
    ensures { result ≡ vector_of e }
{
    // A bad word is converted too, and what it gives is dropped.
    let vector = FloatVector {
        x: f32_of(e.x),
        y: f32_of(e.y),
        z: f32_of(e.z),
        w: f32_of(e.w),
    };
    is_vector(e).then_some(Constant::Vector(vector))
}

// The constant that an entry holds.
#[tactic(auto, unfolding(crate::specs::Constants::convert_of))]
pub fn constant_of(e: ConstantEntry) -> Option<Constant>
    ensures { result ≡ convert_of e }
{
    match e.kind {
        0 => flag_of(e),
        1 => bytes_of(e),
        2 => vector_of(e),
        _ => None,
    }
}

#[tactic(auto, unfolding(crate::specs::Constants::convert_of))]
fn is_constant(e: ConstantEntry) -> bool
    ensures { result ≡ is_some (convert_of e) }
{
    match e.kind {
        0 => is_flag(e),
        1 => is_bytes(e),
        2 => is_vector(e),
        _ => false,
    }
}

// The fault of a constant.
#[tactic(auto, unfolding(crate::specs::Constants::constant_fault))]
pub fn constant_fault(entry: &[u8], place: u32) -> Result<(), Refusal>
    ensures { faulted result ≡ constant_fault entry.now place }
{
    let good = is_constant(constant_entry(entry));
    refuse_unless(good, Reason::BadConstant, place)
}
