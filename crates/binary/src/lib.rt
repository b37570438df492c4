// Byte offsets and word addresses, little-endian numbers in a file, ranges of bytes. Every function is total:
// a byte past the end reads as 0, and no sum wraps.

#![tactic(auto)]

ghost use Rattle.std.specs.Prelude.{◌≡◌, ◌+◌, ◌*◌, length, take, drop};
ghost use Rattle.binary.specs.Addresses.{offset_of_word};
ghost use Rattle.binary.specs.Bytes.{u8_at, u16_at, u32_at};
ghost use Rattle.binary.specs.Ranges.{range_of, inside, share};

// The address of a word, counted in words from the start of the opcode table.
#[derive(Clone, Copy, Debug, Default, PartialEq, Eq, PartialOrd, Ord)]
pub struct WordAddress(pub u32);

// The offset of a byte. Offsets that a file holds have 32 bits, their sums more.
#[derive(Clone, Copy, Debug, Default, PartialEq, Eq, PartialOrd, Ord)]
pub struct ByteOffset(pub u64);

// Where a word starts, counted in bytes from the start of the opcode table: the one way from a word address
// to a byte offset.
pub fn offset_of_word(a: WordAddress) -> ByteOffset
    ensures { result ≡ offset_of_word a }
{
    ByteOffset(a.0 as u64 * 4)
}

// The bytes from an offset on; none past the end.
pub fn tail(s: &[u8], at: ByteOffset) -> &[u8]
    ensures { result.now ≡ drop at.0 s.now }
{
    &s[s.len().min(at.0 as usize)..]
}

pub fn u8_at(s: &[u8], at: ByteOffset) -> u8
    ensures { result ≡ u8_at s.now at.0 }
{
    s.get(at.0 as usize).copied().unwrap_or(0)
}

// The number of two bytes, the low one first.
pub fn u16_of(low: u8, high: u8) -> u16
    ensures { result ≡ low + high * 256 }
{
    u16::from(low) + u16::from(high) * 256
}

// The number of two halves, the low one first.
pub fn u32_of(low: u16, high: u16) -> u32
    ensures { result ≡ low + high * 65536 }
{
    u32::from(low) + u32::from(high) * 65536
}

// Where all bytes of a number are there they are taken by index, which compiles to one test and one load.
pub fn u16_at(s: &[u8], at: ByteOffset) -> u16
    ensures { result ≡ u16_at s.now at.0 }
{
    let i = at.0 as usize;
    if 2 <= s.len().saturating_sub(i) {
        u16::from_le_bytes([s[i], s[i + 1]])
    } else {
        u16::from(u8_at(s, at))
    }
}

pub fn u32_at(s: &[u8], at: ByteOffset) -> u32
    ensures { result ≡ u32_at s.now at.0 }
{
    let i = at.0 as usize;
    if 4 <= s.len().saturating_sub(i) {
        u32::from_le_bytes([s[i], s[i + 1], s[i + 2], s[i + 3]])
    } else {
        let rest = tail(s, at);
        u32::from_le_bytes([
            u8_at(rest, ByteOffset(0)),
            u8_at(rest, ByteOffset(1)),
            u8_at(rest, ByteOffset(2)),
            0,
        ])
    }
}

// A run of `size` bytes from `start` on.
#[derive(Clone, Copy, Debug, PartialEq, Eq)]
pub struct Range {
    pub start: ByteOffset,
    pub size: u64,
}

// The bytes of `count` entries of `size` bytes each. Both have 32 bits, and are multiplied in 64.
pub fn range_of(start: ByteOffset, count: u32, size: u32) -> Range
    ensures { result ≡ range_of start count size }
{
    Range {
        start,
        size: count as u64 * size as u64,
    }
}

// The bytes of a range, as far as the file has them.
pub fn bytes_of(file: &[u8], r: Range) -> &[u8]
    ensures { result.now ≡ take r.size (drop r.start.0 file.now) }
{
    let rest = tail(file, r.start);
    rest.get(..r.size as usize).unwrap_or(rest)
}

// Whether the range lies inside the file. The test subtracts, so that it holds for every range.
pub fn is_inside(r: Range, file: &[u8]) -> bool
    ensures { result ≡ inside r (length file.now) }
{
    let length = file.len() as u64;
    r.size <= length && r.start.0 <= length - r.size
}

// Whether the ranges share a byte: each starts before the other ends. A distance stops at 0, and no distance
// is below the size of an empty range.
pub fn shares_byte(a: Range, b: Range) -> bool
    ensures { result ≡ share a b }
{
    b.start.0.saturating_sub(a.start.0) < a.size && a.start.0.saturating_sub(b.start.0) < b.size
}
