// Tables, and whether they lie where they may.
ghost use Rattle.std.specs.Prelude.{◌≡◌, ◌<◌, ◌^◌, ◌||◌, length};
ghost use Rattle.container.specs.Placement.{table_at, misplaced, words_meet, words_meet_table};

use binary::{ByteOffset, Range, is_inside, range_of, shares_byte, u32_at};

// A table as its section tells of it: its offset from the section's start, where that is in the file, and how
// many entries it has.
#[derive(Clone, Copy)]
pub struct Table {
    pub offset: u32,
    pub start: ByteOffset,
    pub count: u32,
}

// A section of a file: its bytes from its start on, and where in the file it starts. That is so low that no
// table's start wraps.
#[derive(Clone, Copy)]
pub(crate) struct Section<'a> {
    pub(crate) bytes: &'a [u8],
    pub(crate) base: ByteOffset,
    ghost low: { base.0 < 2 ^ 36 },
}

impl<'a> Section<'a> {
    // The table whose offset stands at `field`, and its count after it.
    pub(crate) fn table(&self, field: u64) -> Table
        requires { field < 64 }
        ensures { result ≡ table_at self.now.bytes.now self.now.base.0 field }
    {
        let offset = u32_at(self.bytes, ByteOffset(field));
        let count = u32_at(self.bytes, ByteOffset(field + 4));
        Table {
            offset,
            start: ByteOffset(self.base.0 + offset as u64),
            count,
        }
    }
}

// Whether a table of entries of `size` bytes is unaligned or outside the file. A table with count 0 has no
// offset to test.
#[tactic(auto, unfolding(crate::specs::Placement::misplaced))]
pub(crate) fn is_misplaced(t: Table, align: u32, size: u32, file: &[u8]) -> bool
    requires { 0 < align }
    ensures { result ≡ misplaced align size (length file.now) t }
{
    let outside = !is_inside(range_of(t.start, t.count, size), file);
    (t.count != 0) & ((t.offset % align != 0) | outside)
}

// Whether the opcode table shares a byte with a range.
#[tactic(auto, unfolding(crate::specs::Placement::words_meet))]
pub(crate) fn words_meet(words: Table, r: Range) -> bool
    ensures { result ≡ words_meet words r }
{
    shares_byte(range_of(words.start, words.count, 4), r)
}

// Whether the opcode table shares a byte with a table of entries of `size` bytes.
fn words_meet_table(words: Table, t: Table, size: u32) -> bool
    ensures { result ≡ words_meet_table words size t }
{
    words_meet(words, range_of(t.start, t.count, size))
}

// Whether a table is misplaced or shares a byte with the opcode table.
pub(crate) fn is_bad_table(t: Table, align: u32, size: u32, words: Table, file: &[u8]) -> bool
    requires { 0 < align }
    ensures { result ≡ (misplaced align size (length file.now) t || words_meet_table words size t) }
{
    is_misplaced(t, align, size, file) | words_meet_table(words, t, size)
}
