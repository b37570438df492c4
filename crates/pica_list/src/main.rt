// Reads a library from standard input and writes its listing, or the record of its refusal.

#![tactic(auto)]

use inputs::read_what_comes;
use listing::{list, write_text};
use std::io;

// One byte more than a library may have is read, so that a longer one is refused and not cut; where a read
// fails, what came before it is judged. The text has room for a record for each of 512 words.
fn main(rt: HostRuntime) -> io::Result<()> {
    let mut bytes = [0u8; 65537];
    let (count, _) = read_what_comes(&mut rt.stdin(), &mut bytes);
    write_text(&mut rt.stdout(), &bytes[..count], &mut [0u8; 40960], list)
}
