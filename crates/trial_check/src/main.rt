// Tries `verifier` on the libraries of standard input: the verdict, and a line for each report.
// Its stdin holds the outside libraries in the order of their names and one that is cut short on purpose; its
// stdout was made from their reports.

#![tactic(auto)]

mod lines;

use lines::write_judged;
use std::io;
use stream::each_library;
use verifier::judge;

fn main(rt: HostRuntime) -> io::Result<()> {
    each_library(&mut rt.stdin(), &mut rt.stdout(), |_, output, file| {
        write_judged(output, judge(file))?;
        Ok(true)
    })
}
