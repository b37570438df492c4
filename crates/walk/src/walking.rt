// The control walk.
ghost use Rattle.std.specs.Prelude.{◌≡◌};
ghost use Rattle.answer.specs.Answers.{answered};
ghost use Rattle.walk.specs.Walk.{walk_fetches, RunsWhole, steps_of, written_to};

use crate::engine::run_main;
use crate::settings::Settings;
use answer::{Reason, Refusal};
use container::executable_of;
use verifier::{check, words_of};

// The whole check, then 29 for an executable that is not there, then 30 for fewer than 16 bools or 4
// integers; else the run of the executable. The index of each fetched word is written to `fetched`, as many
// as fit; the rest of it stays, and all of it where the walk is refused.
pub fn walk(
    file: &[u8],
    executable: u32,
    bools: &[u8],
    ints: &[u8],
    truth: &[u8],
    fetched: &mut [u16],
) -> Result<u32, Refusal>
    ensures answers { answered result ≡ steps_of (walk_fetches file.now executable bools.now ints.now truth.now) }
    ensures writes { fetched.new ≡ written_to fetched.old (walk_fetches file.now executable bools.now ints.now truth.now) }
    ensures runs { RunsWhole file.now executable bools.now ints.now truth.now result }
{
    // The scope document names this form.
    let verdict = check(file);
    let Ok(library) = verdict else {
        return Err(verdict.unwrap_err());
    };
    library.require(executable)?;
    if bools.len() < 16 || ints.len() < 4 {
        return Err(Reason::BufferTooShort.at(0));
    }
    let e = executable_of(file, executable);
    let count = library.program.words.count as usize;
    let loaded = words_of(file, library.program.words);
    let words = &loaded[..count];
    let settings = Settings { bools, ints, truth };
    Ok(run_main(words, e.main, e.endmain, &settings, fetched))
}
