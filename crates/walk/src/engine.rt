// The engine: fetches one word after another.
ghost use Rattle.std.specs.Prelude.{◌≡◌, ◌<◌, ◌≤◌, length, set};
ghost use Rattle.std.proofs.lemmas.List.Edits.{sets};
ghost use Rattle.walk.specs.Inside.{controls_of, stands, move_of, followed, left_after, Runs, fetches_by, settings_by};

use crate::frames::Frames;
use crate::moves::move_of;
use crate::settings::Settings;
use binary::WordAddress;
use instruction::{Control, control_of};

// What each word does to control flow. A walk fetches a word up to millions of times, so words are decoded
// once.
fn controls_of(words: &[u32]) -> [Control; 512]
    requires { length words.now ≤ 512 }
    ensures { result ≡ controls_of words.now }
{
    let mut controls = [Control::Plain; 512];
    for (p, word) in words.iter().enumerate() {
        controls[p] = control_of(*word);
    }
    controls
}

// Writes the index of a fetched word, if the list is so long.
fn note(fetched: &mut [u16], step: usize, word: u16)
    ensures { fetched.new ≡ set fetched.old step word }
{
    if step < fetched.len() {
        fetched[step] = word;
    }
}

// Does what a word asks for, with the address after it and the outcomes that are left, and answers the next
// word; None at END, and at a BREAK with no LOOP open.
fn step(
    frames: &mut Frames,
    settings: &Settings,
    control: &Control,
    next: u64,
    outcomes: &mut &[u8],
) -> Option<u64>
    requires { length frames.old < 16 }
    ensures steps { stands result frames.new ≡ followed frames.old (move_of (settings_by settings.now) control.now next outcomes.old.now) }
    ensures left { outcomes.new.now ≡ left_after control.now outcomes.old.now }
{
    frames.follow(move_of(settings, control, next, outcomes)?)
}

// The run of a main whose whole run is known to end: how many steps it makes, and in `fetched` the index of
// each fetched word, as many as fit.
pub(crate) fn run_main(
    words: &[u32],
    main: WordAddress,
    endmain: WordAddress,
    settings: &Settings,
    fetched: &mut [u16],
) -> u32
    requires { Runs words.now (settings_by settings.now) main.0 endmain.0 }
    ensures steps { result ≡ length (fetches_by words.now (settings_by settings.now) main.0 endmain.0) }
    ensures writes { fetched.new ≡ sets fetched.old 0 (fetches_by words.now (settings_by settings.now) main.0 endmain.0) }
{
    let controls = controls_of(words);
    let mut frames = Frames::of_main(endmain.0 as u64);
    let mut outcomes = settings.truth;
    let mut word = main.0 as u64;
    let mut steps = 0;
    loop {
        note(fetched, steps, word as u16);
        steps += 1;
        let control = &controls[word as usize];
        let Some(next) = step(&mut frames, settings, control, word + 1, &mut outcomes) else {
            return steps as u32;
        };
        word = next;
    }
}
