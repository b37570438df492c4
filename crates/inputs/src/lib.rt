// What the programs are given: bytes to be read, arguments, and the files that these name.

#![tactic(auto)]

ghost use Rattle.std.specs.Prelude.{◌≡◌, ℕ, ◌<◌, List, length, take, Ok, IfOk, OnOk, OnErr, IfSome, IsUtf8};
ghost use Rattle.std.specs.Io.KnownBytes.{Consumes, IsAtEnd};
ghost use Rattle.std.specs.Counts.{IsPrefixLen};
ghost use Rattle.std.specs.Fn.{CalledAt};
ghost use Rattle.std.specs.List.{FoldsTo};

use std::env::{Env, FillError};
use std::io::Read;
use std::rt::Files;
use std::{fs, io, str};

// Reads until `bytes` is full, the input ends or a read fails, and answers how many bytes are at its start,
// and the failure. A read may give fewer bytes than there are.
pub fn read_what_comes<R: Read>(input: &mut R, bytes: &mut [u8]) -> (usize, io::Result<()>)
    ensures inside { IsPrefixLen result.0 bytes.new }
    ensures next { Consumes (R.remaining input.old) (R.remaining input.new) (take result.0 bytes.new) }
    ensures ended { OnOk result.1 (result.0 < length bytes.new → IsAtEnd (R.remaining input.new)) }
{
    let mut done = 0;
    while done < bytes.len() {
        match input.read(&mut bytes[done..]) {
            Ok(0) => return (done, Ok(())),
            Ok(more) => done += more,
            Err(failure) => return (done, Err(failure)),
        }
    }
    (done, Ok(()))
}

// Reads until `bytes` is full or the input ends, and answers how many bytes are at its start.
pub fn read_full<R: Read>(input: &mut R, bytes: &mut [u8]) -> io::Result<usize>
    ensures inside { IfOk result (λ n. IsPrefixLen n bytes.new) }
    ensures next { IfOk result (λ n. Consumes (R.remaining input.old) (R.remaining input.new) (take n bytes.new)) }
    ensures ended { IfOk result (λ n. n < length bytes.new → IsAtEnd (R.remaining input.new)) }
    ensures failed { OnErr result (length bytes.new ≡ length bytes.old) }
{
    let (count, ended) = read_what_comes(input, bytes);
    ended?;
    Ok(count)
}

// Puts an argument at the start of `name` and answers its length; none where there is no such argument. One
// that does not fit fills `name`, and is then too long for any file to be opened by it.
pub fn argument<E: Env>(env: &E, index: usize, name: &mut [u8]) -> Option<usize>
    ensures { IfSome result (λ n. IsPrefixLen n name.new) }
{
    match env.arg(index, name) {
        Ok(length) => Some(length),
        Err(FillError::TooLong) => Some(name.len()),
        Err(FillError::NotPresent) => None,
    }
}

// Visits one argument after another, the program's own name left out, until a visit fails, and answers how
// many there were. A proved loop has to end, and nothing says that the arguments do: so it counts its turns,
// up to a number that no run uses up.
pub fn each_argument<E: Env, F: FnMut(&[u8]) -> io::Result<()>>(
    env: &E,
    mut visit: F,
) -> io::Result<usize>
    requires { F.IsAlwaysCallable visit }
    ensures { IfOk result (λ visits. (names : List (List ℕ)) × (last : F) × (length names ≡ visits) × FoldsTo (λ f name after. CalledAt F.FnMut f name (Ok tt) after) visit names last) }
{
    let mut name = [0u8; 4096];
    let mut visits = 0;
    for index in 1..usize::MAX {
        let Some(length) = argument(env, index, &mut name) else {
            break;
        };
        visit(&name[..length])?;
        visits = index;
    }
    Ok(visits)
}

// Opens a file for reading. Paths are text, so no file is opened by a name that is not UTF-8.
pub fn open_file<R: Files>(files: &R, name: &[u8]) -> io::Result<R::File>
    ensures { OnOk result (IsUtf8 name.now) }
{
    match str::from_utf8(name) {
        Ok(path) => fs::open(files, path),
        Err(_) => Err(io::Error::from(io::ErrorKind::InvalidFilename)),
    }
}
