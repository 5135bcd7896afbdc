// Stored jobs, named by the arguments, run one after the other by the code of the job program.
#![tactic(auto)]

use std::env::{Env, FillError};
use std::fs::File;
use std::io;
use std::rt::Files;

// No path is longer.
const PATH_BYTES: usize = 4_096;

fn run_named<R: Files + Print + Eprint>(rt: &R, name: &str) -> io::Result<()> {
    match File::open(rt, name) {
        Ok(mut from) => job_io::run(&mut from, &mut io::writer(rt)),
        Err(e) => eprintln!(rt; "{name}: {e}"),
    }
}

// Paths of std are texts: one that is none is not opened.
fn run_file<R: Files + Print + Eprint>(rt: &R, path: &[u8]) -> io::Result<()> {
    rt.write_all(path)?;
    rt.write_all(b"\n")?;
    match str::from_utf8(path) {
        Ok(name) => run_named(rt, name),
        Err(e) => eprintln!(rt; "the path above is no text: {e}"),
    }
}

// Argument `i`, if there is one. One that is longer than a path counts as empty.
fn argument<'a, R: Env>(rt: &R, i: usize, path: &'a mut [u8]) -> Option<&'a [u8]> {
    match rt.arg(i, path) {
        Ok(length) => Some(&path[..length]),
        Err(FillError::TooLong) => Some(&[]),
        Err(FillError::NotPresent) => None,
    }
}

// std's list of all arguments allocates, so they are asked for one by one.
fn main(rt: HostRuntime) -> io::Result<()> {
    let mut path = [0u8; PATH_BYTES];
    for i in 1..usize::MAX {
        let Some(path) = argument(&rt, i, &mut path) else {
            break;
        };
        run_file(&rt, path)?;
    }
    Ok(())
}
