//! The command line of the memory pool system: `mps run` runs a script over a heap, prints its answers and logs what
//! happened; `mps cnv`, `mps txt` and `mps blocks` read logs; `mps gen` prints a generated script, or runs it.
#![tactic(auto)]

use mps_desk::HostDesk;
use mps_program::{NoWords, start_over};
use std::alloc::{AllocError, Global};
use std::io::ErrorKind;
use std::process::ExitCode;
use std::random::RandomSource;
use std::{env, io};

/// More bytes than any table of an arena has, or its words.
const LARGE_BLOCK: usize = 16 << 20;

fn main(rt: HostRuntime) -> ExitCode {
    share_one_heap(rt.alloc());
    let (status, _desk) = start_over(rt.alloc(), secret(&rt), words(&rt), HostDesk::new(&rt));
    ExitCode::from(status)
}

/// Takes a large block and gives it back, after which the C library takes the tables of an arena from one heap, where they follow
/// each other. Before that it gives each block of 128 KiB or more pages of its own. Then all tables of a large arena begin at the same
/// place of a page, and a load from one may wait for a store to another at the same index. Only speed depends on it, so no memory is
/// no fault.
fn share_one_heap(alloc: Global) {
    let block: Result<Vec<u8>, AllocError> = Vec::with_capacity(alloc, LARGE_BLOCK);
    drop(block);
}

/// A number that the writer of a log can't foresee, or 0 if the system gives none.
fn secret(rt: &HostRuntime) -> u64 {
    let mut bytes = [0u8; 8];
    match rt.fill_bytes(&mut bytes) {
        Ok(()) => u64::from_le_bytes(bytes),
        Err(_) => 0,
    }
}

/// The words of the command line after the program's name.
fn words(rt: &HostRuntime) -> Result<Vec<String>, NoWords> {
    match collect_words(rt) {
        Ok(words) => Ok(words),
        Err(error) if error.kind() == ErrorKind::InvalidData => Err(NoWords::NotText),
        Err(_) => Err(NoWords::OutOfMemory),
    }
}

fn collect_words(rt: &HostRuntime) -> io::Result<Vec<String>> {
    let mut arguments = env::args(rt)?;
    let _program = arguments.next();
    let words: Result<Vec<String>, AllocError> = arguments.collect(rt.alloc());
    Ok(words?)
}
