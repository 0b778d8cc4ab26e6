// Desks, alone and under the program.
//
// The check goes over each test as over any function, so their form is one that costs little: tables are constants, a case
// has a function of its own, and the function that owns a desk does nothing but hand it on.
mod desk;
mod gathered;
mod host;
mod played;

use std::alloc::{AllocError, Global};
use std::process::Abort;

/// The words of a line.
fn words_of(alloc: Global, line: &str) -> Result<Vec<String>, AllocError> {
    let mut words = Vec::new(alloc);
    for word in line.split(' ') {
        words.push(String::from_str(alloc, word)?)?;
    }
    Ok(words)
}

/// Compares bytes. A call of its own, as each comparison of bytes is dear to check.
fn compare_bytes(rt: &impl Abort, got: &[u8], wanted: &[u8], what: &str) {
    assert_eq!(rt; got, wanted, "{what}");
}
