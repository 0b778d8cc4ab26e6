// The whole program over a desk in memory.
//
// The check goes over each test as over any function, so their form is one that costs little: tables are constants, a case
// has a function of its own, and the function that owns a desk does nothing but hand it on.
mod long_lines;
mod memory;
mod scripts;
mod words;

use mps_desk::MemDesk;
use mps_program::mps;
use std::alloc::{AllocError, Global};
use std::process::Abort;

/// The first script: it commits one block and prints its number.
const FIRST: &[u8] =
    b"arena 8 8\ntable t 4\npool p amc front\nap x p exact\nreserve x f:3:1\ninit x 2 7\ncommit x t.0\nnum t.0 2\n";

const FIRST_ANSWERS: &[u8] = b"ok\nok\nok\nok\nok\nok\nok\n7\n";

/// Its log: the header, then ArenaCreate, PoolCreate, SegAlloc and Commit.
const FIRST_LOG: &[u8] = b"MPSLOG\x02\x00\
    \x01\x00\x02\x00\x01\x00\x00\x00\x08\x00\x00\x00\x00\x00\x00\x00\x08\x00\x00\x00\x00\x00\x00\x00\
    \x10\x00\x03\x00\x03\x00\x00\x00\x00\x00\x00\x00\x00\x00\x00\x00\x01\x00\x00\x00\x00\x00\x00\x00\x01\x00\x00\x00\x00\x00\x00\x00\
    \x30\x00\x04\x00\x05\x00\x00\x00\x00\x10\x00\x00\x00\x00\x00\x00\x01\x00\x00\x00\x00\x00\x00\x00\
    \x00\x00\x00\x00\x00\x00\x00\x00\x00\x00\x00\x00\x00\x00\x00\x00\
    \x50\x00\x03\x00\x07\x00\x00\x00\x00\x10\x00\x00\x00\x00\x00\x00\x03\x00\x00\x00\x00\x00\x00\x00\x00\x00\x00\x00\x00\x00\x00\x00";

/// What is reported where the words have no meaning.
const USAGE: &[u8] = b"mps: usage: run, cnv, txt, blocks or gen\n";

/// A generated script without steps.
const GENERATED: &[u8] =
    b"arena 1024 1024\nchain c 4 8\npool p amc front c\ntable t 16\nap x p exact\ncollect\nlive\ncommitted\n";

/// Empty lines and comments.
const COMMENTS: &[u8] = b"\n   \n # arena\n#\x00\xff\r\n";

/// An arena of one grain, which is full after a block of 512 words.
const FULL_ARENA: &[u8] =
    b"arena 1 1\ntable t 1\npool p amc front\nap x p exact\nnum t.0 1\nreserve x f:512:0\ncommit x t.0\nreserve x f:2:0\n\
    get t.0 t.0 1";

const FULL_ARENA_ANSWERS: &[u8] =
    b"ok\nok\nok\nok\nrefused 4\nok\nok\nrefused 10 1 1 1\nrefused 5\n";

/// Spaces around words, after a comment.
const SPACED: &[u8] = b"# x\n arena  8   9 \nchain c 1\n start  c   1 \n";

const SPACED_ANSWERS: &[u8] = b"ok\nok\nrefused 3\n";

/// A collection moves a block from 0x1000 to 0x2000, and gives its segment back.
const COLLECTED: &[u8] =
    b"arena 8 8\ntable t 4\npool p amc front\nap x p exact\nreserve x f:3:1\ninit x 2 7\ncommit x t.0\nnum t.0 2\naddr t.0\n\
    collect\naddr t.0\ncommitted\ndump 0x2000\n";

const COLLECTED_ANSWERS: &[u8] =
    b"ok\nok\nok\nok\nok\nok\nok\n7\n0x1000\nok\n0x2000\n1\n0x100000301 0x0 0x7\n";

/// A reference keeps its tag where its target is put and where its block moves, and a number has none.
const TAGGED: &[u8] =
    b"arena 8 8\ntable t 4\npool p amc front\nap x p exact\nreserve x f:3:1\ncommit x t.0\nsettag t.0 1 5\nput t.0 1 t.0\ntag t.0 1\n\
    collect\ntag t.0 1\naddr t.0\ndump 0x2000\ntag t.0 2\nsettag t.0 3 1\nsettag t.1 1 1\n";

const TAGGED_ANSWERS: &[u8] =
    b"ok\nok\nok\nok\nok\nok\nok\nok\n5\nok\n5\n0x2000\n0x100000301 0x2005 0x0\nrefused 5\nrefused 3\nrefused 4\n";

/// A label is made and put at an object, names share one space, and a null slot is refused before a name.
const LABELLED: &[u8] =
    b"arena 8 8\ntable t 4\npool p amc front\nap x p exact\nreserve x f:3:1\ninit x 2 7\ncommit x t.0\nnum t.0 2\n\
    intern ring\nlabel t.0 ring\ncollect\nintern t\nlabel t.1 none\nlabel t.0 t\ntable ring 1\nintern second\nlabel t.0 second\n";

const LABELLED_ANSWERS: &[u8] =
    b"ok\nok\nok\nok\nok\nok\nok\n7\n0\n0x1000\nok\nrefused 2\nrefused 4\nrefused 1\nrefused 2\n1\n0x2000\n";

/// Heads of one digit and of more, with spaces around them, and one that breaks the rules.
const HEADS: &[u8] =
    b"arena 8 8\ntable t 1\npool p amc front\nap x p exact\nreserve x   f:2:0  \ncommit x t.0\nhead t.0\n\
    reserve x f:12:3\ncommit x t.0\nhead t.0\nreserve x f:1:9\n";

const HEADS_ANSWERS: &[u8] = b"ok\nok\nok\nok\nok\nok\nf:2:0\nok\nok\nf:12:3\nrefused 7\n";

/// A command before the arena, and the arena again.
const NO_ARENA_FIRST: &[u8] = b"\ntable t 4\narena 8 9\n";

const ARENA_AGAIN: &[u8] = b"arena 8 9\n\narena 8 9\nlive\n";

/// The header of a log.
const HEADER: &[u8] = b"MPSLOG\x02\x00";

/// A status, what was printed and what was reported.
#[derive(Clone, Copy)]
struct Ends {
    status: u8,
    printed: &'static [u8],
    reported: &'static [u8],
}

/// Runs the program with the words of a line, and returns the status.
fn run(alloc: Global, desk: &mut MemDesk, line: &str) -> Result<u8, AllocError> {
    let words = words_of(alloc, line)?;
    Ok(mps(alloc, 7, &words, desk))
}

/// The words of a line.
fn words_of(alloc: Global, line: &str) -> Result<Vec<String>, AllocError> {
    let mut words = Vec::new(alloc);
    for word in line.split(' ') {
        words.push(String::from_str(alloc, word)?)?;
    }
    Ok(words)
}

/// Compares the results of a line of words.
fn compare(rt: &impl Abort, desk: &MemDesk, line: &str, status: u8, ends: &Ends) {
    assert_eq!(rt; status, ends.status, "{line}");
    compare_bytes(rt, desk.printed(), ends.printed, line);
    compare_bytes(rt, desk.reported(), ends.reported, line);
}

/// Compares bytes of a line of words. A call of its own, as each comparison of bytes is dear to check.
fn compare_bytes(rt: &impl Abort, got: &[u8], wanted: &[u8], line: &str) {
    assert_eq!(rt; got, wanted, "{line}");
}
