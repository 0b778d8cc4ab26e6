// What the words of a command line ask for.

use mps_event::Kinds;

/// What the program is asked to do. A file to read may be `-`, standard input.
#[derive(Clone, Copy, Debug, PartialEq, Eq)]
pub enum Command<'a> {
    /// Runs a script and writes its log.
    Run { log: &'a str, script: &'a str },
    /// Prints the portable text of a log, of some kinds of records.
    Convert { log: &'a str, kinds: Kinds },
    /// Prints the readable text of a portable text.
    Read { text: &'a str },
    /// Prints the blocks that are live at the end of a log.
    Blocks { log: &'a str },
    /// Prints a generated script, of at most 1,000,000 steps.
    Generate { seed: u64, count: u64 },
    /// Runs a generated script, of at most 1,000,000 steps, writes its log, and prints the last two answers.
    RunGenerated { log: &'a str, seed: u64, count: u64 },
}
