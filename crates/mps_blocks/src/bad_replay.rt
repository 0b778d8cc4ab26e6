// What is bad in a log whose records are replayed, and where.

use mps_log_reader::BadLog;
use mps_report::{BadPlace, Notice};

/// What is bad in a log whose records are replayed, and where.
#[derive(Clone, Copy, Debug, PartialEq, Eq)]
pub enum BadReplay {
    /// The log itself is bad.
    Log(BadLog),
    /// The record at this offset, in bytes, does not fit the blocks that are live.
    Replay { offset: u64 },
}

impl BadPlace for BadReplay {
    ghost use Rattle.mps_blocks.specs.BadReplay.{text_of_bad_replay};

    ghost text = { text_of_bad_replay };

    fn notice(self) -> Notice {
        match self {
            BadReplay::Log(bad) => bad.notice(),
            BadReplay::Replay { offset } => {
                Notice::with_number(b"mps: log offset ", offset, b": bad replay\n")
            }
        }
    }
}
