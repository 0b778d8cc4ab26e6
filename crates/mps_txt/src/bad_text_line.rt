// What is bad in a portable text: a line.

ghost use Rattle.mps_txt.specs.BadTextLine.{text_of_bad_line};

use mps_report::{BadPlace, Notice};

/// The line of a portable text, counted from 1, that is wrong.
#[derive(Clone, Copy, Debug, PartialEq, Eq)]
pub struct BadTextLine {
    /// Its number.
    pub line: u64,
}

impl BadPlace for BadTextLine {
    ghost text = { text_of_bad_line };

    fn notice(self) -> Notice {
        Notice::with_number(b"mps: text line ", self.line, b": bad line\n")
    }
}
