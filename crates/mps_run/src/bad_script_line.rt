// A bad line of a script, and what is reported of it.
ghost use Rattle.std.specs.Prelude.{◌≡◌};
ghost use Rattle.mps_run.specs.Ending.{text_of_bad_line};

use mps_report::{BadPlace, Notice};

/// A line of a script that is bad, counted from 1.
#[derive(Clone, Copy, Debug, PartialEq, Eq)]
pub struct BadScriptLine {
    pub line: u32,
}

impl BadPlace for BadScriptLine {
    ghost text = { text_of_bad_line };

    fn notice(self) -> Notice {
        Notice::with_number(b"mps: script line ", u64::from(self.line), b": bad line\n")
    }
}
