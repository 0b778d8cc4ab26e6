// What is bad in a log, and where.

ghost use Rattle.std.specs.Prelude.{◌≡◌};
ghost use Rattle.mps_log_reader.specs.BadLog.{text_of_fault, text_of_bad_log};

use mps_event::LogFault;
use mps_report::{BadPlace, Notice};

/// What is bad in a log, and where.
#[derive(Clone, Copy, Debug, PartialEq, Eq)]
pub enum BadLog {
    /// It does not begin with a header.
    Header,
    /// The record at this offset, in bytes, is wrong.
    Record { offset: u64, fault: LogFault },
}

impl BadPlace for BadLog {
    ghost text = { text_of_bad_log };

    fn notice(self) -> Notice {
        match self {
            BadLog::Header => Notice::plain(b"mps: log offset 0: bad header\n"),
            BadLog::Record { offset, fault } => notice_of_fault(offset, fault),
        }
    }
}

/// The report of a record that is wrong.
fn notice_of_fault(offset: u64, fault: LogFault) -> Notice
    ensures { result ≡ text_of_fault offset fault }
{
    match fault {
        LogFault::UnknownCode => {
            Notice::with_number(b"mps: log offset ", offset, b": unknown code\n")
        }
        LogFault::BadCount => Notice::with_number(b"mps: log offset ", offset, b": bad count\n"),
        LogFault::Cut => Notice::with_number(b"mps: log offset ", offset, b": cut record\n"),
        LogFault::BadString => Notice::with_number(b"mps: log offset ", offset, b": bad string\n"),
    }
}
