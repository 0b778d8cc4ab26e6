// Why a program stops before its work is done, what it reports then, and with which status.

ghost use Rattle.std.specs.Prelude.{◌≡◌, ℕ, List, [], OnOk, IfErr};
ghost use Rattle.mps_report.specs.Reports.{status_of, report_of};
ghost use Rattle.mps_report.specs.Streams.{Reports};

use crate::notice::Notice;
use mps_desk::Desk;

/// What is bad in an input, and where.
pub trait BadPlace: Copy {
    /// The text of its report.
    ghost text: { Self → List ℕ };

    /// Its report.
    fn notice(self) -> Notice
        ensures { result ≡ text self };
}

/// The bad place of a program that reads no input. No program stops at it.
#[derive(Clone, Copy, Debug, PartialEq, Eq)]
pub struct NoBadPlace;

impl BadPlace for NoBadPlace {
    ghost text = { λ place. [] };

    fn notice(self) -> Notice {
        Notice::plain(b"")
    }
}

/// Why a program stops before its work is done. `E` says what is bad in its input, and where.
#[derive(Clone, Copy, Debug, PartialEq, Eq)]
pub enum Stop<E> {
    /// The input could not be opened or read.
    ReadFailed,
    /// What is printed could not be written.
    WriteFailed,
    /// The log could not be made or written.
    LogFailed,
    /// There are more records or lines than 32 bits count.
    TooLong,
    /// There is no memory.
    OutOfMemory,
    /// The input is bad, and here.
    Bad(E),
}

/// The status of a program that stops.
pub fn status_of_stop<E: Copy>(stop: Stop<E>) -> u8
    ensures { result ≡ status_of stop }
{
    match stop {
        Stop::ReadFailed => 3,
        Stop::WriteFailed => 4,
        Stop::LogFailed => 5,
        Stop::Bad(_) => 6,
        Stop::TooLong => 7,
        Stop::OutOfMemory => 8,
    }
}

/// The report of a program that stops.
pub fn notice_of_stop<E: BadPlace>(stop: Stop<E>) -> Notice
    ensures { result ≡ report_of E.text stop }
{
    match stop {
        Stop::ReadFailed => Notice::plain(b"mps: read failed\n"),
        Stop::WriteFailed => Notice::plain(b"mps: write failed\n"),
        Stop::LogFailed => Notice::plain(b"mps: log failed\n"),
        Stop::TooLong => Notice::plain(b"mps: too long\n"),
        Stop::OutOfMemory => Notice::plain(b"mps: out of memory\n"),
        Stop::Bad(place) => place.notice(),
    }
}

/// Reports why a program stopped, if it did, and returns its status.
pub fn report_ending<E: BadPlace, D: Desk>(ending: Result<(), Stop<E>>, desk: &mut D) -> u8
    ensures done { OnOk ending (result ≡ 0) }
    ensures quiet { OnOk ending (D.outside desk.new ≡ D.outside desk.old) }
    ensures status { IfErr ending (λ stop. result ≡ status_of stop) }
    ensures reported { IfErr ending (λ stop. Reports (D.outside desk.old) (D.outside desk.new) (report_of E.text stop)) }
{
    match ending {
        Ok(()) => 0,
        Err(stop) => {
            notice_of_stop(stop).report(desk);
            status_of_stop(stop)
        }
    }
}
