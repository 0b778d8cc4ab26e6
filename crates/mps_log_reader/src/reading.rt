// The header, the room for what is printed, and the end: what the readers of a log and of its text share.

ghost use Rattle.std.specs.Prelude.{◌≡◌, ◌≢◌, ◌≤◌, ◌+◌, ◌++◌, ◌⊎◌, ℕ, List, [], ◌∷◌, Some, true, false, length, IfErr, OnOk, OnErr};
ghost use Rattle.mps_desk.specs.Desk.{HasRisen, Asks, NothingWaits, OnlyOpens, OnlyPrints, opening};
ghost use Rattle.mps_log_reader.specs.Causes.{IsCaused, KeepsPrinting, StopIsJustified, WorksOnInput};
ghost use Rattle.mps_report.specs.Streams.{LeavesLogAlone, FlushedPrefix, PrintsPart};
ghost use Rattle.mps_log_reader.specs.Input.{IsAtEnd, IsComplete};
ghost use Rattle.mps_log_reader.specs.Left.{left_of, LastGives, EndGives};
ghost use Rattle.mps_log_reader.specs.PutOut.{put_out, IsToFlush, PrintsAsFar};
ghost use Rattle.mps_log_reader.specs.Opening.{OpensNothing, first_line, IsCutHeader, OpensWith, TakesHeader};

use crate::input::Input;
use mps_desk::Desk;
use mps_event::{Version, header};
use mps_report::{Output, Stop};

/// The bytes of the longest record.
pub const MAX_RECORD_BYTES: usize = 40;

/// Opens the log of this name and takes its header. `ReadFailed` where it could not be opened or read, `Bad(no_header)`
/// where it does not begin with the header of a version.
pub fn open_log<E: Copy, D: Desk>(
    log: &str,
    no_header: E,
    input: &mut Input,
    desk: &mut D,
) -> Result<Version, Stop<E>>
    requires { input.old ≡ record { pending = []; ended = false; failed = false } }
    ensures opened { (bytes : List ℕ) → (D.outside desk.old).text log.now ≡ Some bytes
        → OpensWith bytes (left_of (D.outside desk.new) input.new) result }
    // There are no other stops.
    ensures stops { IfErr result (λ why. (why ≡ Stop.ReadFailed) ⊎ (why ≡ Stop.Bad no_header)) }
    // Where it is known what the desk opens, a name that opens nothing could not be opened.
    ensures missing { OpensNothing (D.outside desk.old) log.now → result ≡ Err Stop.ReadFailed }
    // Where it could not be opened, or a read failed, the header had not come whole.
    ensures early { result ≡ Err Stop.ReadFailed → (bytes : List ℕ) → (D.outside desk.old).text log.now ≡ Some bytes
        → ((D.outside desk.new).input ≡ (D.outside desk.old).input) ⊎ IsCutHeader bytes (D.outside desk.new).input }
    ensures reported { (D.outside desk.new).reported ≡ (D.outside desk.old).reported }
    ensures err_faults { (D.outside desk.new).err_faults ≡ (D.outside desk.old).err_faults }
    ensures at_end { OnOk result (IsAtEnd (D.outside desk.new) input.new) }
    ensures printed { (D.outside desk.new).printed ≡ (D.outside desk.old).printed }
    ensures cause { IsCaused (D.outside desk.old) (D.outside desk.new) result }
    ensures fault { input.new.failed ≡ true → HasRisen (D.outside desk.old).in_faults (D.outside desk.new).in_faults }
    ensures runs { LeavesLogAlone (D.outside desk.old) (D.outside desk.new) }
    ensures asked { Asks (D.outside desk.old) (D.outside desk.new) (opening log.now ∷ []) }
    ensures others { OnlyOpens (D.outside desk.old) (D.outside desk.new) }
    ensures steady { OnOk result (input.new.failed ≡ false → (D.outside desk.new).in_faults ≡ (D.outside desk.old).in_faults) }
{
    let Ok(()) = desk.open(log) else {
        return Err(Stop::ReadFailed);
    };
    input.fill(8, desk);
    take_header(no_header, input)
}

/// Takes the header at the front.
fn take_header<E: Copy>(no_header: E, input: &mut Input) -> Result<Version, Stop<E>>
    // There are no other stops.
    ensures stops { IfErr result (λ why. (why ≡ Stop.ReadFailed) ⊎ (why ≡ Stop.Bad no_header)) }
    ensures justified { StopIsJustified input.old result }
    ensures taken { TakesHeader input.old input.new result }
    ensures failed { input.new.failed ≡ input.old.failed }
{
    match header(input.pending()) {
        Ok(version) => {
            input.take(8);
            Ok(version)
        }
        Err(_) if input.has_failed() && input.pending().len() < 8 => Err(Stop::ReadFailed),
        Err(_) => Err(Stop::Bad(no_header)),
    }
}

/// The first line of a text of this version.
pub fn put_first_line(version: Version, output: &mut Output)
    requires { length output.old + 9 ≤ 65536 }
    ensures { output.new ≡ output.old ++ first_line version }
{
    match version {
        Version::One => output.text(b"mpslog 1\n"),
        Version::Two => output.text(b"mpslog 2\n"),
    }
}

/// Makes room for a line, of 512 bytes. `WriteFailed` where what was gathered could not be printed.
pub fn make_room<E: Copy, D: Desk>(output: &mut Output, desk: &mut D) -> Result<(), Stop<E>>
    ensures fits { OnOk result (length output.new + 512 ≤ 65536) }
    ensures flushed { OnOk result (FlushedPrefix (D.outside desk.old) (D.outside desk.new) output.old output.new) }
    ensures part { OnErr result (PrintsPart (D.outside desk.old) (D.outside desk.new) output.old) }
    ensures input { (D.outside desk.new).input ≡ (D.outside desk.old).input }
    ensures reported { (D.outside desk.new).reported ≡ (D.outside desk.old).reported }
    ensures err_faults { (D.outside desk.new).err_faults ≡ (D.outside desk.old).err_faults }
    ensures cause { OnErr result (result ≡ Err Stop.WriteFailed) }
    ensures fault { OnErr result (HasRisen (D.outside desk.old).out_faults (D.outside desk.new).out_faults) }
    ensures runs { LeavesLogAlone (D.outside desk.old) (D.outside desk.new) }
    ensures steady { OnOk result ((D.outside desk.new).out_faults ≡ (D.outside desk.old).out_faults) }
    ensures others { OnlyPrints (D.outside desk.old) (D.outside desk.new) }
    ensures written { OnOk result (NothingWaits (D.outside desk.old) → NothingWaits (D.outside desk.new)) }
{
    match output.make_room(desk) {
        Ok(()) => Ok(()),
        Err(_) => Err(Stop::WriteFailed),
    }
}

/// The end of a log or text whose last record or line has the greatest number. `TooLong` where more follows, `ReadFailed`
/// where that could not be read.
pub fn after_the_last<E: Copy, D: Desk>(input: &mut Input, desk: &mut D) -> Result<(), Stop<E>>
    ensures works { WorksOnInput (D.outside desk.old) (D.outside desk.new) input.old input.new result }
    ensures gives { IsAtEnd (D.outside desk.old) input.old → LastGives (left_of (D.outside desk.old) input.old) result }
    // Where a read fails, nothing more had come.
    ensures unread { result ≡ Err Stop.ReadFailed → (D.outside desk.new).input ≡ left_of (D.outside desk.old) input.old }
    ensures whole { OnOk result (input.new.failed ≡ false) }
    // Where all had been read, no read fails.
    ensures complete { IsComplete input.old → result ≢ Err Stop.ReadFailed }
    ensures printed { (D.outside desk.new).printed ≡ (D.outside desk.old).printed }
    ensures reported { (D.outside desk.new).reported ≡ (D.outside desk.old).reported }
    ensures err_faults { (D.outside desk.new).err_faults ≡ (D.outside desk.old).err_faults }
{
    input.fill(1, desk);
    end_of(input)
}

/// The end, where no more can be counted.
fn end_of<E: Copy>(input: &Input) -> Result<(), Stop<E>>
    ensures justified { StopIsJustified input.now result }
    ensures gives { EndGives input.now result }
    ensures unread { result ≡ Err Stop.ReadFailed → input.now.pending ≡ [] }
{
    if !input.pending().is_empty() {
        Err(Stop::TooLong)
    } else if input.has_failed() {
        Err(Stop::ReadFailed)
    } else {
        Ok(())
    }
}

/// Prints what was gathered, after the end or a stop. Of two faults the first counts; `WriteFailed` where this printing
/// fails, unless a read had failed.
pub fn flush_after<E: Copy, D: Desk>(
    ending: Result<(), Stop<E>>,
    output: &mut Output,
    desk: &mut D,
) -> Result<(), Stop<E>>
    ensures reported { (D.outside desk.new).reported ≡ (D.outside desk.old).reported }
    ensures err_faults { (D.outside desk.new).err_faults ≡ (D.outside desk.old).err_faults }
    ensures printed { IsToFlush result → (D.outside desk.new).printed ≡ put_out (D.outside desk.old) output.old }
    // Where a read had failed, a write may fail too: then a prefix of what was gathered was printed.
    ensures front { result ≡ Err Stop.ReadFailed → PrintsAsFar (D.outside desk.old) (D.outside desk.new) output.old }
    // Where a write fails, a prefix of what was gathered was printed; where one had failed before, nothing more.
    ensures part { result ≡ Err Stop.WriteFailed → ending ≢ Err Stop.WriteFailed
        → PrintsPart (D.outside desk.old) (D.outside desk.new) output.old }
    ensures no_more { ending ≡ Err Stop.WriteFailed → D.outside desk.new ≡ D.outside desk.old }
    ensures input { (D.outside desk.new).input ≡ (D.outside desk.old).input }
    ensures first { (result ≡ ending) ⊎ ((result ≡ Err Stop.WriteFailed)
        × HasRisen (D.outside desk.old).out_faults (D.outside desk.new).out_faults) }
    ensures runs { LeavesLogAlone (D.outside desk.old) (D.outside desk.new) }
    ensures others { OnlyPrints (D.outside desk.old) (D.outside desk.new) }
    ensures printing { KeepsPrinting (D.outside desk.old) (D.outside desk.new) result }
    // Where all was written, no call failed.
    ensures steady { OnOk result ((D.outside desk.new).out_faults ≡ (D.outside desk.old).out_faults) }
{
    match ending {
        Err(Stop::WriteFailed) => ending,
        Err(Stop::ReadFailed) => {
            let _ = output.flush(desk);
            ending
        }
        _ => match output.flush(desk) {
            Ok(()) => ending,
            Err(_) => Err(Stop::WriteFailed),
        },
    }
}
