// `blocks`: the blocks that are live at the end of a log.

ghost use Rattle.std.specs.Prelude.{◌≡◌, ◌≢◌, ◌≤◌, ◌<◌, ◌+◌, ◌⊎◌, ℕ, List, Ok, Some, None, true, false, length, IfOk, IfSome, OnOk};
ghost use Rattle.mps_desk.specs.Desk.{IsSteady};
ghost use Rattle.mps_log_reader.specs.Causes.{AsksForInput, AsksWith, IsCaused, KeepsPrinting, StopIsJustified, WorksOnInput, StatusIsJustified};
ghost use Rattle.mps_log_reader.specs.Input.{IsAtEnd};
ghost use Rattle.mps_log_reader.specs.Left.{left_of};
ghost use Rattle.mps_log_reader.specs.Opening.{OpensNothing};
ghost use Rattle.mps_report.specs.Reports.{ReportsStatus};
ghost use Rattle.mps_blocks.specs.BadReplay.{text_of_bad_replay};
ghost use Rattle.mps_log_reader.specs.Ending.{is_input_verdict, IsUnopened};
ghost use Rattle.mps_report.specs.Streams.{LeavesLogAlone};
ghost use Rattle.mps_model.specs.Replayed.{at_the_start};
ghost use Rattle.mps_blocks.specs.Listed.{ListedWith, IsUniqueList, ListsPart, HasListed, IsSilent};
ghost use Rattle.mps_blocks.specs.Replaying.{PendingReplays, NextReplays, AllReplay, HasReplayed};

use crate::bad_replay::BadReplay;
use crate::listing::{print_listing, sorted_blocks};
use crate::replay::{Replay, ReplayFault};
use mps_desk::Desk;
use mps_event::{RecordRef, Version, first};
use mps_log_reader::{BadLog, Input, MAX_RECORD_BYTES, after_the_last, open_log};
use mps_report::{Output, Stop, report_ending};
use std::alloc::Global;

/// Prints the blocks that are live at the end of the log of this name, after all of it was read, in ascending order of
/// their addresses, and returns the status of the program: 0, or with a report 3 where a read failed, 4 where a write
/// failed, 6 at the first record that is wrong or cannot be replayed, 7 where record 2^32 begins, 8 where there is no memory.
/// The secret is a random number: whoever knows it can make a log over which this is slow, but what is printed doesn't depend on it.
pub fn blocks<D: Desk>(alloc: Global, secret: u64, log: &str, desk: &mut D) -> u8
    ensures status { StatusIsJustified (D.outside desk.old) (D.outside desk.new) result }
    // The log of this name was asked for, and nothing else.
    ensures asked { AsksWith log.now (D.outside desk.old) (D.outside desk.new) result }
    // With any status but 0 its ending was reported, and with 0 nothing.
    ensures reported { ReportsStatus text_of_bad_replay result (D.outside desk.old) (D.outside desk.new) }
    // Where the opened file is known and the status is a verdict on it: exactly this was printed.
    ensures listed { is_input_verdict result ≡ true → (bytes : List ℕ) → (D.outside desk.old).text log.now ≡ Some bytes
        → ListedWith bytes result (D.outside desk.old) (D.outside desk.new) }
    // And nothing else: a whole log gives 0 and its live blocks, one that is damaged 6 at its first bad place.
    ensures unique { is_input_verdict result ≡ true → (bytes : List ℕ) → (D.outside desk.old).text log.now ≡ Some bytes
        → IsUniqueList bytes result (D.outside desk.old) (D.outside desk.new) }
    // Nothing is printed before all was read and replayed.
    ensures silent { result ≢ 0 → result ≢ 4 → (D.outside desk.new).printed ≡ (D.outside desk.old).printed }
    // Where a write failed, a prefix of the list was printed.
    ensures cut { result ≡ 4 → (bytes : List ℕ) → (D.outside desk.old).text log.now ≡ Some bytes
        → ListsPart bytes (D.outside desk.old) (D.outside desk.new) }
    // Where it is known what the desk opens, a log that is not there is not read: nothing is printed.
    ensures missing { OpensNothing (D.outside desk.old) log.now → IsUnopened result (D.outside desk.old) (D.outside desk.new) }
{
    let ending = list_blocks(alloc, secret, log, desk);
    report_ending(ending, desk)
}

fn list_blocks<D: Desk>(
    alloc: Global,
    secret: u64,
    log: &str,
    desk: &mut D,
) -> Result<(), Stop<BadReplay>>
    ensures cause { IsCaused (D.outside desk.old) (D.outside desk.new) result }
    ensures runs { LeavesLogAlone (D.outside desk.old) (D.outside desk.new) }
    ensures asked { AsksForInput log.now (D.outside desk.old) (D.outside desk.new) result }
    ensures steady { OnOk result (IsSteady (D.outside desk.old) (D.outside desk.new)) }
    ensures printing { KeepsPrinting (D.outside desk.old) (D.outside desk.new) result }
    ensures reported { (D.outside desk.new).reported ≡ (D.outside desk.old).reported }
    ensures err_faults { (D.outside desk.new).err_faults ≡ (D.outside desk.old).err_faults }
    ensures silent { IsSilent result → (D.outside desk.new).printed ≡ (D.outside desk.old).printed }
    ensures listed { (bytes : List ℕ) → (D.outside desk.old).text log.now ≡ Some bytes
        → HasListed bytes result (D.outside desk.old) (D.outside desk.new) }
    ensures missing { OpensNothing (D.outside desk.old) log.now → (result ≡ Err Stop.ReadFailed) ⊎ (result ≡ Err Stop.OutOfMemory) }
{
    let mut output = match Output::new(alloc) {
        Ok(output) => output,
        Err(_) => return Err(Stop::OutOfMemory),
    };
    let replay = replay_log(alloc, secret, log, desk)?;
    let blocks = match sorted_blocks(replay.into_live()) {
        Ok(blocks) => blocks,
        Err(_) => return Err(Stop::OutOfMemory),
    };
    match print_listing(&blocks, &mut output, desk) {
        Ok(()) => Ok(()),
        Err(_) => Err(Stop::WriteFailed),
    }
}

/// Replays the log of this name from its header to its end.
fn replay_log<D: Desk>(
    alloc: Global,
    secret: u64,
    log: &str,
    desk: &mut D,
) -> Result<Replay, Stop<BadReplay>>
    ensures cause { IsCaused (D.outside desk.old) (D.outside desk.new) result }
    ensures runs { LeavesLogAlone (D.outside desk.old) (D.outside desk.new) }
    ensures asked { AsksForInput log.now (D.outside desk.old) (D.outside desk.new) result }
    ensures steady { OnOk result (IsSteady (D.outside desk.old) (D.outside desk.new)) }
    ensures printing { KeepsPrinting (D.outside desk.old) (D.outside desk.new) result }
    ensures printed { (D.outside desk.new).printed ≡ (D.outside desk.old).printed }
    ensures reported { (D.outside desk.new).reported ≡ (D.outside desk.old).reported }
    ensures err_faults { (D.outside desk.new).err_faults ≡ (D.outside desk.old).err_faults }
    ensures replayed { (bytes : List ℕ) → (D.outside desk.old).text log.now ≡ Some bytes → HasReplayed bytes result }
    ensures missing { OpensNothing (D.outside desk.old) log.now → (result ≡ Err Stop.ReadFailed) ⊎ (result ≡ Err Stop.OutOfMemory) }
{
    let mut input = match Input::new(alloc) {
        Ok(input) => input,
        Err(_) => return Err(Stop::OutOfMemory),
    };
    let mut replay = Replay::new(alloc, secret);
    let version = open_log(log, BadReplay::Log(BadLog::Header), &mut input, desk)?;
    replay_records(version, &mut replay, &mut input, desk)?;
    Ok(replay)
}

fn replay_records<D: Desk>(
    version: Version,
    replay: &mut Replay,
    input: &mut Input,
    desk: &mut D,
) -> Result<(), Stop<BadReplay>>
    requires at_end { IsAtEnd (D.outside desk.old) input.old }
    requires start { replay.old ≡ at_the_start }
    ensures works { WorksOnInput (D.outside desk.old) (D.outside desk.new) input.old input.new result }
    ensures printed { (D.outside desk.new).printed ≡ (D.outside desk.old).printed }
    ensures reported { (D.outside desk.new).reported ≡ (D.outside desk.old).reported }
    ensures err_faults { (D.outside desk.new).err_faults ≡ (D.outside desk.old).err_faults }
    ensures whole { OnOk result (input.new.failed ≡ false) }
    ensures all { (bytes : List ℕ) → left_of (D.outside desk.old) input.old ≡ Some bytes
        → AllReplay version bytes replay.old replay.new result }
{
    let mut offset: u64 = 8;
    for _ in 0..u32::MAX {
        match replay_next(version, replay, input, offset, desk)? {
            None => return Ok(()),
            Some(size) => offset += size as u64,
        }
    }
    after_the_last(input, desk)
}

/// Replays the next record, and answers its size; None at the end.
fn replay_next<D: Desk>(
    version: Version,
    replay: &mut Replay,
    input: &mut Input,
    offset: u64,
    desk: &mut D,
) -> Result<Option<usize>, Stop<BadReplay>>
    requires at_end { IsAtEnd (D.outside desk.old) input.old }
    requires room { replay.old.interned < 4294967296 }
    ensures works { WorksOnInput (D.outside desk.old) (D.outside desk.new) input.old input.new result }
    ensures size { IfOk result (λ o. IfSome o (λ size. size ≤ 40)) }
    ensures replays { NextReplays version offset (left_of (D.outside desk.old) input.old) (left_of (D.outside desk.new) input.new)
        replay.old replay.new result }
    ensures whole { result ≡ Ok None → input.new.failed ≡ false }
    ensures at_end { IsAtEnd (D.outside desk.new) input.new }
    ensures printed { (D.outside desk.new).printed ≡ (D.outside desk.old).printed }
    ensures reported { (D.outside desk.new).reported ≡ (D.outside desk.old).reported }
    ensures err_faults { (D.outside desk.new).err_faults ≡ (D.outside desk.old).err_faults }
{
    input.fill(MAX_RECORD_BYTES, desk);
    let size = replay_record(version, replay, input, offset)?;
    input.take(size.unwrap_or(0));
    Ok(size)
}

/// Replays the record at the front, and answers its size; None at the end.
fn replay_record(
    version: Version,
    replay: &mut Replay,
    input: &Input,
    offset: u64,
) -> Result<Option<usize>, Stop<BadReplay>>
    requires { replay.old.interned < 4294967296 }
    ensures known { StopIsJustified input.now result }
    ensures size { IfOk result (λ o. IfSome o (λ size. (size ≤ 40) × (size ≤ length input.now.pending))) }
    ensures whole { result ≡ Ok None → input.now.failed ≡ false }
    ensures replays { PendingReplays version offset input.now replay.old replay.new result }
{
    match first(input.pending(), input.has_ended(), version) {
        Err(fault) => Err(Stop::Bad(BadReplay::Log(BadLog::Record { offset, fault }))),
        Ok(None) if input.has_failed() => Err(Stop::ReadFailed),
        Ok(None) => Ok(None),
        Ok(Some(entry)) => match replay.apply(&entry) {
            Ok(()) => Ok(Some(entry.size())),
            Err(ReplayFault::BadReplay) => Err(Stop::Bad(BadReplay::Replay { offset })),
            Err(ReplayFault::OutOfMemory) => Err(Stop::OutOfMemory),
        },
    }
}
