// `cnv`: the portable text of a log.

ghost use Rattle.std.specs.Prelude.{◌≡◌, ◌≢◌, ◌≤◌, ◌<◌, ◌+◌, ◌*◌, ◌++◌, ◌⊎◌, ℕ, List, Ok, Some, None, true, false, length, IfOk, IfSome, OnOk};
ghost use Rattle.mps_desk.specs.Desk.{IsSteady};
ghost use Rattle.mps_log_reader.specs.Causes.{AsksForInput, AsksWith, IsCaused, KeepsPrinting, StopIsJustified, WorksOnInput, StatusIsJustified};
ghost use Rattle.std.specs.List.{flat_map};
ghost use Rattle.mps_event.specs.Event.{event_of};
ghost use Rattle.mps_event.specs.Reading.{first_of};
ghost use Rattle.mps_cnv.specs.Portable.{is_wanted, line_of_kinds};
ghost use Rattle.mps_log_reader.specs.RecordLine.{record_line, field_text};
ghost use Rattle.mps_log_reader.specs.Input.{IsAtEnd};
ghost use Rattle.mps_log_reader.specs.Left.{left_of};
ghost use Rattle.mps_log_reader.specs.PutOut.{put_out, Grows, PutsPart};
ghost use Rattle.mps_report.specs.Reports.{ReportsStatus};
ghost use Rattle.mps_log_reader.specs.Ending.{is_input_verdict, IsUnopened};
ghost use Rattle.mps_log_reader.specs.Opening.{OpensNothing};
ghost use Rattle.mps_cnv.specs.Converted.{ConvertedWith, HasConverted, IsCutRecord, ConvertsUntilReadFault, ConvertsUntilWriteFault, IsUniqueConversion};
ghost use Rattle.mps_cnv.specs.Converting.{ConvertsPart, ConvertsFront, PendingConverts, NextConverts, AllGive};
ghost use Rattle.mps_event.specs.KindSet.{bits_of};
ghost use Rattle.mps_report.specs.Reports.{report_of};
ghost use Rattle.mps_report.specs.Streams.{LeavesLogAlone, Reports};
ghost use Rattle.mps_log_reader.specs.BadLog.{text_of_bad_log};

use crate::unwanted::{most_to_skip, skip_unwanted};
use bitflags::Flags;
use mps_desk::Desk;
use mps_event::{Event, Kinds, RecordRef, Version, first};
use mps_log_reader::{
    BadLog, Input, MAX_RECORD_BYTES, after_the_last, flush_after, make_room, open_log,
    put_first_line,
};
use mps_report::{Output, Stop, report_ending};
use std::alloc::Global;

/// Prints the portable text of the log of this name, of the records of these kinds, and returns the status of the
/// program: 0, or with a report 3 where a read failed, 4 where a write failed, 6 at the first record that is wrong, 7
/// where record 2^32 begins, 8 for out of memory.
pub fn cnv<D: Desk>(alloc: Global, log: &str, kinds: Kinds, desk: &mut D) -> u8
    ensures status { StatusIsJustified (D.outside desk.old) (D.outside desk.new) result }
    // The log of this name was asked for, and nothing else.
    ensures asked { AsksWith log.now (D.outside desk.old) (D.outside desk.new) result }
    // With any status its ending was reported, and nothing with 0.
    ensures reported { ReportsStatus text_of_bad_log result (D.outside desk.old) (D.outside desk.new) }
    // Where it is known what the opened file holds, and the status is of the input alone: exactly this was printed.
    ensures converted { is_input_verdict result ≡ true → (bytes : List ℕ) → (D.outside desk.old).text log.now ≡ Some bytes
        → ConvertedWith (bits_of kinds) bytes result (D.outside desk.old) (D.outside desk.new) }
    // Where the log could not be read: the whole records that had come were printed; a prefix of that, where a write failed
    // too.
    ensures broken { result ≡ 3 → (bytes : List ℕ) → (D.outside desk.old).text log.now ≡ Some bytes
        → ConvertsUntilReadFault (bits_of kinds) bytes (D.outside desk.old) (D.outside desk.new) }
    // Where it is known what the desk opens, a log that is not there is not read: nothing is printed.
    ensures missing { OpensNothing (D.outside desk.old) log.now → IsUnopened result (D.outside desk.old) (D.outside desk.new) }
    // Memory runs out only before the desk is called: that is reported, and nothing else happens.
    ensures no_memory { result ≡ 8 → Reports (D.outside desk.old) (D.outside desk.new) (report_of text_of_bad_log Stop.OutOfMemory) }
    // Where a write failed: a prefix of the text was printed.
    ensures cut { result ≡ 4 → (bytes : List ℕ) → (D.outside desk.old).text log.now ≡ Some bytes
        → ConvertsUntilWriteFault (bits_of kinds) bytes (D.outside desk.old) (D.outside desk.new) }
    // And nothing else: a whole log gives 0 and all of its text, one with a bad record gives 6 and the text before it.
    ensures unique { is_input_verdict result ≡ true → (bytes : List ℕ) → (D.outside desk.old).text log.now ≡ Some bytes
        → IsUniqueConversion (bits_of kinds) bytes result (D.outside desk.old) (D.outside desk.new) }
{
    let ending = convert(alloc, log, kinds, desk);
    report_ending(ending, desk)
}

/// Converts the log of this name.
fn convert<D: Desk>(
    alloc: Global,
    log: &str,
    kinds: Kinds,
    desk: &mut D,
) -> Result<(), Stop<BadLog>>
    ensures cause { IsCaused (D.outside desk.old) (D.outside desk.new) result }
    ensures runs { LeavesLogAlone (D.outside desk.old) (D.outside desk.new) }
    ensures asked { AsksForInput log.now (D.outside desk.old) (D.outside desk.new) result }
    ensures steady { OnOk result (IsSteady (D.outside desk.old) (D.outside desk.new)) }
    ensures printing { KeepsPrinting (D.outside desk.old) (D.outside desk.new) result }
    ensures reported { (D.outside desk.new).reported ≡ (D.outside desk.old).reported }
    ensures err_faults { (D.outside desk.new).err_faults ≡ (D.outside desk.old).err_faults }
    ensures broken { result ≡ Err Stop.ReadFailed → (bytes : List ℕ) → (D.outside desk.old).text log.now ≡ Some bytes
        → ConvertsUntilReadFault (bits_of kinds) bytes (D.outside desk.old) (D.outside desk.new) }
    ensures missing { OpensNothing (D.outside desk.old) log.now
        → ((result ≡ Err Stop.ReadFailed) ⊎ (result ≡ Err Stop.OutOfMemory))
        × ((D.outside desk.new).printed ≡ (D.outside desk.old).printed) }
    ensures no_memory { result ≡ Err Stop.OutOfMemory → D.outside desk.new ≡ D.outside desk.old }
    ensures cut { result ≡ Err Stop.WriteFailed → (bytes : List ℕ) → (D.outside desk.old).text log.now ≡ Some bytes
        → ConvertsUntilWriteFault (bits_of kinds) bytes (D.outside desk.old) (D.outside desk.new) }
    ensures converted { (bytes : List ℕ) → (D.outside desk.old).text log.now ≡ Some bytes
        → HasConverted (bits_of kinds) bytes result (D.outside desk.old) (D.outside desk.new) }
{
    let mut input = match Input::new(alloc) {
        Ok(input) => input,
        Err(_) => return Err(Stop::OutOfMemory),
    };
    let mut output = match Output::new(alloc) {
        Ok(output) => output,
        Err(_) => return Err(Stop::OutOfMemory),
    };
    let version = open_log(log, BadLog::Header, &mut input, desk)?;
    put_first_line(version, &mut output);
    let ending = convert_records(version, kinds, &mut input, &mut output, desk);
    flush_after(ending, &mut output, desk)
}

/// Converts the records that follow the header.
fn convert_records<D: Desk>(
    version: Version,
    kinds: Kinds,
    input: &mut Input,
    output: &mut Output,
    desk: &mut D,
) -> Result<(), Stop<BadLog>>
    requires { IsAtEnd (D.outside desk.old) input.old }
    ensures works { WorksOnInput (D.outside desk.old) (D.outside desk.new) input.old input.new result }
    ensures reported { (D.outside desk.new).reported ≡ (D.outside desk.old).reported }
    ensures err_faults { (D.outside desk.new).err_faults ≡ (D.outside desk.old).err_faults }
    ensures broken { result ≡ Err Stop.ReadFailed → (bytes : List ℕ) → left_of (D.outside desk.old) input.old ≡ Some bytes
        → ConvertsFront version (bits_of kinds) bytes (D.outside desk.new).input (put_out (D.outside desk.old) output.old)
        (put_out (D.outside desk.new) output.new) }
    ensures memory { result ≢ Err Stop.OutOfMemory }
    ensures whole { OnOk result (input.new.failed ≡ false) }
    ensures grows { Grows (D.outside desk.old).printed (D.outside desk.new).printed }
    ensures cut { result ≡ Err Stop.WriteFailed → (bytes : List ℕ) → left_of (D.outside desk.old) input.old ≡ Some bytes
        → ConvertsPart version (bits_of kinds) bytes output.old (D.outside desk.old).printed (D.outside desk.new).printed }
    ensures all { (bytes : List ℕ) → left_of (D.outside desk.old) input.old ≡ Some bytes
        → AllGive version (bits_of kinds) bytes (put_out (D.outside desk.old) output.old) (put_out (D.outside desk.new) output.new) result }
{
    let all = kinds.is_all();
    let mut count: u32 = 0;
    let mut offset: u64 = 8;
    while count < u32::MAX {
        match convert_next(version, kinds, input, offset, output, desk)? {
            None => return Ok(()),
            Some(size) => offset += size as u64,
        }
        count += 1;
        let skipped = skip_unwanted(version, kinds, most_to_skip(all, count), input);
        count += skipped.count;
        offset += skipped.size as u64;
    }
    after_the_last(input, desk)
}

/// Converts the next record, and returns its size; None at the end.
fn convert_next<D: Desk>(
    version: Version,
    kinds: Kinds,
    input: &mut Input,
    offset: u64,
    output: &mut Output,
    desk: &mut D,
) -> Result<Option<usize>, Stop<BadLog>>
    requires { IsAtEnd (D.outside desk.old) input.old }
    ensures works { WorksOnInput (D.outside desk.old) (D.outside desk.new) input.old input.new result }
    ensures size { IfOk result (λ o. IfSome o (λ size. size ≤ 40)) }
    ensures gives { NextConverts version (bits_of kinds) offset (left_of (D.outside desk.old) input.old)
        (left_of (D.outside desk.new) input.new)
        (put_out (D.outside desk.old) output.old) (put_out (D.outside desk.new) output.new) result }
    ensures broken { result ≡ Err Stop.ReadFailed → ((bytes : List ℕ) → left_of (D.outside desk.old) input.old ≡ Some bytes
        → IsCutRecord version bytes (D.outside desk.new).input)
        × (put_out (D.outside desk.new) output.new ≡ put_out (D.outside desk.old) output.old) }
    ensures grows { Grows (D.outside desk.old).printed (D.outside desk.new).printed }
    ensures cut { result ≡ Err Stop.WriteFailed → PutsPart (D.outside desk.old).printed (D.outside desk.new).printed output.old }
    ensures whole { result ≡ Ok None → input.new.failed ≡ false }
    ensures at_end { IsAtEnd (D.outside desk.new) input.new }
    ensures reported { (D.outside desk.new).reported ≡ (D.outside desk.old).reported }
    ensures err_faults { (D.outside desk.new).err_faults ≡ (D.outside desk.old).err_faults }
{
    input.fill(MAX_RECORD_BYTES, desk);
    make_room(output, desk)?;
    let size = convert_record(version, kinds, input, offset, output)?;
    input.take(size.unwrap_or(0));
    Ok(size)
}

/// Converts the record at the front, and returns its size; None at the end.
fn convert_record(
    version: Version,
    kinds: Kinds,
    input: &Input,
    offset: u64,
    output: &mut Output,
) -> Result<Option<usize>, Stop<BadLog>>
    requires { length output.old + 512 ≤ 65536 }
    ensures justified { StopIsJustified input.now result }
    ensures size { IfOk result (λ o. IfSome o (λ size. (size ≤ 40) × (size ≤ length input.now.pending))) }
    ensures broken { result ≡ Err Stop.ReadFailed → (first_of version input.now.ended input.now.pending ≡ Ok None)
        × (output.new ≡ output.old) }
    ensures whole { result ≡ Ok None → input.now.failed ≡ false }
    ensures gives { PendingConverts version (bits_of kinds) offset input.now output.old output.new result }
{
    match first(input.pending(), input.has_ended(), version) {
        Err(fault) => Err(Stop::Bad(BadLog::Record { offset, fault })),
        Ok(None) if input.has_failed() => Err(Stop::ReadFailed),
        Ok(None) => Ok(None),
        Ok(Some(entry)) => {
            put_wanted(&entry, version, kinds, output);
            Ok(Some(entry.size()))
        }
    }
}

/// Gathers the line of a record of one of these kinds.
fn put_wanted(entry: &RecordRef<'_>, version: Version, kinds: Kinds, output: &mut Output)
    requires room { length output.old + 512 ≤ 65536 }
    requires count { length entry.now.fields ≤ 4 }
    ensures { output.new ≡ output.old ++ line_of_kinds version (bits_of kinds) entry.now }
{
    if is_wanted(entry, version, kinds) {
        put_record(entry, output);
    }
}

/// Whether a record is of one of these kinds.
fn is_wanted(entry: &RecordRef<'_>, version: Version, kinds: Kinds) -> bool
    ensures { result ≡ is_wanted (bits_of kinds) (event_of version entry.now.code) }
{
    match Event::of_code(entry.code(), version) {
        Some(event) => kinds.has(event),
        None => false,
    }
}

/// Gathers the line of a record.
fn put_record(entry: &RecordRef<'_>, output: &mut Output)
    requires room { length output.old + 512 ≤ 65536 }
    requires count { length entry.now.fields ≤ 4 }
    ensures { output.new ≡ output.old ++ record_line entry.now }
{
    output.decimal(u64::from(entry.line()));
    output.text(b" ");
    output.decimal(u64::from(entry.code()));
    put_fields(entry, output);
    output.text(b"\n");
}

/// The fields of a record, each after a space.
fn put_fields(entry: &RecordRef<'_>, output: &mut Output)
    requires room { length output.old + 17 * length entry.now.fields ≤ 65536 }
    ensures text { output.new ≡ output.old ++ flat_map field_text entry.now.fields }
    ensures size { length output.new ≤ length output.old + 17 * length entry.now.fields }
{
    for i in 0..entry.count() {
        output.text(b" ");
        output.hexadecimal(entry.field(i));
    }
}
