// `txt`: the readable text of a portable text.

ghost use Rattle.std.specs.Prelude.{◌≡◌, ◌≢◌, ◌≤◌, ◌+◌, ◌⊎◌, ℕ, List, Ok, Some, true, false, None, [], ◌∷◌, length, IfOk, IfErr, IfSome, IfNone, OnOk, OnErr};
ghost use Rattle.mps_base.specs.Record.{Record};
ghost use Rattle.mps_desk.specs.Desk.{HasRisen, IsSteady, Asks, OnlyOpens, opening};
ghost use Rattle.mps_event.specs.declared.version.Version.{Version};
ghost use Rattle.mps_report.specs.Reports.{ReportsStatus};
ghost use Rattle.mps_report.specs.Streams.{LeavesLogAlone};
ghost use Rattle.mps_log_reader.specs.Causes.{AsksForInput, AsksWith, IsCaused, KeepsPrinting, StopIsJustified, WorksOnInput, StatusIsJustified};
ghost use Rattle.mps_log_reader.specs.Ending.{is_input_verdict, IsUnopened};
ghost use Rattle.mps_log_reader.specs.Opening.{OpensNothing};
ghost use Rattle.mps_log_reader.specs.Input.{IsAtEnd, IsComplete};
ghost use Rattle.mps_log_reader.specs.Left.{left_of};
ghost use Rattle.mps_log_reader.specs.PutOut.{put_out, Grows, PutsPart};
ghost use Rattle.mps_txt.specs.BadTextLine.{bad_line, text_of_bad_line};
ghost use Rattle.mps_txt.specs.Labels.{no_names, after_record, record_takes_memory};
ghost use Rattle.mps_txt.specs.Line.{Spells};
ghost use Rattle.mps_txt.specs.PendingLine.{IsPendingLine, HasNoLine, PutsLine};
ghost use Rattle.mps_txt.specs.Text.{HasRead, ReadWith, IsCutShort, IsUniqueReading};
ghost use Rattle.mps_txt.specs.TextSteps.{progress, PendingGives, NextGives, AllGives, ShowsPart, first_text, FindsVersion, TakesFirstLine, OpensText, OpensWholeLine};

use crate::bad_text_line::BadTextLine;
use crate::labels::{LabelFault, Labels};
use crate::readable_line::{label_before, put_readable_line};
use crate::record_line::record_of_line;
use crate::words::index_of;
use mps_desk::Desk;
use mps_event::Version;
use mps_log_reader::{Input, after_the_last, flush_after, make_room, put_first_line};
use mps_report::{Output, Stop, report_ending};
use std::alloc::Global;

/// The most bytes of a line, without its line feed.
const MAX_LINE_BYTES: usize = 4096;

/// Prints the readable text of the portable text of this name, line by line, and returns the status of the program: 0,
/// or with a report 3 where a read failed, 4 where a write failed, 6 at the first line that is wrong, 7 where line 2^32
/// begins, 8 when out of memory.
/// The secret is a random number: whoever knows it can make a text over which this is slow, but what is printed doesn't depend on it.
pub fn txt<D: Desk>(alloc: Global, secret: u64, text: &str, desk: &mut D) -> u8
    ensures status { StatusIsJustified (D.outside desk.old) (D.outside desk.new) result }
    // The text of this name was asked for, and nothing else.
    ensures asked { AsksWith text.now (D.outside desk.old) (D.outside desk.new) result }
    // Where it is known what the desk opens, this was read, printed and reported. After a failed read the lines that had
    // come whole, each with its line feed, are printed; a prefix of that, where a write failed too. Memory runs out before
    // the desk is called, or at a line that interns a name, sets a label or moves one; then the lines before it are printed.
    ensures sound { (bytes : List ℕ) → (D.outside desk.old).text text.now ≡ Some bytes
        → ReadWith bytes result (D.outside desk.old) (D.outside desk.new) }
    // And nothing else, where the status is of the text alone: a whole text gives 0 and all of its readable text, one with
    // a wrong line gives 6, the number of that line and the readable text before it.
    ensures unique { is_input_verdict result ≡ true → (bytes : List ℕ) → (D.outside desk.old).text text.now ≡ Some bytes
        → IsUniqueReading bytes result (D.outside desk.old) (D.outside desk.new) }
    // Where a write failed, a prefix of the readable text of the first lines was printed.
    ensures cut { result ≡ 4 → (bytes : List ℕ) → (D.outside desk.old).text text.now ≡ Some bytes
        → IsCutShort bytes (D.outside desk.old) (D.outside desk.new) }
    // Where it is known what the desk opens, a name that opens nothing is not read: nothing is printed.
    ensures missing { OpensNothing (D.outside desk.old) text.now → IsUnopened result (D.outside desk.old) (D.outside desk.new) }
    // With any status its ending was reported, and nothing with 0.
    ensures reported { ReportsStatus text_of_bad_line result (D.outside desk.old) (D.outside desk.new) }
{
    let ending = read_text(alloc, secret, text, desk);
    report_ending(ending, desk)
}

/// The same, up to the report.
fn read_text<D: Desk>(
    alloc: Global,
    secret: u64,
    text: &str,
    desk: &mut D,
) -> Result<(), Stop<BadTextLine>>
    ensures cause { IsCaused (D.outside desk.old) (D.outside desk.new) result }
    ensures runs { LeavesLogAlone (D.outside desk.old) (D.outside desk.new) }
    ensures asked { AsksForInput text.now (D.outside desk.old) (D.outside desk.new) result }
    ensures steady { OnOk result (IsSteady (D.outside desk.old) (D.outside desk.new)) }
    ensures printing { KeepsPrinting (D.outside desk.old) (D.outside desk.new) result }
    ensures reported { (D.outside desk.new).reported ≡ (D.outside desk.old).reported }
    ensures err_faults { (D.outside desk.new).err_faults ≡ (D.outside desk.old).err_faults }
    ensures read { (bytes : List ℕ) → (D.outside desk.old).text text.now ≡ Some bytes
        → HasRead bytes result (D.outside desk.old) (D.outside desk.new) }
    ensures cut { result ≡ Err Stop.WriteFailed → (bytes : List ℕ) → (D.outside desk.old).text text.now ≡ Some bytes
        → IsCutShort bytes (D.outside desk.old) (D.outside desk.new) }
    ensures missing { OpensNothing (D.outside desk.old) text.now
        → ((result ≡ Err Stop.ReadFailed) ⊎ (result ≡ Err Stop.OutOfMemory))
        × ((D.outside desk.new).printed ≡ (D.outside desk.old).printed) }
{
    let mut input = match Input::new(alloc) {
        Ok(input) => input,
        Err(_) => return Err(Stop::OutOfMemory),
    };
    let mut output = match Output::new(alloc) {
        Ok(output) => output,
        Err(_) => return Err(Stop::OutOfMemory),
    };
    let mut labels = Labels::new(alloc, secret);
    let version = open_text(text, &mut input, desk)?;
    put_first_line(version, &mut output);
    let ending = read_lines(version, &mut labels, &mut input, &mut output, desk);
    flush_after(ending, &mut output, desk)
}

/// Opens a text and takes its first line.
fn open_text<D: Desk>(
    text: &str,
    input: &mut Input,
    desk: &mut D,
) -> Result<Version, Stop<BadTextLine>>
    requires { input.old ≡ record { pending = []; ended = false; failed = false } }
    ensures opened { (bytes : List ℕ) → (D.outside desk.old).text text.now ≡ Some bytes
        → OpensText bytes (left_of (D.outside desk.new) input.new) (D.outside desk.old).input (D.outside desk.new).input result }
    ensures whole { (bytes : List ℕ) → (D.outside desk.old).text text.now ≡ Some bytes
        → OpensWholeLine bytes (left_of (D.outside desk.new) input.new) input.new result }
    ensures reported { (D.outside desk.new).reported ≡ (D.outside desk.old).reported }
    ensures err_faults { (D.outside desk.new).err_faults ≡ (D.outside desk.old).err_faults }
    ensures missing { OpensNothing (D.outside desk.old) text.now → result ≡ Err Stop.ReadFailed }
    ensures at_end { OnOk result (IsAtEnd (D.outside desk.new) input.new) }
    ensures printed { (D.outside desk.new).printed ≡ (D.outside desk.old).printed }
    ensures cause { IsCaused (D.outside desk.old) (D.outside desk.new) result }
    ensures fault { input.new.failed ≡ true → HasRisen (D.outside desk.old).in_faults (D.outside desk.new).in_faults }
    ensures runs { LeavesLogAlone (D.outside desk.old) (D.outside desk.new) }
    ensures asked { Asks (D.outside desk.old) (D.outside desk.new) (opening text.now ∷ []) }
    ensures others { OnlyOpens (D.outside desk.old) (D.outside desk.new) }
    ensures steady { OnOk result (input.new.failed ≡ false → (D.outside desk.new).in_faults ≡ (D.outside desk.old).in_faults) }
{
    let Ok(()) = desk.open(text) else {
        return Err(Stop::ReadFailed);
    };
    input.fill(MAX_LINE_BYTES + 1, desk);
    take_first_line(input)
}

/// Takes the first line, and returns its version.
fn take_first_line(input: &mut Input) -> Result<Version, Stop<BadTextLine>>
    ensures justified { StopIsJustified input.old result }
    ensures taken { TakesFirstLine input.old input.new result }
    ensures failed { input.new.failed ≡ input.old.failed }
{
    let (version, size) = first_line(input)?;
    input.take(size);
    Ok(version)
}

/// The version of the first line, and how many bytes it takes with its line feed.
fn first_line(input: &Input) -> Result<(Version, usize), Stop<BadTextLine>>
    ensures justified { StopIsJustified input.now result }
    ensures size { IfOk result (λ found. found.1 ≤ length input.now.pending) }
    ensures sound { FindsVersion input.now result }
{
    match next_line(input, 1)? {
        None => Err(bad_line(1)),
        Some((line, size)) => match version_of(line) {
            Some(version) => Ok((version, size)),
            None => Err(bad_line(1)),
        },
    }
}

/// The version whose first line this is.
fn version_of(line: &[u8]) -> Option<Version>
    ensures sound { IfSome result (λ version. line.now ≡ first_text version) }
    ensures complete { IfNone result ((version : Version) → line.now ≢ first_text version) }
{
    match line {
        b"mpslog 1" => Some(Version::One),
        b"mpslog 2" => Some(Version::Two),
        _ => None,
    }
}

/// The stop at the line of this number, which is wrong.
fn bad_line(number: u64) -> Stop<BadTextLine>
    ensures { result ≡ Stop.Bad (bad_line number) }
{
    Stop::Bad(BadTextLine { line: number })
}

/// The pending line without its line feed, and how many bytes it takes with it; None at the end of the text.
fn next_line(input: &Input, number: u64) -> Result<Option<(&[u8], usize)>, Stop<BadTextLine>>
    ensures justified { StopIsJustified input.now result }
    ensures size { IfOk result (λ o. IfSome o (λ found. found.1 ≤ length input.now.pending)) }
    ensures sound { IfOk result (λ o. IfSome o (λ found. IsPendingLine input.now found.0.now found.1)) }
    ensures end { IfOk result (λ o. IfNone o ((input.now.pending ≡ []) × (input.now.failed ≡ false))) }
    ensures stopped { IfErr result (λ why. HasNoLine input.now number why) }
{
    let bytes = input.pending();
    match index_of(b'\n', bytes) {
        Some(end) if end <= MAX_LINE_BYTES => Ok(Some((&bytes[..end], end + 1))),
        Some(_) => Err(bad_line(number)),
        None if bytes.len() > MAX_LINE_BYTES => Err(bad_line(number)),
        None if input.has_failed() => Err(Stop::ReadFailed),
        None if bytes.is_empty() => Ok(None),
        None => Ok(Some((bytes, bytes.len()))),
    }
}

/// Puts out the readable line of each line after the first.
fn read_lines<D: Desk>(
    version: Version,
    labels: &mut Labels,
    input: &mut Input,
    output: &mut Output,
    desk: &mut D,
) -> Result<(), Stop<BadTextLine>>
    requires at_end { IsAtEnd (D.outside desk.old) input.old }
    requires start { labels.old ≡ no_names }
    ensures works { WorksOnInput (D.outside desk.old) (D.outside desk.new) input.old input.new result }
    ensures reported { (D.outside desk.new).reported ≡ (D.outside desk.old).reported }
    ensures err_faults { (D.outside desk.new).err_faults ≡ (D.outside desk.old).err_faults }
    ensures gives { (bytes : List ℕ) → left_of (D.outside desk.old) input.old ≡ Some bytes
        → AllGives version bytes (D.outside desk.new).input (put_out (D.outside desk.old) output.old)
        (put_out (D.outside desk.new) output.new) result }
    // Where all had been read, no read fails.
    ensures no_fault { IsComplete input.old → result ≢ Err Stop.ReadFailed }
    ensures whole { OnOk result (input.new.failed ≡ false) }
    ensures grows { Grows (D.outside desk.old).printed (D.outside desk.new).printed }
    ensures cut { result ≡ Err Stop.WriteFailed → (bytes : List ℕ) → left_of (D.outside desk.old) input.old ≡ Some bytes
        → ShowsPart version bytes output.old (D.outside desk.old).printed (D.outside desk.new).printed }
{
    for lines in 0..u32::MAX - 1 {
        if !read_next(u64::from(lines) + 2, version, labels, input, output, desk)? {
            return Ok(());
        }
    }
    after_the_last(input, desk)
}

/// Puts out the readable line of the next line, which has this number; false at the end of the text.
fn read_next<D: Desk>(
    number: u64,
    version: Version,
    labels: &mut Labels,
    input: &mut Input,
    output: &mut Output,
    desk: &mut D,
) -> Result<bool, Stop<BadTextLine>>
    requires { IsAtEnd (D.outside desk.old) input.old }
    ensures works { WorksOnInput (D.outside desk.old) (D.outside desk.new) input.old input.new result }
    ensures gives { NextGives version number (progress labels.old (D.outside desk.old) input.old output.old)
        (progress labels.new (D.outside desk.new) input.new output.new) (D.outside desk.new).input result }
    // Where all had been read, it stays so, and no read fails.
    ensures stays { IsComplete input.old → IsComplete input.new }
    ensures no_fault { IsComplete input.old → result ≢ Err Stop.ReadFailed }
    ensures whole { result ≡ Ok false → input.new.failed ≡ false }
    ensures grows { Grows (D.outside desk.old).printed (D.outside desk.new).printed }
    ensures cut { result ≡ Err Stop.WriteFailed → PutsPart (D.outside desk.old).printed (D.outside desk.new).printed output.old }
    ensures at_end { IsAtEnd (D.outside desk.new) input.new }
    ensures reported { (D.outside desk.new).reported ≡ (D.outside desk.old).reported }
    ensures err_faults { (D.outside desk.new).err_faults ≡ (D.outside desk.old).err_faults }
{
    input.fill(MAX_LINE_BYTES + 1, desk);
    make_room(output, desk)?;
    let size = read_line(number, version, labels, input, output)?;
    input.take(size.unwrap_or(0));
    Ok(size.is_some())
}

/// Gathers the readable line of the pending line, which has this number, and returns how many bytes that line takes; None
/// at the end of the text.
fn read_line(
    number: u64,
    version: Version,
    labels: &mut Labels,
    input: &Input,
    output: &mut Output,
) -> Result<Option<usize>, Stop<BadTextLine>>
    requires { length output.old + 512 ≤ 65536 }
    ensures justified { StopIsJustified input.now result }
    ensures size { IfOk result (λ o. IfSome o (λ size. size ≤ length input.now.pending)) }
    ensures whole { result ≡ Ok None → input.now.failed ≡ false }
    ensures gives { PendingGives version number labels.old labels.new input.now output.old output.new result }
{
    match next_line(input, number)? {
        None => Ok(None),
        Some((line, size)) => match put_line(line, version, labels, output) {
            Ok(()) => Ok(Some(size)),
            Err(LabelFault::BadLine) => Err(bad_line(number)),
            Err(LabelFault::OutOfMemory) => Err(Stop::OutOfMemory),
        },
    }
}

/// Applies the record of a line to the labels, and gathers its readable line.
fn put_line(
    line: &[u8],
    version: Version,
    labels: &mut Labels,
    output: &mut Output,
) -> Result<(), LabelFault>
    requires { length output.old + 512 ≤ 65536 }
    ensures put { OnOk result (PutsLine version line.now labels.old labels.new output.old output.new) }
    ensures bad { result ≡ Err LabelFault.BadLine
        → (r : Record) → Spells version line.now r → after_record version labels.old r ≡ None }
    ensures memory { result ≡ Err LabelFault.OutOfMemory
        → (r : Record) × Spells version line.now r × (record_takes_memory version labels.old r ≡ true) }
    ensures unchanged { OnErr result (output.new ≡ output.old) }
{
    let entry = match record_of_line(line, version) {
        Some(entry) => entry,
        None => return Err(LabelFault::BadLine),
    };
    let before = label_before(&entry, labels);
    labels.apply(&entry)?;
    put_readable_line(&entry, before, labels, output);
    Ok(())
}
