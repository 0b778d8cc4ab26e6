// The lines of a script, run one after another.
ghost use Rattle.std.specs.Prelude.{◌≡◌, ◌≤◌, ◌⊎◌, [], List, ℕ, true, false, Some, Err, IfOk, IfErr, OnOk, OnErr};
ghost use Rattle.mps_desk.specs.Desk.{HasRisen, IsSteady, NothingWaits, OnlyReads};
ghost use Rattle.mps_model.specs.World.{empty_world};
ghost use Rattle.mps_lines.specs.Buffer.{ComesNextOf, KeepsUnread, rest_of_script};
ghost use Rattle.mps_report.specs.Causes.{CauseOf};
ghost use Rattle.mps_report.specs.Streams.{LogTakes};
ghost use Rattle.mps_report.specs.declared.stop.Stop.TheVariants as stop;
ghost use Rattle.mps_run.specs.Ending.{HasCause, IsFault, RunsOn, is_fault as has_failed_side, is_verdict};
ghost use Rattle.mps_run.specs.Leaving.{Leaves};

use crate::bad_script_line::BadScriptLine;
use crate::progress::Progress;
use crate::step::run_line;
use mps_commands::Commands;
use mps_desk::Desk;
use mps_lines::{Lines, Next};
use mps_model::{Call, Reply};
use mps_report::Stop;

/// Runs the lines, and then has written what waits. A fault of that comes before the end of the lines, and is the ending.
pub fn run_all_lines<D: Desk, C: Commands>(
    desk: &mut D,
    commands: &mut C,
    lines: &mut Lines,
) -> Result<(), Stop<BadScriptLine>>
    requires { C.stands_for commands.old empty_world }
    ensures cause { HasCause result (D.outside desk.old) (D.outside desk.new) }
    ensures steady { is_verdict result ≡ true → IsSteady (D.outside desk.old) (D.outside desk.new) }
    ensures written { is_verdict result ≡ true → NothingWaits (D.outside desk.new) }
    ensures takes { LogTakes (D.outside desk.old) (D.outside desk.new) }
    ensures runs { RunsOn (D.outside desk.old) (D.outside desk.new) }
    ensures log_written { result ≡ Err stop.WriteFailed → (D.outside desk.new).log_waits ≡ false }
    ensures leaves { (script : List ℕ) → rest_of_script lines.old (D.outside desk.old).input ≡ Some script
        → Leaves C.takes_memory result [] script (D.outside desk.old) (D.outside desk.new) }
{
    let ending = run_lines(desk, commands, lines);
    if is_fault(&ending) {
        return ending;
    }
    match settle(desk) {
        Ok(()) => ending,
        Err(stop) => Err(stop),
    }
}

/// A side of the outside failed.
fn is_fault(ending: &Result<(), Stop<BadScriptLine>>) -> bool
    ensures { result ≡ has_failed_side ending.now }
{
    matches!(
        ending,
        Err(Stop::ReadFailed | Stop::LogFailed | Stop::WriteFailed)
    )
}

/// Has written what the desk took and what waits: the log first, and then the answers.
pub fn settle<D: Desk>(desk: &mut D) -> Result<(), Stop<BadScriptLine>>
    ensures same { OnOk result (OnlyReads (D.outside desk.old) (D.outside desk.new)) }
    ensures input { (D.outside desk.new).input ≡ (D.outside desk.old).input }
    ensures in_faults { (D.outside desk.new).in_faults ≡ (D.outside desk.old).in_faults }
    ensures printed { (D.outside desk.new).printed ≡ (D.outside desk.old).printed }
    ensures logged { (D.outside desk.new).logged ≡ (D.outside desk.old).logged }
    ensures files { (D.outside desk.new).files ≡ (D.outside desk.old).files }
    ensures asked { (D.outside desk.new).asked ≡ (D.outside desk.old).asked }
    ensures steady { OnOk result (IsSteady (D.outside desk.old) (D.outside desk.new)) }
    ensures failed { IfErr result (λ why. (why ≡ stop.LogFailed) ⊎ (why ≡ stop.WriteFailed)) }
    ensures written { OnOk result (NothingWaits (D.outside desk.new)) }
    ensures cause { HasCause result (D.outside desk.old) (D.outside desk.new) }
    ensures runs { RunsOn (D.outside desk.old) (D.outside desk.new) }
    ensures log_written { result ≡ Err stop.WriteFailed → (D.outside desk.new).log_waits ≡ false }
{
    let Ok(()) = desk.settle_log() else {
        return Err(Stop::LogFailed);
    };
    let Ok(()) = desk.settle_out() else {
        return Err(Stop::WriteFailed);
    };
    Ok(())
}

/// Goes on to the next line. What waits to be written is written before the input is read.
fn next_line<D: Desk>(desk: &mut D, lines: &mut Lines) -> Result<Next, Stop<BadScriptLine>>
    ensures next { IfOk result (λ next. ComesNextOf next (rest_of_script lines.old (D.outside desk.old).input) lines.new.line
        (rest_of_script lines.new (D.outside desk.new).input)) }
    ensures counted { (D.outside desk.old).in_faults ≤ (D.outside desk.new).in_faults }
    ensures others { OnOk result (OnlyReads (D.outside desk.old) (D.outside desk.new)) }
    ensures printed { (D.outside desk.new).printed ≡ (D.outside desk.old).printed }
    ensures logged { (D.outside desk.new).logged ≡ (D.outside desk.old).logged }
    ensures files { (D.outside desk.new).files ≡ (D.outside desk.old).files }
    ensures asked { (D.outside desk.new).asked ≡ (D.outside desk.old).asked }
    ensures steady { OnOk result (IsSteady (D.outside desk.old) (D.outside desk.new)) }
    ensures unread { result ≡ Err stop.ReadFailed
        → KeepsUnread lines.old lines.new (D.outside desk.old).input (D.outside desk.new).input }
    ensures failed { IfErr result (λ why. IsFault why) }
    ensures cause { IfErr result (λ why. CauseOf (D.outside desk.old) (D.outside desk.new) why) }
    ensures runs { RunsOn (D.outside desk.old) (D.outside desk.new) }
    ensures log_written { result ≡ Err stop.WriteFailed → (D.outside desk.new).log_waits ≡ false }
{
    if let Some(next) = lines.next_held() {
        return Ok(next);
    }
    match settle(desk) {
        Ok(()) => {}
        Err(stop) => return Err(stop),
    }
    read_line(desk, lines)
}

/// Reads on to the next line. It is asked for only where nothing waits: the answers so far appear before the program waits
/// for input.
fn read_line<D: Desk>(desk: &mut D, lines: &mut Lines) -> Result<Next, Stop<BadScriptLine>>
    requires { NothingWaits (D.outside desk.old) }
    ensures next { IfOk result (λ next. ComesNextOf next (rest_of_script lines.old (D.outside desk.old).input) lines.new.line
        (rest_of_script lines.new (D.outside desk.new).input)) }
    ensures counted { (D.outside desk.old).in_faults ≤ (D.outside desk.new).in_faults }
    ensures others { OnlyReads (D.outside desk.old) (D.outside desk.new) }
    ensures steady { OnOk result (IsSteady (D.outside desk.old) (D.outside desk.new)) }
    ensures unread { OnErr result (KeepsUnread lines.old lines.new (D.outside desk.old).input (D.outside desk.new).input) }
    ensures failed { IfErr result (λ why. why ≡ stop.ReadFailed) }
    ensures cause { OnErr result (HasRisen (D.outside desk.old).in_faults (D.outside desk.new).in_faults) }
{
    let Ok(next) = lines.next(desk) else {
        return Err(Stop::ReadFailed);
    };
    Ok(next)
}

/// Runs the lines, one after another.
fn run_lines<D: Desk, C: Commands>(
    desk: &mut D,
    commands: &mut C,
    lines: &mut Lines,
) -> Result<(), Stop<BadScriptLine>>
    requires { C.stands_for commands.old empty_world }
    ensures cause { HasCause result (D.outside desk.old) (D.outside desk.new) }
    ensures steady { is_verdict result ≡ true → IsSteady (D.outside desk.old) (D.outside desk.new) }
    ensures takes { LogTakes (D.outside desk.old) (D.outside desk.new) }
    ensures runs { RunsOn (D.outside desk.old) (D.outside desk.new) }
    ensures log_written { result ≡ Err stop.WriteFailed → (D.outside desk.new).log_waits ≡ false }
    ensures leaves { (script : List ℕ) → rest_of_script lines.old (D.outside desk.old).input ≡ Some script
        → Leaves C.takes_memory result [] script (D.outside desk.old) (D.outside desk.new) }
{
    let mut progress = Progress::new();
    // One place for the call of each line, and one for its reply, so that none is copied.
    let mut call = Call::Committed;
    let mut reply = Reply::Ok;
    loop {
        let next = match next_line(desk, lines) {
            Ok(next) => next,
            Err(stop) => return Err(stop),
        };
        match next {
            Next::End => return Ok(()),
            Next::TooLong if progress.lines < u32::MAX => {
                let line = progress.lines + 1;
                return Err(Stop::Bad(BadScriptLine { line }));
            }
            Next::TooLong => return Err(Stop::TooLong),
            Next::Line => {}
        }
        if progress.lines == u32::MAX {
            return Err(Stop::TooLong);
        }
        match run_line(
            desk,
            commands,
            &mut progress,
            lines.line(),
            &mut call,
            &mut reply,
        ) {
            Ok(()) => {}
            Err(stop) => return Err(stop),
        }
    }
}
