// The lines of a generated script, run one after another.
ghost use Rattle.std.specs.Prelude.{◌≡◌, ◌≢◌, ◌<◌, ◌≤◌, ◌∷◌, ◌++◌, [], true, false, length, drop, if◌then◌else◌, Err, IfOk, IfErr, OnOk};
ghost use Rattle.mps_desk.specs.Desk.{IsSteady, NothingWaits, OnlyLogs};
ghost use Rattle.mps_model.specs.Answer.{answer_of};
ghost use Rattle.mps_model.specs.Text.{line_of_answer};
ghost use Rattle.mps_model.specs.World.{empty_world};
ghost use Rattle.mps_report.specs.Causes.{CauseOf};
ghost use Rattle.mps_report.specs.Streams.{LogTakes};
ghost use Rattle.mps_report.specs.declared.stop.Stop.TheVariants as stop;
ghost use Rattle.mps_run.specs.Ending.{HasCause, RunsOn};
ghost use Rattle.mps_run.specs.Running.{HasComeTo, LineLogged, LineStops};
ghost use Rattle.mps_script.specs.Line.{lines_of};
ghost use Rattle.mps_script.specs.Script.{is_grammatical};
ghost use Rattle.mps_generated.specs.Run.{LeavesGenerated};
ghost use Rattle.mps_generated.specs.Texts.{AreLineTexts, first_line, text_of, max_lines_of_run};
ghost use Rattle.mps_generated.specs.Printing.{PrintsOrFails};

use mps_commands::Commands;
use mps_desk::Desk;
use mps_model::{Call, Reply};
use mps_report::Stop;
use mps_run::{BadScriptLine, Progress, log_line, print_answer, settle};
use mps_workload::GenLines;

/// Runs the lines, and prints the answers of the last two.
pub fn run_lines<D: Desk, C: Commands>(
    desk: &mut D,
    commands: &mut C,
    lines: &mut GenLines,
) -> Result<(), Stop<BadScriptLine>>
    requires begun { C.stands_for commands.old empty_world }
    requires texts { AreLineTexts lines.old }
    requires good { is_grammatical (lines_of (text_of lines.old)) ≡ true }
    requires few { length lines.old ≤ max_lines_of_run }
    requires some { 2 ≤ length lines.old }
    ensures cause { HasCause result (D.outside desk.old) (D.outside desk.new) }
    ensures steady { OnOk result (IsSteady (D.outside desk.old) (D.outside desk.new)) }
    ensures written { OnOk result (NothingWaits (D.outside desk.new)) }
    ensures takes { LogTakes (D.outside desk.old) (D.outside desk.new) }
    ensures runs { RunsOn (D.outside desk.old) (D.outside desk.new) }
    ensures unread { (D.outside desk.new).input ≡ (D.outside desk.old).input }
    ensures in_faults { (D.outside desk.new).in_faults ≡ (D.outside desk.old).in_faults }
    ensures log_written { result ≡ Err stop.WriteFailed → (D.outside desk.new).log_waits ≡ false }
    ensures leaves { LeavesGenerated C.takes_memory result [] (text_of lines.old) (D.outside desk.old) (D.outside desk.new) }
{
    let mut progress = Progress::new();
    // One place for the call of each line, and one for its reply.
    let mut call = Call::Committed;
    let mut reply = Reply::Ok;
    while !lines.are_two_left() {
        match log_next(desk, commands, &mut progress, lines, &mut call, &mut reply) {
            Ok(_) => {}
            Err(stop) => return Err(stop),
        }
    }
    let mut live = Reply::Ok;
    match log_next(desk, commands, &mut progress, lines, &mut call, &mut live) {
        Ok(_) => {}
        Err(stop) => return Err(stop),
    }
    match log_next(desk, commands, &mut progress, lines, &mut call, &mut reply) {
        Ok(_) => {}
        Err(stop) => return Err(stop),
    }
    print_both(desk, commands, &live, &reply)
}

/// Runs the next line but for printing its answer: that is the one of the reply. Returns whether the line has a command.
#[inline(always)]
fn log_next<D: Desk, C: Commands>(
    desk: &mut D,
    commands: &mut C,
    progress: &mut Progress,
    lines: &mut GenLines,
    call: &mut Call,
    reply: &mut Reply,
) -> Result<bool, Stop<BadScriptLine>>
    requires bounded { progress.old.lines < 4294967295 }
    requires pools { progress.old.pools ≤ progress.old.lines }
    requires come { HasComeTo (C.stands_for commands.old) progress.old }
    requires texts { AreLineTexts lines.old }
    requires some { 0 < length lines.old }
    ensures left { lines.new ≡ drop 1 lines.old }
    ensures logged { IfOk result (λ has_call. LineLogged (C.stands_for commands.old) (C.stands_for commands.new)
        (if has_call then answer_of (C.words commands.new) reply.new ∷ [] else []) progress.old progress.new (first_line lines.old)
        (D.outside desk.old) (D.outside desk.new)) }
    ensures stops { IfErr result (λ why. LineStops C.takes_memory why (C.stands_for commands.old) progress.old (first_line lines.old)
        (D.outside desk.old) (D.outside desk.new)) }
    ensures cause { IfErr result (λ why. CauseOf (D.outside desk.old) (D.outside desk.new) why) }
    ensures steady { IfOk result (λ has_call. IsSteady (D.outside desk.old) (D.outside desk.new)) }
    ensures quiet { OnlyLogs (D.outside desk.old) (D.outside desk.new) }
    ensures counted { (D.outside desk.old).log_faults ≤ (D.outside desk.new).log_faults }
    ensures takes { LogTakes (D.outside desk.old) (D.outside desk.new) }
    ensures unprinted { IfErr result (λ why. why ≢ stop.WriteFailed) }
{
    let mut text = [0u8; 64];
    let Some(length) = lines.next_line(&mut text) else {
        unreachable!()
    };
    let end = length as usize - 1;
    log_line(desk, commands, progress, &text[..end], call, reply)
}

/// Prints the answers of two replies, and then has written what waits.
fn print_both<D: Desk, C: Commands>(
    desk: &mut D,
    commands: &C,
    first: &Reply,
    second: &Reply,
) -> Result<(), Stop<BadScriptLine>>
    ensures does { PrintsOrFails
        (line_of_answer (answer_of (C.words commands.now) first.now) ++ line_of_answer (answer_of (C.words commands.now) second.now))
        result (D.outside desk.old) (D.outside desk.new) }
    ensures cause { HasCause result (D.outside desk.old) (D.outside desk.new) }
    ensures steady { OnOk result (IsSteady (D.outside desk.old) (D.outside desk.new)) }
    ensures written { OnOk result (NothingWaits (D.outside desk.new)) }
    ensures takes { LogTakes (D.outside desk.old) (D.outside desk.new) }
    ensures runs { RunsOn (D.outside desk.old) (D.outside desk.new) }
    ensures unread { (D.outside desk.new).input ≡ (D.outside desk.old).input }
    ensures in_faults { (D.outside desk.new).in_faults ≡ (D.outside desk.old).in_faults }
    ensures log_written { result ≡ Err stop.WriteFailed → (D.outside desk.new).log_waits ≡ false }
{
    match print_answer(desk, first, commands) {
        Ok(()) => {}
        Err(stop) => return Err(stop),
    }
    match print_answer(desk, second, commands) {
        Ok(()) => {}
        Err(stop) => return Err(stop),
    }
    settle(desk)
}
