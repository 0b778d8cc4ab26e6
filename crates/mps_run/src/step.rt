// One line of a script, and its command.
ghost use Rattle.std.specs.Prelude.{◌≡◌, ◌≢◌, ◌⊎◌, ◌<◌, ◌≤◌, ◌∷◌, [], true, false, if◌then◌else◌, Err, IfOk, IfErr, OnOk, OnErr};
ghost use Rattle.mps_desk.specs.Desk.{HasRisen, IsSteady, OnlyLogs};
ghost use Rattle.mps_model.specs.Answer.{Replied, answer_of};
ghost use Rattle.mps_model.specs.Log.{pools_made_by, pools_of_accepted as pools_if_accepted};
ghost use Rattle.mps_model.specs.Text.{line_of_answer};
ghost use Rattle.mps_commands.specs.Asked.{IsAsked};
ghost use Rattle.mps_commands.specs.Range.{IsInRange};
ghost use Rattle.mps_report.specs.Causes.{CauseOf};
ghost use Rattle.mps_report.specs.Streams.{LogTakes};
ghost use Rattle.mps_report.specs.declared.stop.Stop.TheVariants as stop;
ghost use Rattle.mps_run.specs.Ending.{HasCause, RunsOn, is_verdict};
ghost use Rattle.mps_run.specs.Running.{HasComeTo, LineRan, LineLogged, LineStops, StepsLogged, PrintsOrStops, CommandStops};

use crate::bad_script_line::BadScriptLine;
use crate::log::log_records;
use crate::print::print;
use crate::progress::Progress;
use mps_commands::Commands;
use mps_desk::Desk;
use mps_model::{Call, Reply};
use mps_report::Stop;
use mps_script::next_call;

/// Runs the line after those that were run, wherever it comes from. `call` is where its call is written, and `reply` where the reply to
/// it is.
#[inline(always)]
pub fn run_line<D: Desk, C: Commands>(
    desk: &mut D,
    commands: &mut C,
    progress: &mut Progress,
    bytes: &[u8],
    call: &mut Call,
    reply: &mut Reply,
) -> Result<(), Stop<BadScriptLine>>
    requires bounded { progress.old.lines < 4294967295 }
    requires pools { progress.old.pools ≤ progress.old.lines }
    requires come { HasComeTo (C.stands_for commands.old) progress.old }
    ensures ran { OnOk result (LineRan (C.stands_for commands.old) (C.stands_for commands.new) progress.old progress.new bytes.now
        (D.outside desk.old) (D.outside desk.new)) }
    ensures stops { IfErr result (λ why. LineStops C.takes_memory why (C.stands_for commands.old) progress.old bytes.now
        (D.outside desk.old) (D.outside desk.new)) }
    ensures cause { HasCause result (D.outside desk.old) (D.outside desk.new) }
    ensures steady { is_verdict result ≡ true → IsSteady (D.outside desk.old) (D.outside desk.new) }
    ensures input { (D.outside desk.new).input ≡ (D.outside desk.old).input }
    ensures takes { LogTakes (D.outside desk.old) (D.outside desk.new) }
    ensures runs { RunsOn (D.outside desk.old) (D.outside desk.new) }
    ensures log_written { result ≡ Err stop.WriteFailed → (D.outside desk.new).log_waits ≡ false }
{
    match log_line(desk, commands, progress, bytes, call, reply) {
        Ok(true) => print_answer(desk, reply, commands),
        Ok(false) => Ok(()),
        Err(stop) => Err(stop),
    }
}

/// Runs the line after those that were run but for printing its answer: that is the one of the reply. Returns whether it has a command;
/// else there is no answer.
#[inline(always)]
pub fn log_line<D: Desk, C: Commands>(
    desk: &mut D,
    commands: &mut C,
    progress: &mut Progress,
    bytes: &[u8],
    call: &mut Call,
    reply: &mut Reply,
) -> Result<bool, Stop<BadScriptLine>>
    requires bounded { progress.old.lines < 4294967295 }
    requires pools { progress.old.pools ≤ progress.old.lines }
    requires come { HasComeTo (C.stands_for commands.old) progress.old }
    ensures logged { IfOk result (λ has_call. LineLogged (C.stands_for commands.old) (C.stands_for commands.new)
        (if has_call then answer_of (C.words commands.new) reply.new ∷ [] else []) progress.old progress.new bytes.now
        (D.outside desk.old) (D.outside desk.new)) }
    ensures stops { IfErr result (λ why. LineStops C.takes_memory why (C.stands_for commands.old) progress.old bytes.now
        (D.outside desk.old) (D.outside desk.new)) }
    ensures cause { IfErr result (λ why. CauseOf (D.outside desk.old) (D.outside desk.new) why) }
    ensures steady { IfOk result (λ has_call. IsSteady (D.outside desk.old) (D.outside desk.new)) }
    ensures bad { IfErr result (λ why. is_verdict (Err why) ≡ true → IsSteady (D.outside desk.old) (D.outside desk.new)) }
    ensures quiet { OnlyLogs (D.outside desk.old) (D.outside desk.new) }
    ensures counted { (D.outside desk.old).log_faults ≤ (D.outside desk.new).log_faults }
    ensures takes { LogTakes (D.outside desk.old) (D.outside desk.new) }
    ensures unprinted { IfErr result (λ why. why ≢ stop.WriteFailed) }
{
    let line = progress.lines + 1;
    match next_call(progress.has_arena, bytes, call) {
        Ok(false) => {
            progress.lines = line;
            Ok(false)
        }
        Ok(true) => {
            progress.lines = line;
            progress.has_arena = true;
            match log_call(desk, commands, line, &mut progress.pools, call, reply) {
                Ok(()) => Ok(true),
                Err(stop) => Err(stop),
            }
        }
        Err(_) => Err(Stop::Bad(BadScriptLine { line })),
    }
}

/// Has one command answered, and writes its records. `pools` counts the pools that were made, and `reply` is where the reply is written.
#[inline(always)]
fn log_call<D: Desk, C: Commands>(
    desk: &mut D,
    commands: &mut C,
    line: u32,
    pools: &mut u32,
    call: &Call,
    reply: &mut Reply,
) -> Result<(), Stop<BadScriptLine>>
    requires range { IsInRange call.now }
    requires asked { IsAsked (C.stands_for commands.old) call.now }
    requires fits { pools.old < 4294967295 }
    ensures logged { OnOk result (StepsLogged (C.stands_for commands.old) (C.stands_for commands.new)
        (record { line = line; call = call.now } ∷ []) (answer_of (C.words commands.new) reply.new ∷ []) pools.old pools.new
        (D.outside desk.old) (D.outside desk.new)) }
    ensures stops { IfErr result (λ why. CommandStops C.takes_memory why (C.stands_for commands.old) line call.now pools.old
        (D.outside desk.old) (D.outside desk.new)) }
    ensures no_verdict { OnErr result (is_verdict result ≡ false) }
    ensures cause { HasCause result (D.outside desk.old) (D.outside desk.new) }
    ensures steady { OnOk result (IsSteady (D.outside desk.old) (D.outside desk.new)) }
    ensures quiet { OnlyLogs (D.outside desk.old) (D.outside desk.new) }
    ensures counted { (D.outside desk.old).log_faults ≤ (D.outside desk.new).log_faults }
    ensures takes { LogTakes (D.outside desk.old) (D.outside desk.new) }
    ensures unprinted { IfErr result (λ why. why ≢ stop.WriteFailed) }
{
    let Ok(()) = commands.answer(call, reply) else {
        return Err(Stop::OutOfMemory);
    };
    let before = *pools;
    *pools += pools_made(call, reply);
    let Ok(()) = log_records(desk, line, before, call, reply, commands.moves()) else {
        return Err(Stop::LogFailed);
    };
    Ok(())
}

/// How many pools a command makes.
#[inline(always)]
fn pools_made(call: &Call, reply: &Reply) -> u32
    ensures count { result ≡ pools_made_by call.now (Replied reply.now) }
    ensures at_most { result ≤ 1 }
{
    match *reply {
        Reply::Ok => pools_of_accepted(call),
        _ => 0,
    }
}

/// How many pools a command makes where it is accepted.
#[inline(always)]
fn pools_of_accepted(call: &Call) -> u32
    ensures count { result ≡ pools_if_accepted call.now }
    ensures at_most { result ≤ 1 }
{
    match *call {
        Call::Pool { .. } => 1,
        Call::PoolOnChain { .. } => 1,
        Call::PoolMfs { .. } => 1,
        Call::PoolMvff { .. } => 1,
        Call::PoolFrames { .. } => 1,
        _ => 0,
    }
}

/// Prints the answer of a reply.
#[inline(always)]
pub fn print_answer<D: Desk, C: Commands>(
    desk: &mut D,
    reply: &Reply,
    commands: &C,
) -> Result<(), Stop<BadScriptLine>>
    ensures does { PrintsOrStops (line_of_answer (answer_of (C.words commands.now) reply.now)) result
        (D.outside desk.old) (D.outside desk.new) }
    ensures cause { HasCause result (D.outside desk.old) (D.outside desk.new) }
    ensures no_verdict { OnErr result (is_verdict result ≡ false) }
    ensures steady { OnOk result (IsSteady (D.outside desk.old) (D.outside desk.new)) }
    ensures input { (D.outside desk.new).input ≡ (D.outside desk.old).input }
    ensures in_faults { (D.outside desk.new).in_faults ≡ (D.outside desk.old).in_faults }
    ensures takes { LogTakes (D.outside desk.old) (D.outside desk.new) }
    ensures runs { RunsOn (D.outside desk.old) (D.outside desk.new) }
    ensures log_written { result ≡ Err stop.WriteFailed → (D.outside desk.new).log_waits ≡ false }
{
    let Ok(()) = print(desk, reply, commands) else {
        return Err(after_no_print(desk));
    };
    Ok(())
}

/// Why a call that was to print failed: the log failed, whose bytes are written before, or else printing did.
#[cold]
#[inline(never)]
fn after_no_print<D: Desk>(desk: &mut D) -> Stop<BadScriptLine>
    ensures blames { (result ≡ stop.WriteFailed) ⊎ (result ≡ stop.LogFailed) }
    ensures log_written { result ≡ stop.WriteFailed → (D.outside desk.new).log_waits ≡ false }
    ensures cause { result ≡ stop.LogFailed → HasRisen (D.outside desk.old).log_faults (D.outside desk.new).log_faults }
    ensures counted { (D.outside desk.old).log_faults ≤ (D.outside desk.new).log_faults }
    ensures logged { (D.outside desk.new).logged ≡ (D.outside desk.old).logged }
    ensures files { (D.outside desk.new).files ≡ (D.outside desk.old).files }
    ensures others { OnlyLogs (D.outside desk.old) (D.outside desk.new) }
{
    match desk.settle_log() {
        Ok(()) => Stop::WriteFailed,
        Err(_) => Stop::LogFailed,
    }
}
