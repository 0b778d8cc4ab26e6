// The run of a script.
ghost use Rattle.std.specs.Prelude.{◌≡◌, ◌≢◌, ◌∷◌, ◌⊎◌, [], List, ℕ, true, false, Some, Err, IfErr, OnOk, OnErr};
ghost use Rattle.std.specs.Option.{option_map};
ghost use Rattle.mps_desk.specs.Desk.{HasRisen, IsSteady, NothingWaits, made_for_log};
ghost use Rattle.mps_model.specs.World.{empty_world};
ghost use Rattle.mps_log_reader.specs.Ending.{is_input_verdict};
ghost use Rattle.mps_log_reader.specs.Opening.{OpensNothing};
ghost use Rattle.mps_report.specs.declared.stop.Stop.TheVariants as stop;
ghost use Rattle.mps_run.specs.Ending.{AsksInOrder, CountsGrow, HasCause, IsUnbegun, NoFaultRose, RunsOn, is_verdict};
ghost use Rattle.mps_run.specs.Leaving.{LeavesRun};
ghost use Rattle.mps_run.specs.LogFile.{LogsInto, IsInFile};
ghost use Rattle.mps_run.specs.Run.{RunsScript};

use crate::bad_script_line::BadScriptLine;
use crate::lines::run_all_lines;
use crate::log::log_header;
use mps_commands::Commands;
use mps_desk::Desk;
use mps_lines::Lines;
use mps_report::{Stop, report_ending};
use std::alloc::Global;

/// Runs the script of a name on a machine that nothing was asked of yet, writes the log of a name, and reports how the run ended.
/// Returns the status of the process. The machine is ended, however the run ends.
pub fn run_script<D: Desk, C: Commands>(
    alloc: Global,
    commands: C,
    log: &str,
    script: &str,
    desk: &mut D,
) -> u8
    requires { C.stands_for commands empty_world }
    ensures meaning { result ≢ 2 }
    ensures runs { RunsScript C.takes_memory log.now script.now result (D.outside desk.old) (D.outside desk.new) }
    ensures read_failed { result ≡ 3 → HasRisen (D.outside desk.old).in_faults (D.outside desk.new).in_faults }
    ensures write_failed { result ≡ 4 → HasRisen (D.outside desk.old).out_faults (D.outside desk.new).out_faults }
    ensures log_failed { result ≡ 5 → HasRisen (D.outside desk.old).log_faults (D.outside desk.new).log_faults }
    ensures log_written { result ≡ 4 → (D.outside desk.new).log_waits ≡ false }
    ensures counts { CountsGrow (D.outside desk.old) (D.outside desk.new) }
    ensures complete { NoFaultRose (D.outside desk.old) (D.outside desk.new) → result ≢ 8 → is_input_verdict result ≡ true }
{
    let mut machine = commands;
    let ending = run(alloc, &mut machine, log, script, desk);
    machine.finish();
    report_ending(ending, desk)
}

/// Runs the script, and writes the log.
fn run<D: Desk, C: Commands>(
    alloc: Global,
    commands: &mut C,
    log: &str,
    script: &str,
    desk: &mut D,
) -> Result<(), Stop<BadScriptLine>>
    requires { C.stands_for commands.old empty_world }
    ensures cause { HasCause result (D.outside desk.old) (D.outside desk.new) }
    ensures asked { AsksInOrder log.now script.now result (D.outside desk.old) (D.outside desk.new) }
    ensures steady { is_verdict result ≡ true → IsSteady (D.outside desk.old) (D.outside desk.new) }
    ensures filed { LogsInto log.now (D.outside desk.old) (D.outside desk.new) }
    ensures missing { OpensNothing (D.outside desk.old) script.now
        → ((result ≡ Err stop.ReadFailed) ⊎ (result ≡ Err stop.OutOfMemory)) × IsUnbegun (D.outside desk.old) (D.outside desk.new)
        × ((D.outside desk.new).files ≡ (D.outside desk.old).files) }
    ensures whole_log { is_verdict result ≡ true → IsInFile log.now (D.outside desk.old) (D.outside desk.new) }
    ensures written { is_verdict result ≡ true → NothingWaits (D.outside desk.new) }
    ensures runs { RunsOn (D.outside desk.old) (D.outside desk.new) }
    ensures log_written { result ≡ Err stop.WriteFailed → (D.outside desk.new).log_waits ≡ false }
    ensures leaves { (bytes : List ℕ) → (D.outside desk.old).text script.now ≡ Some bytes
        → LeavesRun C.takes_memory result bytes (D.outside desk.old) (D.outside desk.new) }
{
    let Ok(mut lines) = Lines::new(alloc) else {
        return Err(Stop::OutOfMemory);
    };
    match open_files(desk, log, script) {
        Ok(()) => {}
        Err(stop) => return Err(stop),
    }
    let Ok(()) = log_header(desk) else {
        return Err(Stop::LogFailed);
    };
    run_all_lines(desk, commands, &mut lines)
}

/// Opens the script, and then makes the log.
fn open_files<D: Desk>(desk: &mut D, log: &str, script: &str) -> Result<(), Stop<BadScriptLine>>
    ensures input { OnOk result ((D.outside desk.new).input ≡ (D.outside desk.old).text script.now) }
    ensures made { OnOk result ((D.outside desk.new).files ≡ option_map (made_for_log log.now) (D.outside desk.old).files) }
    ensures unmade { OnErr result ((D.outside desk.new).files ≡ (D.outside desk.old).files) }
    ensures unbegun { IsUnbegun (D.outside desk.old) (D.outside desk.new) }
    ensures missing { OpensNothing (D.outside desk.old) script.now → result ≡ Err stop.ReadFailed }
    ensures failed { IfErr result (λ why. (why ≡ stop.ReadFailed) ⊎ (why ≡ stop.LogFailed)) }
    ensures asked { AsksInOrder log.now script.now result (D.outside desk.old) (D.outside desk.new) }
    ensures steady { OnOk result (IsSteady (D.outside desk.old) (D.outside desk.new)) }
    ensures cause { HasCause result (D.outside desk.old) (D.outside desk.new) }
    ensures runs { RunsOn (D.outside desk.old) (D.outside desk.new) }
{
    let Ok(()) = desk.open(script) else {
        return Err(Stop::ReadFailed);
    };
    let Ok(()) = desk.create(log) else {
        return Err(Stop::LogFailed);
    };
    Ok(())
}
