// The run of a generated script.
ghost use Rattle.std.specs.Prelude.{◌≡◌, ◌≢◌, ◌≤◌, ◌⊎◌, ◌∷◌, [], true, false, Err, OnOk};
ghost use Rattle.mps_desk.specs.Desk.{Asks, HasRisen, IsSteady, NothingWaits, making};
ghost use Rattle.mps_log_reader.specs.Ending.{is_input_verdict};
ghost use Rattle.mps_model.specs.World.{empty_world};
ghost use Rattle.mps_report.specs.declared.stop.Stop.TheVariants as stop;
ghost use Rattle.mps_run.specs.Ending.{CountsGrow, HasCause, NoFaultRose, RunsOn};
ghost use Rattle.mps_run.specs.Leaving.{log_header as header_of_log};
ghost use Rattle.mps_run.specs.LogFile.{IsInFile, LogsInto};
ghost use Rattle.mps_workload.specs.Script.{script};
ghost use Rattle.mps_generated.specs.Run.{EndsBeforeLog, LeavesGenerated, RunsGeneratedScript};

use crate::all_lines::run_lines;
use mps_commands::Commands;
use mps_desk::Desk;
use mps_report::{Stop, report_ending};
use mps_run::{BadScriptLine, log_header};
use mps_workload::GenLines;

/// Runs the generated script of a seed, of n steps, on a machine that nothing was asked of yet, writes the log of a name, prints the
/// last two answers, and reports how the run ended. Returns the status of the process: 0, or 4 if printing failed, 5 if the log failed,
/// 8 if there is no memory. The machine is ended, however the run ends.
pub fn run_generated<D: Desk, C: Commands>(
    commands: C,
    log: &str,
    seed: u64,
    count: u64,
    desk: &mut D,
) -> u8
    requires begun { C.stands_for commands empty_world }
    requires few { count ≤ 1000000 }
    ensures statuses { (result ≡ 0) ⊎ (result ≡ 4) ⊎ (result ≡ 5) ⊎ (result ≡ 8) }
    ensures runs { RunsGeneratedScript C.takes_memory log.now seed count result (D.outside desk.old) (D.outside desk.new) }
    ensures write_failed { result ≡ 4 → HasRisen (D.outside desk.old).out_faults (D.outside desk.new).out_faults }
    ensures log_failed { result ≡ 5 → HasRisen (D.outside desk.old).log_faults (D.outside desk.new).log_faults }
    ensures counts { CountsGrow (D.outside desk.old) (D.outside desk.new) }
    ensures complete { NoFaultRose (D.outside desk.old) (D.outside desk.new) → result ≢ 8 → is_input_verdict result ≡ true }
{
    let mut machine = commands;
    let ending = run(&mut machine, log, seed, count, desk);
    machine.finish();
    report_ending(ending, desk)
}

/// Makes the log, and runs the script.
fn run<D: Desk, C: Commands>(
    commands: &mut C,
    log: &str,
    seed: u64,
    count: u64,
    desk: &mut D,
) -> Result<(), Stop<BadScriptLine>>
    requires begun { C.stands_for commands.old empty_world }
    requires few { count ≤ 1000000 }
    ensures cause { HasCause result (D.outside desk.old) (D.outside desk.new) }
    ensures asked { Asks (D.outside desk.old) (D.outside desk.new) (making log.now ∷ []) }
    ensures unread { (D.outside desk.new).input ≡ (D.outside desk.old).input }
    ensures in_faults { (D.outside desk.new).in_faults ≡ (D.outside desk.old).in_faults }
    ensures leaves { EndsBeforeLog result (D.outside desk.old) (D.outside desk.new)
        ⊎ LeavesGenerated C.takes_memory result header_of_log (script seed count) (D.outside desk.old) (D.outside desk.new) }
    ensures steady { OnOk result (IsSteady (D.outside desk.old) (D.outside desk.new)) }
    ensures written { OnOk result (NothingWaits (D.outside desk.new)) }
    ensures runs { RunsOn (D.outside desk.old) (D.outside desk.new) }
    ensures log_written { result ≡ Err stop.WriteFailed → (D.outside desk.new).log_waits ≡ false }
    ensures in_file { OnOk result (IsInFile log.now (D.outside desk.old) (D.outside desk.new)) }
    ensures filed { LogsInto log.now (D.outside desk.old) (D.outside desk.new) }
{
    let Ok(()) = desk.create(log) else {
        return Err(Stop::LogFailed);
    };
    let Ok(()) = log_header(desk) else {
        return Err(Stop::LogFailed);
    };
    let mut lines = GenLines::new(seed, count);
    run_lines(desk, commands, &mut lines)
}
