// `gen`: prints a generated script.

ghost use Rattle.std.specs.Prelude.{◌≡◌, ◌≤◌, ◌⊎◌, ◌++◌, [], codes, length, OnOk, OnErr};
ghost use Rattle.std.specs.List.{flat_map};
ghost use Rattle.mps_desk.specs.Desk.{NothingWaits};
ghost use Rattle.mps_workload.specs.Ending.{IsGenerated, FailsWithin};
ghost use Rattle.mps_workload.specs.Script.{script};
ghost use Rattle.mps_report.specs.Streams.{Prints, PrintsPart, Gathers, Reports};

use crate::lines::GenLines;
use mps_desk::{Desk, Failed};
use mps_report::{NoBadPlace, Output, Stop, report_ending};
use std::alloc::Global;

/// Prints the generated script of a seed, of n steps, and returns the status of the program: 0, or with a report 4
/// if a write failed, 8 if there is no memory. It prints and reports, and does nothing else.
pub fn generate<D: Desk>(alloc: Global, seed: u64, count: u64, desk: &mut D) -> u8
    requires { count ≤ 1000000 }
    ensures whole { result ≡ 0 → Prints (D.outside desk.old) (D.outside desk.new) (script seed count) }
    ensures statuses { (result ≡ 0) ⊎ (result ≡ 4) ⊎ (result ≡ 8) }
    ensures cut { result ≡ 4 → FailsWithin (D.outside desk.old) (D.outside desk.new) (script seed count) }
    ensures no_memory { result ≡ 8 → Reports (D.outside desk.old) (D.outside desk.new) (codes "mps: out of memory\n") }
    ensures written { result ≡ 0 → NothingWaits (D.outside desk.new) }
{
    let ending = print_script(alloc, seed, count, desk);
    report_ending(ending, desk)
}

fn print_script<D: Desk>(
    alloc: Global,
    seed: u64,
    count: u64,
    desk: &mut D,
) -> Result<(), Stop<NoBadPlace>>
    requires { count ≤ 1000000 }
    ensures generated { IsGenerated (D.outside desk.old) (D.outside desk.new) (script seed count) result }
    ensures written { OnOk result (NothingWaits (D.outside desk.new)) }
{
    let mut output = match Output::new(alloc) {
        Ok(output) => output,
        Err(_) => return Err(Stop::OutOfMemory),
    };
    let mut lines = GenLines::new(seed, count);
    match print_all_lines(&mut lines, &mut output, desk) {
        Ok(()) => Ok(()),
        Err(_) => Err(Stop::WriteFailed),
    }
}

fn print_all_lines<D: Desk>(
    lines: &mut GenLines,
    output: &mut Output,
    desk: &mut D,
) -> Result<(), Failed>
    requires { output.old ≡ [] }
    ensures printed { OnOk result (Prints (D.outside desk.old) (D.outside desk.new) (flat_map (λ line. line) lines.old)) }
    ensures part { OnErr result (PrintsPart (D.outside desk.old) (D.outside desk.new) (flat_map (λ line. line) lines.old)) }
    ensures written { OnOk result (NothingWaits (D.outside desk.new)) }
{
    gather_lines(lines, output, desk)?;
    output.flush(desk)
}

fn gather_lines<D: Desk>(
    lines: &mut GenLines,
    output: &mut Output,
    desk: &mut D,
) -> Result<(), Failed>
    ensures gathered { OnOk result (Gathers (D.outside desk.old) (D.outside desk.new) output.old output.new
        (flat_map (λ line. line) lines.old)) }
    ensures part { OnErr result (PrintsPart (D.outside desk.old) (D.outside desk.new) (output.old ++ flat_map (λ line. line) lines.old)) }
{
    let mut line = [0u8; 64];
    while let Some(length) = lines.next_line(&mut line) {
        gather_line(&line[..length as usize], output, desk)?;
    }
    Ok(())
}

fn gather_line<D: Desk>(text: &[u8], output: &mut Output, desk: &mut D) -> Result<(), Failed>
    requires { length text.now ≤ 64 }
    ensures gathered { OnOk result (Gathers (D.outside desk.old) (D.outside desk.new) output.old output.new text.now) }
    ensures part { OnErr result (PrintsPart (D.outside desk.old) (D.outside desk.new) output.old) }
{
    output.make_room(desk)?;
    output.text(text);
    Ok(())
}
