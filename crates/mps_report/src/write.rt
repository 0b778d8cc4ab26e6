// Writing whole pieces to a desk, whose calls may take a part of a piece.

ghost use Rattle.std.specs.Prelude.{OnOk, OnErr};
ghost use Rattle.mps_desk.specs.Desk.{NothingWaits};
ghost use Rattle.mps_report.specs.Streams.{Prints, PrintsPart, Logs, LogsPart, Reports};

use mps_desk::{Desk, Failed};

/// Prints a whole piece.
pub fn print_all<D: Desk>(bytes: &[u8], desk: &mut D) -> Result<(), Failed>
    ensures printed { OnOk result (Prints (D.outside desk.old) (D.outside desk.new) bytes.now) }
    ensures failed { OnErr result (PrintsPart (D.outside desk.old) (D.outside desk.new) bytes.now) }
{
    let mut at = 0;
    while at < bytes.len() {
        let count = desk.out(&bytes[at..])?;
        at += count;
    }
    Ok(())
}

/// Prints a whole piece, and has it and all before it written.
#[tactic(auto, using(crate::proofs::Outside::settled_all))]
pub fn print_settled<D: Desk>(bytes: &[u8], desk: &mut D) -> Result<(), Failed>
    ensures printed { OnOk result (Prints (D.outside desk.old) (D.outside desk.new) bytes.now) }
    ensures written { OnOk result (NothingWaits (D.outside desk.new)) }
    ensures failed { OnErr result (PrintsPart (D.outside desk.old) (D.outside desk.new) bytes.now) }
{
    print_all(bytes, desk)?;
    let Ok(()) = desk.settle_out() else {
        return Err(Failed);
    };
    Ok(())
}

/// Writes a whole piece to the log.
pub fn log_all<D: Desk>(bytes: &[u8], desk: &mut D) -> Result<(), Failed>
    ensures logged { OnOk result (Logs (D.outside desk.old) (D.outside desk.new) bytes.now) }
    ensures failed { OnErr result (LogsPart (D.outside desk.old) (D.outside desk.new) bytes.now) }
{
    let mut at = 0;
    while at < bytes.len() {
        let count = desk.log(&bytes[at..])?;
        at += count;
    }
    Ok(())
}

/// Reports a whole piece. A fault ends the reporting.
pub fn report_all<D: Desk>(bytes: &[u8], desk: &mut D)
    ensures { Reports (D.outside desk.old) (D.outside desk.new) bytes.now }
{
    let mut at = 0;
    while at < bytes.len() {
        match desk.err(&bytes[at..]) {
            Ok(count) => at += count,
            Err(_) => return,
        }
    }
}
