// Handing bytes on to a desk until one of its calls fails.
ghost use Rattle.std.specs.Prelude.{◌≡◌, ◌<◌, ◌≤◌, length, take};
ghost use Rattle.mps_desk.specs.Desk.{HasRisen};
ghost use Rattle.mps_gathering.specs.Gathering.{LogsPrefix, PrintsPrefix};

use mps_desk::Desk;

/// Writes bytes to the log until all are written or a call fails, and answers how many bytes the log took.
#[tactic(auto, using(crate::proofs::Prefixes::prefix_logged, crate::proofs::Prefixes::whole_logged))]
pub fn log_prefix<D: Desk>(bytes: &[u8], desk: &mut D) -> usize
    ensures at_most { result ≤ length bytes.now }
    ensures logged { LogsPrefix (D.outside desk.old) (D.outside desk.new) (take result bytes.now) }
    ensures cause { result < length bytes.now → HasRisen (D.outside desk.old).log_faults (D.outside desk.new).log_faults }
{
    let mut at = 0;
    while at < bytes.len() {
        match desk.log(&bytes[at..]) {
            Ok(count) => at += count,
            Err(_) => return at,
        }
    }
    at
}

/// Prints bytes until all are printed or a call fails, and answers how many bytes were taken.
#[tactic(auto, using(crate::proofs::Prefixes::prefix_printed, crate::proofs::Prefixes::whole_printed))]
pub fn print_prefix<D: Desk>(bytes: &[u8], desk: &mut D) -> usize
    ensures at_most { result ≤ length bytes.now }
    ensures printed { PrintsPrefix (D.outside desk.old) (D.outside desk.new) (take result bytes.now) }
    ensures cause { result < length bytes.now → HasRisen (D.outside desk.old).out_faults (D.outside desk.new).out_faults }
{
    let mut at = 0;
    while at < bytes.len() {
        match desk.out(&bytes[at..]) {
            Ok(count) => at += count,
            Err(_) => return at,
        }
    }
    at
}
