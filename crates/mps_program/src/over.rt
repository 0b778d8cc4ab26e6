// The program over a desk that gets the output in large pieces.
ghost use Rattle.std.specs.Prelude.{◌≡◌, ◌⊎◌, None, Err, IfOk, true};
ghost use Rattle.mps_desk.specs.Desk.{HasRisen, NothingWaits};
ghost use Rattle.mps_run.specs.LogReaderEnding.{is_input_verdict};
ghost use Rattle.mps_args.specs.Seen.{texts};
ghost use Rattle.mps_args.specs.Words.{meaning};
ghost use Rattle.mps_gathering.specs.Gathering.{begun};
ghost use Rattle.mps_program.specs.Over.{HandsOnAll, HandsOnSome};
ghost use Rattle.mps_program.specs.declared.command.NoWords.TheVariants.{NotText, OutOfMemory};

use crate::command::{NoWords, start};
use mps_desk::Desk;
use mps_gathering::Gathering;
use std::alloc::Global;

/// Does what the words of the command line ask for over an inner desk, to which the log and what is printed are handed on in
/// large pieces. Returns the status of the process, and the inner desk. The secret is a random number, as that of `start`.
pub fn start_over<D: Desk + Drop>(
    alloc: Global,
    secret: u64,
    words: Result<Vec<String>, NoWords>,
    inner: D,
) -> (u8, D)
    requires { NothingWaits (D.outside inner) }

    // With status 0, 6 and 7 the inner desk took all bytes, in their order and each on its side.
    ensures all { IfOk words (λ given. is_input_verdict result.0 ≡ true
        → HandsOnAll (meaning (texts given.items)) result.0 (begun (D.outside inner)) (D.outside result.1)) }

    // With any status it took a prefix of them.
    ensures some { IfOk words (λ given.
        HandsOnSome (meaning (texts given.items)) result.0 (begun (D.outside inner)) (D.outside result.1)) }
    ensures no_text { words ≡ Err NotText → HandsOnSome None result.0 (begun (D.outside inner)) (D.outside result.1) }
    ensures no_memory { words ≡ Err OutOfMemory → result.0 ≡ 8 }

    // A side is blamed only where the inner desk had a fault.
    ensures log_fault { result.0 ≡ 5 → HasRisen 0 (D.outside result.1).log_faults }
    ensures out_fault { result.0 ≡ 4 → HasRisen 0 (D.outside result.1).out_faults ⊎ HasRisen 0 (D.outside result.1).log_faults }
{
    let mut desk = Gathering::new(inner, alloc);
    let status = start(alloc, secret, words, &mut desk);
    (status, desk.into_inner())
}
