// The top call.
ghost use Rattle.std.specs.Prelude.{◌≡◌, ◌≢◌, ◌↔◌, None, Some, Err, IfOk, codes, true};
ghost use Rattle.mps_desk.specs.Desk.{HasRisen, IsSteady, NothingWaits};
ghost use Rattle.mps_run.specs.LogReaderEnding.{is_input_verdict};
ghost use Rattle.mps_args.specs.Runnable.{IsRunnable};
ghost use Rattle.mps_args.specs.Seen.{meaning_of, texts};
ghost use Rattle.mps_args.specs.Words.{meaning};
ghost use Rattle.mps_report.specs.Streams.{Reports};
ghost use Rattle.mps_run.specs.Ending.{CountsGrow, NoFaultRose};
ghost use Rattle.mps_program.specs.Asked.{DoesAsAsked};
ghost use Rattle.mps_program.specs.declared.command.NoWords.TheVariants.{NotText, OutOfMemory};

use mps_args::{Command, command_of};
use mps_desk::Desk;
use mps_generated::run_generated;
use mps_report::{NoBadPlace, Notice, Stop, report_ending};
use mps_run::run_script;
use mps_session::Session;
use mps_tools::{blocks, cnv, generate, txt};
use std::alloc::Global;

/// Why there are no words of the command line.
#[derive(Clone, Copy, Debug, PartialEq, Eq)]
pub enum NoWords {
    /// They are no text.
    NotText,
    /// There is no memory for them.
    OutOfMemory,
}

/// Does what the words of the command line ask for, and returns the status of the process. Words that are no text have no
/// meaning. The secret is a random number: whoever knows it can make inputs over which `txt` and `blocks` are slow, but nothing
/// that a command does depends on it.
pub fn start<D: Desk>(
    alloc: Global,
    secret: u64,
    words: Result<Vec<String>, NoWords>,
    desk: &mut D,
) -> u8
    ensures asked { IfOk words (λ given. DoesAsAsked (meaning (texts given.items)) result (D.outside desk.old) (D.outside desk.new)) }
    ensures no_text { words ≡ Err NotText → DoesAsAsked None result (D.outside desk.old) (D.outside desk.new) }
    ensures no_memory { words ≡ Err OutOfMemory → Reports (D.outside desk.old) (D.outside desk.new) (codes "mps: out of memory\n") }
    ensures status { words ≡ Err OutOfMemory → result ≡ 8 }

    // What follows for words that are text, and for any words.
    ensures usage { IfOk words (λ given. (result ≡ 2) ↔ (meaning (texts given.items) ≡ None)) }
    ensures read_failed { result ≡ 3 → HasRisen (D.outside desk.old).in_faults (D.outside desk.new).in_faults }
    ensures write_failed { result ≡ 4 → HasRisen (D.outside desk.old).out_faults (D.outside desk.new).out_faults }
    ensures log_failed { result ≡ 5 → HasRisen (D.outside desk.old).log_faults (D.outside desk.new).log_faults }
    ensures counts { CountsGrow (D.outside desk.old) (D.outside desk.new) }
    ensures steady { result ≡ 0 → IsSteady (D.outside desk.old) (D.outside desk.new) }
    ensures written { is_input_verdict result ≡ true → NothingWaits (D.outside desk.old) → NothingWaits (D.outside desk.new) }
    ensures complete { IfOk words (λ given. meaning (texts given.items) ≢ None → NoFaultRose (D.outside desk.old) (D.outside desk.new)
        → result ≢ 8 → is_input_verdict result ≡ true) }
{
    match words {
        Ok(words) => mps(alloc, secret, &words, desk),
        Err(NoWords::NotText) => report_usage(desk),
        Err(NoWords::OutOfMemory) => report_ending(Err(Stop::<NoBadPlace>::OutOfMemory), desk),
    }
}

/// Does what the words of the command line ask for, and returns the status of the process. Where that is not 0, a line
/// on standard error says why. The secret is a random number, as that of `start`.
pub fn mps<D: Desk>(alloc: Global, secret: u64, words: &[String], desk: &mut D) -> u8
    ensures usage { (result ≡ 2) ↔ (meaning (texts words.now) ≡ None) }

    // What each command does; words without a meaning do nothing but report the usage.
    ensures asked { DoesAsAsked (meaning (texts words.now)) result (D.outside desk.old) (D.outside desk.new) }

    // A side is blamed only where the count of its faults rose.
    ensures read_failed { result ≡ 3 → HasRisen (D.outside desk.old).in_faults (D.outside desk.new).in_faults }
    ensures write_failed { result ≡ 4 → HasRisen (D.outside desk.old).out_faults (D.outside desk.new).out_faults }
    ensures log_failed { result ≡ 5 → HasRisen (D.outside desk.old).log_faults (D.outside desk.new).log_faults }
    ensures counts { CountsGrow (D.outside desk.old) (D.outside desk.new) }

    // The first fault ends the program: with status 0 there was none, but of reporting.
    ensures steady { result ≡ 0 → IsSteady (D.outside desk.old) (D.outside desk.new) }

    // With status 0, 6 and 7 no byte that the desk took waits to be written.
    ensures written { is_input_verdict result ≡ true → NothingWaits (D.outside desk.old) → NothingWaits (D.outside desk.new) }

    // Words with a meaning, no fault and no out of memory: the status is 0, 6 or 7.
    ensures complete { meaning (texts words.now) ≢ None → NoFaultRose (D.outside desk.old) (D.outside desk.new)
        → result ≢ 8 → is_input_verdict result ≡ true }
{
    match command_of(words) {
        Some(command) => run_command(alloc, secret, command, desk),
        None => report_usage(desk),
    }
}

/// The status where the words have no meaning.
const USAGE_STATUS: u8 = 2;

/// Reports that the words have no meaning.
fn report_usage<D: Desk>(desk: &mut D) -> u8
    ensures status { result ≡ 2 }
    ensures asked { DoesAsAsked None result (D.outside desk.old) (D.outside desk.new) }
    ensures counts { CountsGrow (D.outside desk.old) (D.outside desk.new) }
{
    Notice::plain(b"mps: usage: run, cnv, txt, blocks or gen\n").report(desk);
    USAGE_STATUS
}

/// Does what a command asks for.
fn run_command<D: Desk>(alloc: Global, secret: u64, command: Command<'_>, desk: &mut D) -> u8
    requires { IsRunnable command }
    ensures meaning { result ≢ 2 }
    ensures asked { DoesAsAsked (Some (meaning_of command.entry)) result (D.outside desk.old) (D.outside desk.new) }
    ensures read_failed { result ≡ 3 → HasRisen (D.outside desk.old).in_faults (D.outside desk.new).in_faults }
    ensures write_failed { result ≡ 4 → HasRisen (D.outside desk.old).out_faults (D.outside desk.new).out_faults }
    ensures log_failed { result ≡ 5 → HasRisen (D.outside desk.old).log_faults (D.outside desk.new).log_faults }
    ensures counts { CountsGrow (D.outside desk.old) (D.outside desk.new) }
    ensures steady { result ≡ 0 → IsSteady (D.outside desk.old) (D.outside desk.new) }
    ensures written { is_input_verdict result ≡ true → NothingWaits (D.outside desk.old) → NothingWaits (D.outside desk.new) }
    ensures complete { NoFaultRose (D.outside desk.old) (D.outside desk.new) → result ≢ 8 → is_input_verdict result ≡ true }
{
    match command {
        Command::Run { log, script } => {
            run_script(alloc, Session::new(alloc), log, script, desk)
        },
        Command::Convert { log, kinds } => cnv(alloc, log, kinds, desk),
        Command::Read { text } => txt(alloc, secret, text, desk),
        Command::Blocks { log } => blocks(alloc, secret, log, desk),
        Command::Generate { seed, count } => generate(alloc, seed, count, desk),
        Command::RunGenerated { log, seed, count } => {
            run_generated(Session::new(alloc), log, seed, count, desk)
        }
    }
}
