// The outside world as the program sees it: one input, one log, what is printed and what is reported.
ghost use Rattle.std.specs.Prelude.{◌≡◌, ◌<◌, ◌≤◌, ◌++◌, ◌↔◌, false, [], ◌∷◌, ℕ, List, length, take, IfOk, IfSome, IsNone, IsSome, OnOk, OnErr};
ghost use Rattle.std.specs.Option.{option_map};
ghost use Rattle.mps_desk.specs.Desk.{Outside, HasRisen, Asks, OnlyOpens, OnlyReads, OnlyCreates, OnlyLogs, OnlyPrints, OnlyReports, NothingWaits, SameFiles, SameElsewhere, opening, making, made_for_log, after_log, text_in, added};

use thiserror::Error;

/// The outside failed: a name that could not be opened or made, a read, or a write that took nothing.
#[derive(Clone, Copy, Debug, PartialEq, Eq, Error)]
#[error("the outside failed")]
pub struct Failed;

/// Where a program gets its input and leaves its output.
///
/// A call answers `Failed` only where the count of its faults rose, or stands at the last value of a u64, and it then
/// leaves the known bytes as they are. An accepted call leaves the counts as they are, and no count ever falls. What a
/// desk doesn't know of the outside it never knows. A desk may also know what it was asked for by name, until it forgets
/// that.
///
/// A desk may gather the bytes that it takes and write them later: those wait. `settle_log` and `settle_out` have them
/// written, so that a fault is known at once. Where one of them is accepted, no byte of its side waits.
pub trait Desk {
    /// What the desk knows of the outside.
    ghost outside: { Self → Outside };

    /// Opens a file as the input, in place of an earlier one. The name `-` is standard input.
    fn open(&mut self, name: &str) -> Result<(), Failed>
        ensures input { OnOk result ((outside self.new).input ≡ (outside self.old).text name.now) }
        ensures known { IsSome (outside self.new).input ↔ IsSome (outside self.old).input }
        ensures unchanged { OnErr result ((outside self.new).input ≡ (outside self.old).input) }
        ensures steady { OnOk result ((outside self.new).in_faults ≡ (outside self.old).in_faults) }
        ensures counted { (outside self.old).in_faults ≤ (outside self.new).in_faults }
        ensures cause { OnErr result (HasRisen (outside self.old).in_faults (outside self.new).in_faults) }
        ensures asked { Asks (outside self.old) (outside self.new) (opening name.now ∷ []) }
        ensures others { OnlyOpens (outside self.old) (outside self.new) };

    /// Reads some bytes of the input into a prefix of the buffer. What the buffer holds after them is left open,
    /// and so is the whole buffer where the call fails. At a buffer that isn't empty, 0 is the end of the input.
    fn read(&mut self, buf: &mut [u8]) -> Result<usize, Failed>
        ensures at_most { IfOk result (λ n. n ≤ length buf.new) }
        ensures prefix { IfOk result (λ n. (outside self.old).input
            ≡ option_map (λ rest. take n buf.new ++ rest) (outside self.new).input) }
        ensures end { IfOk result (λ n. n ≡ 0 → 0 < length buf.new
            → IfSome (outside self.old).input (λ left. left ≡ [])) }
        ensures unchanged { OnErr result ((outside self.new).input ≡ (outside self.old).input) }
        ensures steady { OnOk result ((outside self.new).in_faults ≡ (outside self.old).in_faults) }
        ensures counted { (outside self.old).in_faults ≤ (outside self.new).in_faults }
        ensures cause { OnErr result (HasRisen (outside self.old).in_faults (outside self.new).in_faults) }
        ensures others { OnlyReads (outside self.old) (outside self.new) };

    /// Makes the named file empty and the one that the log goes to. The input that is left stays as it is, also where
    /// it came from a file of this name.
    fn create(&mut self, name: &str) -> Result<(), Failed>
        ensures made { OnOk result ((outside self.new).files
            ≡ option_map (made_for_log name.now) (outside self.old).files) }
        ensures elsewhere { SameElsewhere name.now (outside self.old) (outside self.new) }
        ensures logged { (outside self.new).logged ≡ (outside self.old).logged }
        ensures unchanged { OnErr result (SameFiles (outside self.old) (outside self.new)) }
        ensures steady { OnOk result ((outside self.new).log_faults ≡ (outside self.old).log_faults) }
        ensures counted { (outside self.old).log_faults ≤ (outside self.new).log_faults }
        ensures cause { OnErr result (HasRisen (outside self.old).log_faults (outside self.new).log_faults) }
        ensures asked { Asks (outside self.old) (outside self.new) (making name.now ∷ []) }
        ensures others { OnlyCreates (outside self.old) (outside self.new) };

    /// Writes a prefix of the piece to the log, and answers its length: at least one byte where there is one. The bytes
    /// go after what the log's file holds, and no other file changes.
    fn log(&mut self, bytes: &[u8]) -> Result<usize, Failed>
        ensures at_most { IfOk result (λ n. n ≤ length bytes.now) }
        ensures nonzero { IfOk result (λ n. 0 < length bytes.now → 0 < n) }
        ensures logged { IfOk result (λ n. (outside self.new).logged ≡ added (outside self.old).logged bytes.now n) }
        ensures filed { IfOk result (λ n. (outside self.new).files
            ≡ option_map (after_log (take n bytes.now)) (outside self.old).files) }
        ensures text { IsNone (outside self.old).files → (outside self.new).text ≡ (outside self.old).text }
        ensures unchanged { OnErr result ((outside self.new).logged ≡ (outside self.old).logged) }
        ensures files { OnErr result (SameFiles (outside self.old) (outside self.new)) }
        ensures steady { OnOk result ((outside self.new).log_faults ≡ (outside self.old).log_faults) }
        ensures counted { (outside self.old).log_faults ≤ (outside self.new).log_faults }
        ensures cause { OnErr result (HasRisen (outside self.old).log_faults (outside self.new).log_faults) }
        ensures others { OnlyLogs (outside self.old) (outside self.new) };

    /// Prints a prefix of the piece, and answers its length: at least one byte where there is one.
    fn out(&mut self, bytes: &[u8]) -> Result<usize, Failed>
        ensures at_most { IfOk result (λ n. n ≤ length bytes.now) }
        ensures nonzero { IfOk result (λ n. 0 < length bytes.now → 0 < n) }
        ensures printed { IfOk result (λ n. (outside self.new).printed ≡ added (outside self.old).printed bytes.now n) }
        ensures unchanged { OnErr result ((outside self.new).printed ≡ (outside self.old).printed) }
        ensures steady { OnOk result ((outside self.new).out_faults ≡ (outside self.old).out_faults) }
        ensures counted { (outside self.old).out_faults ≤ (outside self.new).out_faults }
        ensures cause { OnErr result (HasRisen (outside self.old).out_faults (outside self.new).out_faults) }
        ensures others { OnlyPrints (outside self.old) (outside self.new) };

    /// Reports a prefix of the piece, and answers its length: at least one byte where there is one.
    fn err(&mut self, bytes: &[u8]) -> Result<usize, Failed>
        ensures at_most { IfOk result (λ n. n ≤ length bytes.now) }
        ensures nonzero { IfOk result (λ n. 0 < length bytes.now → 0 < n) }
        ensures reported { IfOk result (λ n. (outside self.new).reported ≡ added (outside self.old).reported bytes.now n) }
        ensures unchanged { OnErr result ((outside self.new).reported ≡ (outside self.old).reported) }
        ensures steady { OnOk result ((outside self.new).err_faults ≡ (outside self.old).err_faults) }
        ensures counted { (outside self.old).err_faults ≤ (outside self.new).err_faults }
        ensures cause { OnErr result (HasRisen (outside self.old).err_faults (outside self.new).err_faults) }
        ensures others { OnlyReports (outside self.old) (outside self.new) };

    /// Has the bytes written that the log took and that wait.
    fn settle_log(&mut self) -> Result<(), Failed>
        ensures logged { (outside self.new).logged ≡ (outside self.old).logged }
        ensures files { SameFiles (outside self.old) (outside self.new) }
        ensures steady { OnOk result ((outside self.new).log_faults ≡ (outside self.old).log_faults) }
        ensures counted { (outside self.old).log_faults ≤ (outside self.new).log_faults }
        ensures cause { OnErr result (HasRisen (outside self.old).log_faults (outside self.new).log_faults) }
        ensures others { OnlyLogs (outside self.old) (outside self.new) }
        ensures written { OnOk result ((outside self.new).log_waits ≡ false) };

    /// Has all bytes written that were taken and that wait: first those of the log, and then those to be printed.
    fn settle_out(&mut self) -> Result<(), Failed>
        ensures printed { (outside self.new).printed ≡ (outside self.old).printed }
        ensures steady { OnOk result ((outside self.new).out_faults ≡ (outside self.old).out_faults) }
        ensures counted { (outside self.old).out_faults ≤ (outside self.new).out_faults }
        ensures cause { OnErr result (HasRisen (outside self.old).out_faults (outside self.new).out_faults) }
        ensures others { OnlyPrints (outside self.old) (outside self.new) }
        ensures written { OnOk result (NothingWaits (outside self.new)) };

    /// Where the files are known, so is what opening a name gives.
    ghost text_of_files: { (desk : Self) (name : List ℕ)
        → IfSome (outside desk).files (λ files. (outside desk).text name ≡ text_in files.all name) };
}
