// A desk that gathers over another desk.
ghost use Rattle.std.specs.Prelude.{◌≡◌, ◌⊎◌, ◌<◌, ◌≤◌, [], ℕ, true, false, length, take, IsTrue, IsSome, ◌↔◌, ◌∷◌, IfOk, IfSome, IfNone, OnOk, OnErr};
ghost use Rattle.std.specs.Option.{option_map};
ghost use Rattle.mps_desk.specs.Desk.{HasRisen, Asks, OnlyOpens, OnlyCreates, SameFiles, SameElsewhere, opening, making, made_for_log};
ghost use Rattle.mps_gathering.specs.Gathering.{outside_through, begun, HasAll, OnlyHandsOn, OnlyHandsToLog};
ghost use Rattle.mps_gathering.specs.Gathering.{TakesForLog, TakesToPrint, RefusesForLog, RefusesToPrint};

use crate::held::Held;
use crate::prefix::{log_prefix, print_prefix};
use mps_desk::{Desk, Failed};
use std::alloc::Global;
use std::marker::Model;

/// A desk over another desk, the inner one. It gathers what is logged and printed, and hands it on in large pieces: where
/// more than 65,536 bytes of a side would wait, before a name is opened or made, and where a side is settled.
///
/// What is known through it is what is known of the inner desk, with the bytes that wait after those that the inner desk
/// took, each on its side. The log's bytes are handed on first: no answer reaches the inner desk before its records.
///
/// A side on which the inner desk failed keeps what wasn't taken, and fails from then on. Where the log failed, so do the
/// calls that print. Its counts of faults are its own; none rises where the inner desk had no fault.
#[derive(Drop)]
pub struct Gathering<D: Desk + Drop> {
    inner: D,
    log: Held,
    out: Held,
    requests_unknown: bool,
    in_faults: u64,
    log_faults: u64,
    out_faults: u64,
}

impl<D: Desk + Drop> Model for Gathering<D> {
    ghost use Rattle.std.specs.Prelude.{◌≡◌, ◌<◌, ◌⊎◌, true};
    ghost use Rattle.mps_desk.specs.Desk.{HasRisen};
    ghost use Rattle.mps_gathering.specs.Gathering.{DeskThatGathers};

    ghost Value = { DeskThatGathers D };

    ghost view = { λ d. record {
      inner = d.inner;
      gathered = record {
        log = d.log;
        out = d.out;
        requests_unknown = d.requests_unknown;
        in_faults = d.in_faults;
        log_faults = d.log_faults;
        out_faults = d.out_faults;
      };
    } };

    ghost invariant = { λ d. (d.log.failed ≡ true → HasRisen 0 (D.outside d.inner).log_faults)
        × (d.out.failed ≡ true → HasRisen 0 (D.outside d.inner).out_faults)
        × (0 < d.in_faults → HasRisen 0 (D.outside d.inner).in_faults ⊎ HasRisen 0 (D.outside d.inner).log_faults)
        × (0 < d.log_faults → HasRisen 0 (D.outside d.inner).log_faults)
        × (0 < d.out_faults → HasRisen 0 (D.outside d.inner).out_faults ⊎ HasRisen 0 (D.outside d.inner).log_faults) };
}

impl<D: Desk + Drop> Gathering<D> {
    /// A desk over this one, with nothing that waits.
    pub fn new(inner: D, alloc: Global) -> Gathering<D>
        ensures { outside_through D.outside result ≡ begun (D.outside inner) }
    {
        Gathering {
            inner,
            log: Held::new(alloc),
            out: Held::new(alloc),
            requests_unknown: false,
            in_faults: 0,
            log_faults: 0,
            out_faults: 0,
        }
    }

    /// The inner desk. What waits is lost: settle both sides first.
    pub fn into_inner(self) -> D
        ensures inner { result ≡ self.inner }
        ensures log_fault { 0 < self.gathered.log_faults → HasRisen 0 (D.outside result).log_faults }
        ensures out_fault { 0 < self.gathered.out_faults
            → HasRisen 0 (D.outside result).out_faults ⊎ HasRisen 0 (D.outside result).log_faults }
        ensures all { (outside_through D.outside self).log_waits ≡ false
            → (outside_through D.outside self).out_waits ≡ false
            → HasAll (D.outside result) (outside_through D.outside self) }
    {
        let Gathering { inner, .. } = self;
        inner
    }

    /// Hands on the bytes that wait for the log. False where the log failed.
    #[tactic(auto, using(crate::proofs::Handing::log_counted_on))]
    fn write_log(&mut self) -> bool
        ensures kept { OnlyHandsToLog (outside_through D.outside self.old)
            (outside_through D.outside self.new) }
        ensures nothing_waits { IsTrue result → self.new.gathered.log.bytes ≡ [] }
        ensures rest { self.new.gathered ≡ record self.old.gathered { log = self.new.gathered.log } }
        ensures inner { (D.outside self.new.inner).printed ≡ (D.outside self.old.inner).printed }
        ensures fault { result ≡ false → HasRisen 0 (D.outside self.new.inner).log_faults }
    {
        if self.log.has_failed() {
            return false;
        }
        if self.log.is_empty() {
            return true;
        }
        let count = log_prefix(self.log.bytes(), &mut self.inner);
        self.log.hand_on(count);
        !self.log.has_failed()
    }

    /// Hands on the bytes that wait to be printed. False where that failed.
    #[tactic(auto, using(crate::proofs::Handing::out_counted_on))]
    fn write_out(&mut self) -> bool
        ensures kept { OnlyHandsOn (outside_through D.outside self.old)
            (outside_through D.outside self.new) }
        ensures nothing_waits { IsTrue result → self.new.gathered.out.bytes ≡ [] }
        ensures rest { self.new.gathered ≡ record self.old.gathered { out = self.new.gathered.out } }
        ensures fault { result ≡ false → HasRisen 0 (D.outside self.new.inner).out_faults }
    {
        if self.out.has_failed() {
            return false;
        }
        if self.out.is_empty() {
            return true;
        }
        let count = print_prefix(self.out.bytes(), &mut self.inner);
        self.out.hand_on(count);
        !self.out.has_failed()
    }

    /// Holds the piece for the log, where there is room for it.
    #[inline(always)]
    #[tactic(auto, using(crate::proofs::Handing::log_held))]
    fn hold_for_log(&mut self, piece: &[u8]) -> bool
        ensures took { IsTrue result → TakesForLog (outside_through D.outside self.old)
            (outside_through D.outside self.new) (take (length piece.now) piece.now) }
        ensures unchanged { result ≡ false → outside_through D.outside self.new
            ≡ outside_through D.outside self.old }
        ensures rest { self.new.gathered ≡ record self.old.gathered { log = self.new.gathered.log } }
        ensures empty { result ≡ false → self.new.gathered.log.bytes ≡ self.old.gathered.log.bytes }
    {
        self.log.hold(piece)
    }

    /// Holds the piece to be printed, where there is room for it.
    #[inline(always)]
    #[tactic(auto, using(crate::proofs::Handing::out_held))]
    fn hold_to_print(&mut self, piece: &[u8]) -> bool
        ensures took { IsTrue result → TakesToPrint (outside_through D.outside self.old)
            (outside_through D.outside self.new) (take (length piece.now) piece.now) }
        ensures unchanged { result ≡ false → outside_through D.outside self.new
            ≡ outside_through D.outside self.old }
        ensures rest { self.new.gathered ≡ record self.old.gathered { out = self.new.gathered.out } }
        ensures empty { result ≡ false → self.new.gathered.out.bytes ≡ self.old.gathered.out.bytes }
        ensures inner { self.new.inner ≡ self.old.inner }
    {
        self.out.hold(piece)
    }

    /// Takes a piece for the log for which there is no room: hands on what waits, and then holds it or hands it on too.
    /// None where the log failed.
    #[inline(never)]
    #[tactic(auto, using(crate::proofs::Handing::log_after, crate::proofs::Handing::log_refused))]
    fn take_for_log(&mut self, piece: &[u8]) -> Option<usize>
        ensures at_most { IfSome result (λ n. n ≤ length piece.now) }
        ensures nonzero { IfSome result (λ n. 0 < length piece.now → 0 < n) }
        ensures took { IfSome result (λ n. TakesForLog (outside_through D.outside self.old)
            (outside_through D.outside self.new) (take n piece.now)) }
        ensures refused { IfNone result (RefusesForLog (outside_through D.outside self.old)
            (outside_through D.outside self.new)) }
        ensures rest { self.new.gathered ≡ record self.old.gathered { log = self.new.gathered.log } }
        ensures fault { IfNone result (HasRisen 0 (D.outside self.new.inner).log_faults) }
    {
        if !self.write_log() {
            return None;
        }
        if self.hold_for_log(piece) {
            return Some(piece.len());
        }
        match self.inner.log(piece) {
            Ok(count) => Some(count),
            Err(_) => {
                self.log.fail();
                None
            }
        }
    }

    /// Takes a piece to be printed for which there is no room: hands on what waits, that for the log first, and then holds
    /// it or hands it on too. None where the log or the printing failed.
    #[inline(never)]
    #[tactic(auto, using(crate::proofs::Handing::held_after, crate::proofs::Handing::refused, crate::proofs::Handing::refused_twice))]
    fn take_to_print(&mut self, piece: &[u8]) -> Option<usize>
        ensures at_most { IfSome result (λ n. n ≤ length piece.now) }
        ensures nonzero { IfSome result (λ n. 0 < length piece.now → 0 < n) }
        ensures took { IfSome result (λ n. TakesToPrint (outside_through D.outside self.old)
            (outside_through D.outside self.new) (take n piece.now)) }
        ensures refused { IfNone result (RefusesToPrint (outside_through D.outside self.old)
            (outside_through D.outside self.new)) }
        ensures rest { self.new.gathered
            ≡ record self.old.gathered { log = self.new.gathered.log; out = self.new.gathered.out } }
        ensures records_first { (D.outside self.new.inner).printed ≡ (D.outside self.old.inner).printed
            ⊎ self.new.gathered.log.bytes ≡ [] }
        ensures fault { IfNone result
            (HasRisen 0 (D.outside self.new.inner).out_faults ⊎ HasRisen 0 (D.outside self.new.inner).log_faults) }
    {
        if !self.write_log() {
            return None;
        }
        if !self.write_out() {
            return None;
        }
        if self.hold_to_print(piece) {
            return Some(piece.len());
        }
        match self.inner.out(piece) {
            Ok(count) => Some(count),
            Err(_) => {
                self.out.fail();
                None
            }
        }
    }

    /// Hands on what waits for the log, and then opens the name. False where one of the two failed.
    fn open_settled(&mut self, name: &str) -> bool
        ensures input { IsTrue result
            → (outside_through D.outside self.new).input ≡ (outside_through D.outside self.old).text name.now }
        ensures known { IsSome (outside_through D.outside self.new).input ↔ IsSome (outside_through D.outside self.old).input }
        ensures unchanged { result ≡ false → (outside_through D.outside self.new).input ≡ (outside_through D.outside self.old).input }
        ensures asked { Asks (outside_through D.outside self.old) (outside_through D.outside self.new) (opening name.now ∷ []) }
        ensures others { OnlyOpens (outside_through D.outside self.old) (outside_through D.outside self.new) }
        ensures rest { self.new.gathered
            ≡ record self.old.gathered { log = self.new.gathered.log; requests_unknown = self.new.gathered.requests_unknown } }
        ensures fault { result ≡ false
            → HasRisen 0 (D.outside self.new.inner).in_faults ⊎ HasRisen 0 (D.outside self.new.inner).log_faults }
    {
        if !self.write_log() {
            self.requests_unknown = true;
            return false;
        }
        self.inner.open(name).is_ok()
    }

    /// Hands on what waits for the log, and then makes the name the log's. False where one of the two failed.
    fn create_settled(&mut self, name: &str) -> bool
        ensures made { IsTrue result → (outside_through D.outside self.new).files
            ≡ option_map (made_for_log name.now) (outside_through D.outside self.old).files }
        ensures elsewhere { SameElsewhere name.now (outside_through D.outside self.old) (outside_through D.outside self.new) }
        ensures logged { (outside_through D.outside self.new).logged ≡ (outside_through D.outside self.old).logged }
        ensures unchanged { result ≡ false → SameFiles (outside_through D.outside self.old) (outside_through D.outside self.new) }
        ensures asked { Asks (outside_through D.outside self.old) (outside_through D.outside self.new) (making name.now ∷ []) }
        ensures others { OnlyCreates (outside_through D.outside self.old) (outside_through D.outside self.new) }
        ensures rest { self.new.gathered
            ≡ record self.old.gathered { log = self.new.gathered.log; requests_unknown = self.new.gathered.requests_unknown } }
        ensures fault { result ≡ false → HasRisen 0 (D.outside self.new.inner).log_faults }
    {
        if !self.write_log() {
            self.requests_unknown = true;
            return false;
        }
        self.inner.create(name).is_ok()
    }
}

impl<D: Desk + Drop> Desk for Gathering<D> {
    ghost use Rattle.mps_gathering.specs.Gathering.{outside_through, text_law};
    ghost use Rattle.std.specs.Option.{option_map};
    ghost use Rattle.std.specs.Prelude.{◌≡◌, ◌⊎◌, ◌<◌, ◌≤◌, [], false, length, IfOk, OnOk, OnErr};
    ghost use Rattle.mps_desk.specs.Desk.{HasRisen, NothingWaits, OnlyPrints, added, after_log};

    ghost outside = { λ d. outside_through D.outside d };

    fn open(&mut self, name: &str) -> Result<(), Failed> {
        if self.open_settled(name) {
            return Ok(());
        }
        self.in_faults = self.in_faults.saturating_add(1);
        Err(Failed)
    }

    fn read(&mut self, buf: &mut [u8]) -> Result<usize, Failed> {
        match self.inner.read(buf) {
            Ok(count) => Ok(count),
            Err(_) => {
                self.in_faults = self.in_faults.saturating_add(1);
                Err(Failed)
            }
        }
    }

    fn create(&mut self, name: &str) -> Result<(), Failed> {
        if self.create_settled(name) {
            return Ok(());
        }
        self.log_faults = self.log_faults.saturating_add(1);
        Err(Failed)
    }

    #[inline(always)]
    fn log(&mut self, bytes: &[u8]) -> Result<usize, Failed> {
        if self.hold_for_log(bytes) {
            return Ok(bytes.len());
        }
        let Some(count) = self.take_for_log(bytes) else {
            self.log_faults = self.log_faults.saturating_add(1);
            return Err(Failed);
        };
        Ok(count)
    }

    #[inline(always)]
    fn out(&mut self, bytes: &[u8]) -> Result<usize, Failed>
        ensures at_most { IfOk result (λ n. n ≤ length bytes.now) }
        ensures nonzero { IfOk result (λ n. 0 < length bytes.now → 0 < n) }
        ensures printed { IfOk result (λ n. (outside_through D.outside self.new).printed
            ≡ added (outside_through D.outside self.old).printed bytes.now n) }
        ensures unchanged { OnErr result ((outside_through D.outside self.new).printed ≡ (outside_through D.outside self.old).printed) }
        ensures steady { OnOk result ((outside_through D.outside self.new).out_faults ≡ (outside_through D.outside self.old).out_faults) }
        ensures counted { (outside_through D.outside self.old).out_faults ≤ (outside_through D.outside self.new).out_faults }
        ensures cause { OnErr result
            (HasRisen (outside_through D.outside self.old).out_faults (outside_through D.outside self.new).out_faults) }
        ensures others { OnlyPrints (outside_through D.outside self.old) (outside_through D.outside self.new) }
        ensures records_first { (D.outside self.new.inner).printed ≡ (D.outside self.old.inner).printed
            ⊎ self.new.gathered.log.bytes ≡ [] }
    {
        if self.hold_to_print(bytes) {
            return Ok(bytes.len());
        }
        let Some(count) = self.take_to_print(bytes) else {
            self.out_faults = self.out_faults.saturating_add(1);
            return Err(Failed);
        };
        Ok(count)
    }

    fn err(&mut self, bytes: &[u8]) -> Result<usize, Failed> {
        self.inner.err(bytes)
    }

    fn settle_log(&mut self) -> Result<(), Failed> {
        if self.write_log() {
            if self.inner.settle_log().is_ok() {
                return Ok(());
            }
            self.log.fail();
        }
        self.log_faults = self.log_faults.saturating_add(1);
        Err(Failed)
    }

    fn settle_out(&mut self) -> Result<(), Failed>
        ensures printed { (outside_through D.outside self.new).printed ≡ (outside_through D.outside self.old).printed }
        ensures steady { OnOk result ((outside_through D.outside self.new).out_faults ≡ (outside_through D.outside self.old).out_faults) }
        ensures counted { (outside_through D.outside self.old).out_faults ≤ (outside_through D.outside self.new).out_faults }
        ensures cause { OnErr result
            (HasRisen (outside_through D.outside self.old).out_faults (outside_through D.outside self.new).out_faults) }
        ensures others { OnlyPrints (outside_through D.outside self.old) (outside_through D.outside self.new) }
        ensures written { OnOk result (NothingWaits (outside_through D.outside self.new)) }
        ensures records_first { (D.outside self.new.inner).printed ≡ (D.outside self.old.inner).printed
            ⊎ self.new.gathered.log.bytes ≡ [] }
    {
        if self.write_log() && self.write_out() {
            if self.inner.settle_out().is_ok() {
                return Ok(());
            }
            self.out.fail();
        }
        self.out_faults = self.out_faults.saturating_add(1);
        Err(Failed)
    }

    ghost text_of_files = { λ d name.
        text_law (option_map (after_log d.gathered.log.bytes) (D.outside d.inner).files) (D.outside d.inner).text name };
}
