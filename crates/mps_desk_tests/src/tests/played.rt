// A desk that plays back results: pieces of any sizes, and faults at any calls.
ghost use Rattle.std.specs.Prelude.{◌≡◌, ◌<◌, ◌≤◌, IfSome, length};

use mps_desk::{Desk, Failed};
use std::alloc::{AllocError, Global};
use std::marker::Model;

/// A kind of call.
#[derive(Clone, Copy, PartialEq, Eq)]
pub enum Call {
    Open,
    Read,
    Create,
    Log,
    Out,
    Err,
    SettleLog,
    SettleOut,
}

/// The result of a call.
#[derive(Clone, Copy)]
pub enum Played {
    /// It handles this many bytes at most, and at least one.
    Takes(usize),
    Fails,
}

/// A desk whose calls have the results of a list: a call has the first that is left for its kind, and handles all where none is.
/// It keeps what it took, and knows nothing of it.
#[derive(Drop)]
pub struct PlayedDesk {
    script: Vec<u8>,
    at: usize,
    played: Vec<(Call, Played)>,
    logged: Vec<u8>,
    printed: Vec<u8>,
    reported: Vec<u8>,
    in_faults: u64,
    log_faults: u64,
    out_faults: u64,
    err_faults: u64,
}

impl Model for PlayedDesk {
    ghost use Rattle.mps_desk.specs.HostDesk.{FaultCounts};

    ghost Value = { FaultCounts };

    ghost view = { λ d. record {
      in_faults = d.in_faults;
      log_faults = d.log_faults;
      out_faults = d.out_faults;
      err_faults = d.err_faults;
    } };
}

impl PlayedDesk {
    /// A desk over the bytes of a script.
    pub fn new(
        alloc: Global,
        script: &[u8],
        results: &[(Call, Played)],
    ) -> Result<PlayedDesk, AllocError> {
        Ok(PlayedDesk {
            script: Vec::from_slice(alloc, script)?,
            at: 0,
            played: Vec::from_slice(alloc, results)?,
            logged: Vec::new(alloc),
            printed: Vec::new(alloc),
            reported: Vec::new(alloc),
            in_faults: 0,
            log_faults: 0,
            out_faults: 0,
            err_faults: 0,
        })
    }

    pub fn logged(&self) -> &[u8] {
        &self.logged
    }

    pub fn printed(&self) -> &[u8] {
        &self.printed
    }

    pub fn reported(&self) -> &[u8] {
        &self.reported
    }

    /// How many of these bytes a call of this kind handles. None where it fails.
    fn count_of(&mut self, call: Call, most: usize) -> Option<usize>
        ensures same { self.new ≡ self.old }
        ensures at_most { IfSome result (λ n. n ≤ most) }
        ensures nonzero { IfSome result (λ n. 0 < most → 0 < n) }
    {
        match next_of(&mut self.played, call) {
            Played::Takes(count) => Some(most.min(count.max(1))),
            Played::Fails => None,
        }
    }

    /// Reads on in the script. None where that fails.
    fn read_script(&mut self, buf: &mut [u8]) -> Option<usize>
        ensures same { self.new ≡ self.old }
        ensures at_most { IfSome result (λ n. n ≤ length buf.new) }
    {
        let left = self.script.len().saturating_sub(self.at);
        let count = self.count_of(Call::Read, left.min(buf.len()))?;
        let from = self.at.min(self.script.len());
        let rest = &self.script[from..];
        let count = count.min(rest.len());
        buf[..count].copy_from_slice(&rest[..count]);
        self.at = from + count;
        Some(count)
    }
}

/// Takes the first result that is left for calls of this kind.
fn next_of(played: &mut Vec<(Call, Played)>, call: Call) -> Played {
    for i in 0..played.len() {
        if played[i].0 == call {
            return played.remove(i).1;
        }
    }
    Played::Takes(usize::MAX)
}

/// Keeps the first bytes of a piece. False where there is no memory for them.
fn keep(kept: &mut Vec<u8>, bytes: &[u8], count: usize) -> bool
    requires { count ≤ length bytes.now }
{
    kept.extend_from_slice(&bytes[..count]).is_ok()
}

impl Desk for PlayedDesk {
    ghost use Rattle.std.specs.Prelude.{None, false};

    ghost outside = { λ d. record {
      files = None;
      text = λ _. None;
      asked = None;
      input = None;
      logged = None;
      printed = None;
      reported = None;
      in_faults = d.in_faults;
      log_faults = d.log_faults;
      out_faults = d.out_faults;
      err_faults = d.err_faults;
      log_waits = false;
      out_waits = false;
    } };

    fn open(&mut self, _name: &str) -> Result<(), Failed> {
        if self.count_of(Call::Open, 1).is_some() {
            return Ok(());
        }
        self.in_faults = self.in_faults.saturating_add(1);
        Err(Failed)
    }

    fn read(&mut self, buf: &mut [u8]) -> Result<usize, Failed> {
        let Some(count) = self.read_script(buf) else {
            self.in_faults = self.in_faults.saturating_add(1);
            return Err(Failed);
        };
        Ok(count)
    }

    fn create(&mut self, _name: &str) -> Result<(), Failed> {
        if self.count_of(Call::Create, 1).is_some() {
            return Ok(());
        }
        self.log_faults = self.log_faults.saturating_add(1);
        Err(Failed)
    }

    fn log(&mut self, bytes: &[u8]) -> Result<usize, Failed> {
        if let Some(count) = self.count_of(Call::Log, bytes.len()) {
            if keep(&mut self.logged, bytes, count) {
                return Ok(count);
            }
        }
        self.log_faults = self.log_faults.saturating_add(1);
        Err(Failed)
    }

    fn out(&mut self, bytes: &[u8]) -> Result<usize, Failed> {
        if let Some(count) = self.count_of(Call::Out, bytes.len()) {
            if keep(&mut self.printed, bytes, count) {
                return Ok(count);
            }
        }
        self.out_faults = self.out_faults.saturating_add(1);
        Err(Failed)
    }

    fn err(&mut self, bytes: &[u8]) -> Result<usize, Failed> {
        if let Some(count) = self.count_of(Call::Err, bytes.len()) {
            if keep(&mut self.reported, bytes, count) {
                return Ok(count);
            }
        }
        self.err_faults = self.err_faults.saturating_add(1);
        Err(Failed)
    }

    fn settle_log(&mut self) -> Result<(), Failed> {
        if self.count_of(Call::SettleLog, 1).is_some() {
            return Ok(());
        }
        self.log_faults = self.log_faults.saturating_add(1);
        Err(Failed)
    }

    fn settle_out(&mut self) -> Result<(), Failed> {
        if self.count_of(Call::SettleOut, 1).is_some() {
            return Ok(());
        }
        self.out_faults = self.out_faults.saturating_add(1);
        Err(Failed)
    }

    ghost text_of_files = { λ _ _. tt };
}
