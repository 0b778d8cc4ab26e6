// A desk in memory, for tests.
ghost use Rattle.std.specs.Prelude.{◌≡◌, ◌<◌, ◌≤◌, ◌+◌, ◌↔◌, min, ℕ, [], ◌∷◌, ◌++◌, length, take, drop, Some, None, IsTrue, IsErr, IfOk, IfSome, OnOk, OnErr};
ghost use Rattle.std.specs.Option.{option_copied};
ghost use Rattle.mps_desk.specs.Desk.{text_in};

use crate::calls::CallList;
use crate::requests::Requests;
use crate::stored_file::{StoredFile, add_to_log, bytes_of_file, make_file, put_file};
use crate::{Desk, Failed};
use std::alloc::{AllocError, Global};
use std::marker::Model;

/// A kind of call of a desk.
#[derive(Clone, Copy, Debug, PartialEq, Eq)]
pub enum DeskCall {
    Open,
    Read,
    Create,
    Log,
    Out,
    Err,
}

/// A desk whose files lie in memory. Its calls fail where they are listed, where the file to open is absent, and, all
/// but `read`, also where it finds no memory for what it has to keep.
#[derive(Drop)]
pub struct MemDesk {
    alloc: Global,
    files: Vec<StoredFile>,
    log_file: Option<String>,
    requests: Requests,
    input: Vec<u8>,
    position: usize,
    logged: Vec<u8>,
    printed: Vec<u8>,
    reported: Vec<u8>,
    most: usize,
    opens: CallList,
    reads: CallList,
    creates: CallList,
    logs: CallList,
    outs: CallList,
    errs: CallList,
    in_faults: u64,
    log_faults: u64,
    out_faults: u64,
    err_faults: u64,
}

impl Model for MemDesk {
    ghost use Rattle.std.specs.Prelude.{◌<◌, ◌≤◌, length, drop, string_bytes};
    ghost use Rattle.std.specs.Option.{option_map};
    ghost use Rattle.mps_desk.specs.MemDesk.{DeskInMemory};

    ghost Value = { DeskInMemory };

    ghost view = { λ d. record {
      files = record { all = d.files.items; log = option_map string_bytes d.log_file };
      requests = d.requests;
      input = drop d.position d.input.items;
      logged = d.logged.items;
      printed = d.printed.items;
      reported = d.reported.items;
      most = d.most;
      opens = d.opens;
      reads = d.reads;
      creates = d.creates;
      logs = d.logs;
      outs = d.outs;
      errs = d.errs;
      in_faults = d.in_faults;
      log_faults = d.log_faults;
      out_faults = d.out_faults;
      err_faults = d.err_faults;
    } };

    ghost invariant = { λ d. (d.position ≤ length d.input.items) × (0 < d.most) };
}

impl MemDesk {
    ghost use Rattle.mps_desk.specs.Desk.{file_named, with_file};
    ghost use Rattle.mps_desk.specs.MemDesk.{new_desk, with_failing};

    /// A desk with no files, at which no call is to fail.
    pub fn new(alloc: Global) -> MemDesk
        ensures { result ≡ new_desk }
    {
        MemDesk {
            alloc,
            files: Vec::new(alloc),
            log_file: None,
            requests: Requests::new(alloc),
            input: Vec::new(alloc),
            position: 0,
            logged: Vec::new(alloc),
            printed: Vec::new(alloc),
            reported: Vec::new(alloc),
            most: usize::MAX,
            opens: CallList::new(alloc),
            reads: CallList::new(alloc),
            creates: CallList::new(alloc),
            logs: CallList::new(alloc),
            outs: CallList::new(alloc),
            errs: CallList::new(alloc),
            in_faults: 0,
            log_faults: 0,
            out_faults: 0,
            err_faults: 0,
        }
    }

    /// Puts a file onto the desk, in place of one of this name. The file `-` is standard input.
    pub fn add_file(&mut self, name: &str, bytes: &[u8]) -> Result<(), AllocError>
        ensures ok { OnOk result (self.new
            ≡ record self.old { files = record self.old.files { all = with_file self.old.files.all name.now bytes.now } }) }
        ensures unchanged { OnErr result (self.new ≡ self.old) }
    {
        put_file(self.alloc, &mut self.files, name, bytes)?;
        Ok(())
    }

    /// Lists a call that is to fail, by its kind and its number, which counts the calls of that kind from 1.
    pub fn fail(&mut self, call: DeskCall, number: u64) -> Result<(), AllocError>
        ensures ok { OnOk result (self.new ≡ with_failing self.old call number) }
        ensures unchanged { OnErr result (self.new ≡ self.old) }
    {
        match call {
            DeskCall::Open => self.opens.list(number),
            DeskCall::Read => self.reads.list(number),
            DeskCall::Create => self.creates.list(number),
            DeskCall::Log => self.logs.list(number),
            DeskCall::Out => self.outs.list(number),
            DeskCall::Err => self.errs.list(number),
        }
    }

    /// From now on each read and each write handles at most n bytes.
    pub fn pieces(&mut self, most: usize)
        requires { 0 < most }
        ensures { self.new ≡ record self.old { most = most } }
    {
        self.most = most;
    }

    /// The bytes of the file of this name, where there is one.
    pub fn file(&self, name: &str) -> Option<&[u8]>
        ensures { option_copied result ≡ file_named self.now.files.all name.now }
    {
        bytes_of_file(&self.files, name)
    }

    /// All that was printed.
    pub fn printed(&self) -> &[u8]
        ensures { result.now ≡ self.now.printed }
    {
        &self.printed
    }

    /// All that was reported.
    pub fn reported(&self) -> &[u8]
        ensures { result.now ≡ self.now.reported }
    {
        &self.reported
    }
}

impl Desk for MemDesk {
    ghost use Rattle.std.specs.Prelude.{◌≡◌, ◌<◌, ◌↔◌, min, [], ◌∷◌, ◌++◌, length, take, drop};
    ghost use Rattle.std.specs.Prelude.{Some, None, refl, IsErr, IsNone, IfOk, OnOk, OnErr};
    ghost use Rattle.mps_desk.specs.Desk.{AreNext, SameElsewhere, text_in, opening, making, made_for_log, after_log};
    ghost use Rattle.mps_desk.specs.MemDesk.{outside_of, one_more_call, next_count, IsNextListed};

    ghost outside = { outside_of };

    fn open(&mut self, name: &str) -> Result<(), Failed>
        ensures listed { IsNextListed self.old.opens → IsErr result }
        ensures absent { IsNone (text_in self.old.files.all name.now) → IsErr result }
        ensures ok { IfOk result (λ _. Some self.new.input ≡ text_in self.old.files.all name.now) }
        ensures ok_state { OnOk result (self.new
            ≡ record self.old { input = self.new.input; requests = self.new.requests; opens = one_more_call self.old.opens }) }
        ensures asked { AreNext self.old.requests (opening name.now ∷ []) self.new.requests }
        ensures err { OnErr result (self.new ≡ record self.old {
          requests = self.new.requests;
          opens = one_more_call self.old.opens;
          in_faults = next_count self.old.in_faults;
        }) }
    {
        self.requests.note(self.alloc, name, false);
        let listed = self.opens.next_fails();
        let text = text_of_name(&self.files, name).filter(|_| !listed);
        let input = text.and_then(|text| Vec::from_slice(self.alloc, text).ok());
        let Some(input) = input else {
            self.in_faults = self.in_faults.saturating_add(1);
            return Err(Failed);
        };
        self.input = input;
        self.position = 0;
        Ok(())
    }

    fn read(&mut self, buf: &mut [u8]) -> Result<usize, Failed>
        ensures listed { IsErr result ↔ IsNextListed self.old.reads }
        ensures count { IfOk result (λ n. n ≡ min (length buf.new) (min self.old.most (length self.old.input))) }
        ensures prefix { IfOk result (λ n. take n buf.new ≡ take n self.old.input) }
        ensures end { IfOk result (λ n. n ≡ 0 → 0 < length buf.new → self.old.input ≡ []) }
        ensures ok { IfOk result (λ n. self.new
            ≡ record self.old { input = drop n self.old.input; reads = one_more_call self.old.reads }) }
        ensures err { OnErr result (self.new
            ≡ record self.old { reads = one_more_call self.old.reads; in_faults = next_count self.old.in_faults }) }
    {
        if self.reads.next_fails() {
            self.in_faults = self.in_faults.saturating_add(1);
            return Err(Failed);
        }
        let left = &self.input[self.position..];
        let count = copy_prefix(&left[..left.len().min(self.most)], buf);
        self.position += count;
        Ok(count)
    }

    #[tactic(auto, using(crate::proofs::Files::text_stays))]
    fn create(&mut self, name: &str) -> Result<(), Failed>
        ensures elsewhere { SameElsewhere name.now (outside_of self.old) (outside_of self.new) }
        ensures listed { IsNextListed self.old.creates → IsErr result }
        ensures ok { OnOk result (self.new ≡ record self.old {
          files = made_for_log name.now self.old.files;
          requests = self.new.requests;
          creates = one_more_call self.old.creates;
        }) }
        ensures asked { AreNext self.old.requests (making name.now ∷ []) self.new.requests }
        ensures err { OnErr result (self.new ≡ record self.old {
          requests = self.new.requests;
          creates = one_more_call self.old.creates;
          log_faults = next_count self.old.log_faults;
        }) }
    {
        self.requests.note(self.alloc, name, true);
        if !self.creates.next_fails() {
            if let Ok(name) = make_file(self.alloc, &mut self.files, name) {
                self.log_file = Some(name);
                return Ok(());
            }
        }
        self.log_faults = self.log_faults.saturating_add(1);
        Err(Failed)
    }

    fn log(&mut self, bytes: &[u8]) -> Result<usize, Failed>
        ensures listed { IsNextListed self.old.logs → IsErr result }
        ensures count { IfOk result (λ n. n ≡ min (length bytes.now) self.old.most) }
        ensures nonzero { IfOk result (λ n. 0 < length bytes.now → 0 < n) }
        ensures ok { IfOk result (λ n. self.new ≡ record self.old {
          files = after_log (take n bytes.now) self.old.files;
          logged = self.old.logged ++ take n bytes.now;
          logs = one_more_call self.old.logs;
        }) }
        ensures err { OnErr result (self.new ≡ record self.old {
          logs = one_more_call self.old.logs;
          log_faults = next_count self.old.log_faults;
        }) }
    {
        let count = bytes.len().min(self.most);
        if !self.logs.next_fails() {
            let piece = &bytes[..count];
            let name = self.log_file.as_ref();
            if add_to_log(&mut self.logged, &mut self.files, name, piece).is_ok() {
                return Ok(count);
            }
        }
        self.log_faults = self.log_faults.saturating_add(1);
        Err(Failed)
    }

    fn out(&mut self, bytes: &[u8]) -> Result<usize, Failed>
        ensures listed { IsNextListed self.old.outs → IsErr result }
        ensures count { IfOk result (λ n. n ≡ min (length bytes.now) self.old.most) }
        ensures nonzero { IfOk result (λ n. 0 < length bytes.now → 0 < n) }
        ensures ok { IfOk result (λ n. self.new ≡ record self.old {
          printed = self.old.printed ++ take n bytes.now;
          outs = one_more_call self.old.outs;
        }) }
        ensures err { OnErr result (self.new ≡ record self.old {
          outs = one_more_call self.old.outs;
          out_faults = next_count self.old.out_faults;
        }) }
    {
        let count = bytes.len().min(self.most);
        if !self.outs.next_fails() && self.printed.extend_from_slice(&bytes[..count]).is_ok() {
            return Ok(count);
        }
        self.out_faults = self.out_faults.saturating_add(1);
        Err(Failed)
    }

    fn err(&mut self, bytes: &[u8]) -> Result<usize, Failed>
        ensures listed { IsNextListed self.old.errs → IsErr result }
        ensures count { IfOk result (λ n. n ≡ min (length bytes.now) self.old.most) }
        ensures nonzero { IfOk result (λ n. 0 < length bytes.now → 0 < n) }
        ensures ok { IfOk result (λ n. self.new ≡ record self.old {
          reported = self.old.reported ++ take n bytes.now;
          errs = one_more_call self.old.errs;
        }) }
        ensures err { OnErr result (self.new ≡ record self.old {
          errs = one_more_call self.old.errs;
          err_faults = next_count self.old.err_faults;
        }) }
    {
        let count = bytes.len().min(self.most);
        if !self.errs.next_fails() && self.reported.extend_from_slice(&bytes[..count]).is_ok() {
            return Ok(count);
        }
        self.err_faults = self.err_faults.saturating_add(1);
        Err(Failed)
    }

    fn settle_log(&mut self) -> Result<(), Failed> {
        Ok(())
    }

    fn settle_out(&mut self) -> Result<(), Failed> {
        Ok(())
    }

    ghost text_of_files = { λ desk name. refl };
}

/// What the name opens as: standard input is empty where there is no file `-`.
fn text_of_name<'a>(files: &'a [StoredFile], name: &str) -> Option<&'a [u8]>
    ensures { option_copied result ≡ text_in files.now name.now }
{
    match bytes_of_file(files, name) {
        None if name == "-" => Some(&[]),
        found => found,
    }
}

/// Copies as much as both hold to a prefix of the buffer.
fn copy_prefix(left: &[u8], buf: &mut [u8]) -> usize
    ensures count { result ≡ min (length buf.new) (length left.now) }
    ensures prefix { take result buf.new ≡ take result left.now }
{
    let count = buf.len().min(left.len());
    buf[..count].copy_from_slice(&left[..count]);
    count
}
