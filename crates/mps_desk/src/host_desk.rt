// The desk over real files and the standard streams.
ghost use Rattle.std.specs.Prelude.{◌≡◌, ◌<◌, ◌≤◌, None, false, length, IfSome};
ghost use Rattle.mps_desk.specs.Desk.{Outside};

use crate::host_file::{
    Identity, OpenInput, make_for_log, open_to_read, read_some, standard_input, write_some,
};
use crate::{Desk, Failed};
use std::fs::File;
use std::io::Stdin;
use std::marker::Model;

/// A desk over real files and the standard streams. It knows no content: what a real file holds, no clause can say.
/// Each call is one system call, or the few that an opening takes; nothing waits.
///
/// No file gets the number of a standard stream. A directory isn't opened, and no log is made of the open input, nor of
/// the file that standard output or error goes to. A read or a write that a signal interrupted is tried again, and where
/// the input came to its end it stays there.
#[derive(Drop)]
pub struct HostDesk {
    rt: HostRuntime,
    input: Input,
    input_file: Identity,
    log_file: Option<File>,
    in_faults: u64,
    log_faults: u64,
    out_faults: u64,
    err_faults: u64,
}

#[derive(Drop)]
enum Input {
    /// None is open, or it was read to its end.
    Nothing,
    Standard(Stdin),
    Named(File),
}

impl Model for HostDesk {
    ghost use Rattle.mps_desk.specs.HostDesk.{FaultCounts};

    ghost Value = { FaultCounts };

    ghost view = { λ d. record {
      in_faults = d.in_faults;
      log_faults = d.log_faults;
      out_faults = d.out_faults;
      err_faults = d.err_faults;
    } };
}

impl HostDesk {
    ghost use Rattle.mps_desk.specs.HostDesk.{no_faults};

    /// A desk with no input and no log yet.
    pub fn new(rt: &HostRuntime) -> HostDesk
        ensures { result ≡ no_faults }
    {
        HostDesk {
            rt: *rt,
            input: Input::Nothing,
            input_file: Identity::NoFile,
            log_file: None,
            in_faults: 0,
            log_faults: 0,
            out_faults: 0,
            err_faults: 0,
        }
    }

    /// Puts a file or standard input in the place of the input. False where it can't be opened.
    fn open_input(&mut self, name: &str) -> bool
        ensures { self.new ≡ self.old }
    {
        let opened = if name == "-" {
            standard_input(&self.rt)
        } else {
            open_to_read(&self.rt, name)
        };
        let Some(OpenInput { file, identity }) = opened else {
            return false;
        };
        self.input = match file {
            Some(file) => Input::Named(file),
            None => Input::Standard(self.rt.stdin()),
        };
        self.input_file = identity;
        true
    }

    /// Reads some of the input. None where that failed.
    fn read_input(&mut self, buf: &mut [u8]) -> Option<usize>
        ensures same { self.new ≡ self.old }
        ensures at_most { IfSome result (λ n. n ≤ length buf.new) }
    {
        match &mut self.input {
            Input::Nothing => Some(0),
            Input::Standard(stdin) => read_some(stdin, buf),
            Input::Named(file) => read_some(file, buf),
        }
    }
}

impl Desk for HostDesk {
    ghost outside = { λ d. record {
      files = None;
      text = λ _. None;
      asked = None;
      input = None;
      logged = None;
      printed = None;
      reported = None;
      in_faults = d.in_faults;
      log_faults = d.log_faults;
      out_faults = d.out_faults;
      err_faults = d.err_faults;
      log_waits = false;
      out_waits = false;
    } };

    fn open(&mut self, name: &str) -> Result<(), Failed> {
        if self.open_input(name) {
            return Ok(());
        }
        self.in_faults = self.in_faults.saturating_add(1);
        Err(Failed)
    }

    fn read(&mut self, buf: &mut [u8]) -> Result<usize, Failed> {
        let Some(count) = self.read_input(buf) else {
            self.in_faults = self.in_faults.saturating_add(1);
            return Err(Failed);
        };
        if count == 0 && !buf.is_empty() {
            self.input = Input::Nothing;
        }
        Ok(count)
    }

    fn create(&mut self, name: &str) -> Result<(), Failed> {
        let Some(file) = make_for_log(&self.rt, name, self.input_file) else {
            self.log_faults = self.log_faults.saturating_add(1);
            return Err(Failed);
        };
        self.log_file = Some(file);
        Ok(())
    }

    fn log(&mut self, bytes: &[u8]) -> Result<usize, Failed> {
        let count = match &mut self.log_file {
            Some(file) => write_some(bytes, file),
            None => Some(bytes.len()),
        };
        let Some(count) = count else {
            self.log_faults = self.log_faults.saturating_add(1);
            return Err(Failed);
        };
        Ok(count)
    }

    fn out(&mut self, bytes: &[u8]) -> Result<usize, Failed> {
        let Some(count) = write_some(bytes, &mut self.rt.stdout()) else {
            self.out_faults = self.out_faults.saturating_add(1);
            return Err(Failed);
        };
        Ok(count)
    }

    fn err(&mut self, bytes: &[u8]) -> Result<usize, Failed> {
        let Some(count) = write_some(bytes, &mut self.rt.stderr()) else {
            self.err_faults = self.err_faults.saturating_add(1);
            return Err(Failed);
        };
        Ok(count)
    }

    fn settle_log(&mut self) -> Result<(), Failed> {
        Ok(())
    }

    fn settle_out(&mut self) -> Result<(), Failed> {
        Ok(())
    }

    ghost text_of_files = { λ _ _. tt };
}
