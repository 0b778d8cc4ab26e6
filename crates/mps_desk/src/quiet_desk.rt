// A desk that reads a borrowed text and forgets what is written.
ghost use Rattle.std.specs.Prelude.{◌≡◌, [], None, Some, false};
ghost use Rattle.mps_desk.specs.Desk.{Outside};

use crate::{Desk, Failed};
use std::marker::Model;

/// A desk that opens every name as one borrowed text, takes all that is written and forgets it. Nothing ever fails.
#[derive(Drop)]
pub struct QuietDesk<'a> {
    text: &'a [u8],
    left: &'a [u8],
}

impl<'a> Model for QuietDesk<'a> {
    ghost use Rattle.mps_desk.specs.QuietDesk.{BorrowedText};

    ghost Value = { BorrowedText };

    ghost view = { λ d. record { text = d.text.now; left = d.left.now } };
}

impl<'a> QuietDesk<'a> {
    /// A desk whose every name opens as `input`.
    pub fn new(input: &'a [u8]) -> QuietDesk<'a>
        ensures text { result.text ≡ input.now }
        ensures nothing_open { result.left ≡ [] }
    {
        QuietDesk {
            text: input,
            left: &[],
        }
    }
}

impl Desk for QuietDesk<'_> {
    ghost outside = { λ d. record {
      files = None;
      text = λ _. Some d.text;
      asked = None;
      input = Some d.left;
      logged = None;
      printed = None;
      reported = None;
      in_faults = 0;
      log_faults = 0;
      out_faults = 0;
      err_faults = 0;
      log_waits = false;
      out_waits = false;
    } };

    fn open(&mut self, _name: &str) -> Result<(), Failed> {
        self.left = self.text;
        Ok(())
    }

    fn read(&mut self, buf: &mut [u8]) -> Result<usize, Failed> {
        let count = buf.len().min(self.left.len());
        let (front, rest) = self.left.split_at(count);
        buf[..count].copy_from_slice(front);
        self.left = rest;
        Ok(count)
    }

    fn create(&mut self, _name: &str) -> Result<(), Failed> {
        Ok(())
    }

    fn log(&mut self, bytes: &[u8]) -> Result<usize, Failed> {
        Ok(bytes.len())
    }

    fn out(&mut self, bytes: &[u8]) -> Result<usize, Failed> {
        Ok(bytes.len())
    }

    fn err(&mut self, bytes: &[u8]) -> Result<usize, Failed> {
        Ok(bytes.len())
    }

    fn settle_log(&mut self) -> Result<(), Failed> {
        Ok(())
    }

    fn settle_out(&mut self) -> Result<(), Failed> {
        Ok(())
    }

    ghost text_of_files = { λ _ _. tt };
}
