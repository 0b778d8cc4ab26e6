// What a program prints, gathered in a buffer.

ghost use Rattle.std.specs.Prelude.{◌≡◌, ◌≤◌, ◌<◌, ◌+◌, ◌++◌, ◌⊎◌, ℕ, [], length, take, decimal, OnOk, OnErr, IfOk};
ghost use Rattle.mps_numerals.specs.Hexadecimal.{hexadecimal};
ghost use Rattle.mps_desk.specs.Desk.{NothingWaits};
ghost use Rattle.mps_report.specs.Streams.{Prints, PrintsPart, FlushedPrefix};

use crate::write::print_settled;
use mps_desk::{Desk, Failed};
use mps_numerals::{put_decimal, put_hexadecimal, put_text};
use std::alloc::{AllocError, Global};
use std::marker::Model;

/// The bytes of the buffer.
const BUFFER_BYTES: usize = 65536;

/// The bytes that there is room for after `make_room`: no line has more.
const MAX_LINE_BYTES: usize = 512;

/// The bytes that are to be printed next, gathered in a buffer of 64 KiB. Contracts see these bytes.
#[derive(Drop)]
pub struct Output {
    room: Vec<u8>,
    used: usize,
}

impl Model for Output {
    ghost use Rattle.std.specs.Prelude.{◌≡◌, ◌≤◌, ℕ, List, take, length};

    ghost Value = { List ℕ };

    ghost view = { λ o. take o.used o.room.items };

    ghost invariant = { λ o. (length o.room.items ≡ 65536) × (o.used ≤ 65536) };
}

impl Output {
    /// Nothing was gathered yet.
    pub fn new(alloc: Global) -> Result<Output, AllocError>
        ensures { IfOk result (λ output. output ≡ []) }
    {
        let room = vec![in alloc; 0u8; BUFFER_BYTES]?;
        Ok(Output { room, used: 0 })
    }

    /// Makes room for a line, of 512 bytes. `Failed` where a write failed, after some of the bytes were printed; all that
    /// was gathered stays so.
    pub fn make_room<D: Desk>(&mut self, desk: &mut D) -> Result<(), Failed>
        ensures fits { OnOk result (length self.new + 512 ≤ 65536) }
        ensures flushed { OnOk result (FlushedPrefix (D.outside desk.old) (D.outside desk.new) self.old self.new) }
        ensures failed { OnErr result (PrintsPart (D.outside desk.old) (D.outside desk.new) self.old) }
        ensures unchanged { OnErr result (self.new ≡ self.old) }
        ensures written { OnOk result (NothingWaits (D.outside desk.old) → NothingWaits (D.outside desk.new)) }
    {
        if BUFFER_BYTES - self.used < MAX_LINE_BYTES {
            self.flush(desk)
        } else {
            Ok(())
        }
    }

    /// Prints all that was gathered, and has it written. `Failed` where a write failed, after some of the bytes were
    /// printed; all of it then stays gathered.
    pub fn flush<D: Desk>(&mut self, desk: &mut D) -> Result<(), Failed>
        ensures empty { OnOk result (self.new ≡ []) }
        ensures printed { OnOk result (Prints (D.outside desk.old) (D.outside desk.new) self.old) }
        ensures written { OnOk result (NothingWaits (D.outside desk.new)) }
        ensures failed { OnErr result (PrintsPart (D.outside desk.old) (D.outside desk.new) self.old) }
        ensures unchanged { OnErr result (self.new ≡ self.old) }
    {
        print_settled(&self.room[..self.used], desk)?;
        self.used = 0;
        Ok(())
    }

    /// Gathers a text.
    pub fn text(&mut self, bytes: &[u8])
        requires { length self.old + length bytes.now ≤ 65536 }
        ensures { self.new ≡ self.old ++ bytes.now }
    {
        self.used = put_text(bytes, &mut self.room, self.used);
    }

    /// Gathers a number in decimal.
    pub fn decimal(&mut self, number: u64)
        requires { length self.old + 20 ≤ 65536 }
        ensures text { self.new ≡ self.old ++ decimal number }
        ensures at_most { length self.new ≤ length self.old + 20 }
    {
        self.used = put_decimal(number, &mut self.room, self.used);
    }

    /// Gathers a number in hexadecimal, without `0x`.
    pub fn hexadecimal(&mut self, number: u64)
        requires { length self.old + 16 ≤ 65536 }
        ensures text { self.new ≡ self.old ++ hexadecimal number }
        ensures at_most { length self.new ≤ length self.old + 16 }
    {
        self.used = put_hexadecimal(number, &mut self.room, self.used);
    }
}
