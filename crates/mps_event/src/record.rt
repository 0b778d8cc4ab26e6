// A record where it lies in the bytes of a log.

ghost use Rattle.std.specs.Prelude.{◌≡◌, ◌<◌, ◌+◌, ◌*◌, length, slice_index};

use byteorder::{ByteOrder, LittleEndian};
use std::marker::Model;

/// A whole record, which borrows its bytes from the log: its fields are read there and copied nowhere. Contracts see the
/// record.
#[derive(Debug, Drop)]
pub struct RecordRef<'a> {
    bytes: &'a [u8],
}

impl<'a> Model for RecordRef<'a> {
    ghost use Rattle.std.specs.Prelude.{◌≡◌, length, drop};
    ghost use Rattle.byteorder.specs.Endian.{little_number};
    ghost use Rattle.mps_base.specs.Record.{Record};
    ghost use Rattle.mps_event.specs.Reading.{record_in, size_of_record};

    ghost Value = { Record };

    ghost view = { λ r. record_in r.bytes.now };

    ghost invariant = { λ r. length r.bytes.now ≡ size_of_record (little_number 2 (drop 2 r.bytes.now)) };
}

impl<'a> RecordRef<'a> {
    ghost use Rattle.std.specs.Prelude.{drop};
    ghost use Rattle.byteorder.specs.Endian.{little_number};
    ghost use Rattle.mps_event.specs.Reading.{record_in, size_of_record};

    /// The record that these bytes are, all of them.
    pub(crate) fn new(bytes: &'a [u8]) -> RecordRef<'a>
        requires { length bytes.now ≡ size_of_record (little_number 2 (drop 2 bytes.now)) }
        ensures { result ≡ record_in bytes.now }
    {
        RecordRef { bytes }
    }

    /// The code of the record's event.
    pub fn code(&self) -> u16
        ensures { result ≡ self.now.code }
    {
        LittleEndian::read_u16(self.bytes)
    }

    /// The line of the script whose command the record belongs to.
    pub fn line(&self) -> u32
        ensures { result ≡ self.now.line }
    {
        LittleEndian::read_u32(&self.bytes[4..])
    }

    /// The number of fields.
    pub fn count(&self) -> u16
        ensures { result ≡ length self.now.fields }
    {
        LittleEndian::read_u16(&self.bytes[2..])
    }

    /// The field at an index, counted from 0.
    pub fn field(&self, i: u16) -> u64
        requires { i < length self.now.fields }
        ensures { result ≡ slice_index self.now.fields i }
    {
        LittleEndian::read_u64(&self.bytes[8 + 8 * i as usize..])
    }

    /// The number of bytes.
    pub fn size(&self) -> usize
        ensures { result ≡ size_of_record (length self.now.fields) }
    {
        self.bytes.len()
    }
}
