// Reading the record with which some bytes begin.

ghost use Rattle.std.specs.Prelude.{◌≡◌, ◌≤◌, ◌++◌, ℕ, List, Some, Ok, Err, IfOk, IfSome, IsOkAnd, length, drop};
ghost use Rattle.byteorder.specs.Endian.{little_number};
ghost use Rattle.mps_base.specs.Record.{Record, record_bytes};
ghost use Rattle.mps_event.specs.Event.{field_count_of};
ghost use Rattle.mps_event.specs.Grammar.{IsRecord, interns_a_name};
ghost use Rattle.mps_event.specs.Reading.{first_of, too_few, coded_of, known_of, whole_of, record_in, size_of_record};

use crate::event::Event;
use crate::fault::LogFault;
use crate::name::is_padded_name;
use crate::record::RecordRef;
use crate::version::Version;
use byteorder::{ByteOrder, LittleEndian};

/// The bytes of a record before its fields: code, number of fields, line.
const HEAD: usize = 8;

/// The index at which the bytes of an interned name begin.
const INTERNED: usize = 16;

/// Reads the record with which `bytes` begin, in a log of this version; `ended` says that no more bytes follow these.
/// None exactly if there is no whole record yet: the bytes are empty, or they have not ended and are fewer than 8, or
/// fewer than a known code with its number of fields needs. `Cut` comes only if the bytes have ended.
#[inline(always)]
pub fn first<'a>(
    bytes: &'a [u8],
    ended: bool,
    version: Version,
) -> Result<Option<RecordRef<'a>>, LogFault>
    // What is read is a record of the grammar, and the bytes begin with its bytes.
    ensures sound { IfOk result (λ read. IfSome read (λ r. IsRecord version r
        × (bytes.now ≡ record_bytes r ++ drop (size_of_record (length r.fields)) bytes.now))) }
    // A record of the grammar with which the bytes begin is read, whatever follows it.
    ensures complete { (r : Record) (rest : List ℕ) → IsRecord version r → bytes.now ≡ record_bytes r ++ rest → result ≡ Ok (Some r) }
    // Which fault it is.
    ensures value { result ≡ first_of version ended bytes.now }
{
    first_record(bytes, ended, version)
}

/// The same, with its equation alone.
#[inline(always)]
fn first_record<'a>(
    bytes: &'a [u8],
    ended: bool,
    version: Version,
) -> Result<Option<RecordRef<'a>>, LogFault>
    ensures { result ≡ first_of version ended bytes.now }
{
    if bytes.is_empty() {
        return Ok(None);
    }
    if bytes.len() < HEAD {
        return too_few(ended);
    }
    match Event::of_code(LittleEndian::read_u16(bytes), version) {
        None => Err(LogFault::UnknownCode),
        Some(event) => record_of(event, bytes, ended),
    }
}

/// If there are too few bytes: a fault if they have ended, and else nothing yet.
fn too_few<'a>(ended: bool) -> Result<Option<RecordRef<'a>>, LogFault>
    ensures { result ≡ too_few ended }
{
    if ended { Err(LogFault::Cut) } else { Ok(None) }
}

/// The record of an event with which the bytes begin.
#[inline(always)]
fn record_of<'a>(
    event: Event,
    bytes: &'a [u8],
    ended: bool,
) -> Result<Option<RecordRef<'a>>, LogFault>
    requires { 8 ≤ length bytes.now }
    ensures { result ≡ known_of event ended bytes.now }
{
    let count = event.field_count();
    if LittleEndian::read_u16(&bytes[2..]) != count {
        return Err(LogFault::BadCount);
    }
    let size = HEAD + 8 * count as usize;
    if bytes.len() < size {
        return too_few(ended);
    }
    whole_record(event, &bytes[..size])
}

/// The record of an event that the bytes are, all of them.
#[inline(always)]
fn whole_record<'a>(event: Event, bytes: &'a [u8]) -> Result<Option<RecordRef<'a>>, LogFault>
    requires count { little_number 2 (drop 2 bytes.now) ≡ field_count_of event }
    requires size { length bytes.now ≡ size_of_record (field_count_of event) }
    ensures { result ≡ whole_of event (record_in bytes.now) }
{
    if interns_a_name(event, bytes) {
        Ok(Some(RecordRef::new(bytes)))
    } else {
        Err(LogFault::BadString)
    }
}

/// Whether what a whole record interns, if anything, is a name.
fn interns_a_name(event: Event, bytes: &[u8]) -> bool
    requires count { little_number 2 (drop 2 bytes.now) ≡ field_count_of event }
    requires size { length bytes.now ≡ size_of_record (field_count_of event) }
    ensures { result ≡ interns_a_name event (record_in bytes.now).fields }
{
    match event {
        Event::Intern => is_padded_name(&bytes[INTERNED..]),
        _ => true,
    }
}
