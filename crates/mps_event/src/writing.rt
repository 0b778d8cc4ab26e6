// Writing a record.

ghost use Rattle.std.specs.Prelude.{◌≡◌, ◌≤◌, ◌++◌, ◌*◌, length, drop};
ghost use Rattle.mps_base.specs.Record.{record_bytes, fields_bytes};
ghost use Rattle.mps_event.specs.Grammar.{AreFields};
ghost use Rattle.mps_event.specs.Reading.{size_of_record};

use crate::version::Version;
use byteorder::{ByteOrder, LittleEndian};

/// Writes a record at the start of `out`, in a log of this version, and returns the number of its bytes: at most 40.
pub fn put(out: &mut [u8], line: u32, code: u16, fields: &[u64], version: Version) -> usize
    requires known { AreFields version code fields.now }
    requires fits { size_of_record (length fields.now) ≤ length out.old }
    ensures bytes { out.new ≡ record_bytes (record { line = line; code = code; fields = fields.now }) ++ drop result out.old }
    ensures size { result ≡ size_of_record (length fields.now) }
{
    LittleEndian::write_u16(out, code);
    LittleEndian::write_u16(&mut out[2..], fields.len() as u16);
    LittleEndian::write_u32(&mut out[4..], line);
    put_fields(&mut out[8..], fields);
    8 + 8 * fields.len()
}

/// Writes the fields at the start of `out`.
fn put_fields(out: &mut [u8], fields: &[u64])
    requires { 8 * length fields.now ≤ length out.old }
    ensures { out.new ≡ fields_bytes fields.now ++ drop (8 * length fields.now) out.old }
{
    let mut at = 0;
    for field in fields {
        LittleEndian::write_u64(&mut out[at..], *field);
        at += 8;
    }
}
