// The records that are not wanted, which are passed over where they are pending.

ghost use Rattle.std.specs.Prelude.{◌≡◌, ◌≢◌, ◌≤◌, ◌+◌, ◌*◌, ℕ, IfSome, false, drop, length};
ghost use Rattle.std.specs.Bool.{OnTrue};
ghost use Rattle.byteorder.specs.Endian.{little_number};
ghost use Rattle.mps_event.specs.Event.{event_of, field_count_of};
ghost use Rattle.mps_event.specs.KindSet.{bits_of};
ghost use Rattle.mps_event.specs.Kinds.{is_among};
ghost use Rattle.mps_event.specs.Reading.{size_of_record};
ghost use Rattle.mps_cnv.specs.Skipping.{BeginsWithUnwanted, SkipsUnwanted};

use byteorder::{ByteOrder, LittleEndian};
use mps_event::{Event, Kinds, Version};
use mps_log_reader::Input;

/// The bytes of a record before its fields.
const HEAD_BYTES: usize = 8;

/// Records that were passed over: how many, and the bytes that they take.
#[derive(Clone, Copy)]
pub(crate) struct Skipped {
    pub(crate) count: u32,
    pub(crate) size: usize,
}

/// How many records may be passed over after `count` of them: none where all kinds are wanted, since then each has a line.
pub(crate) fn most_to_skip(all: bool, count: u32) -> u32
    ensures { count + result ≤ 4294967295 }
{
    if all { 0 } else { u32::MAX - count }
}

/// Takes the pending records up to the first that is of one of these kinds, or is not whole, or is to be looked at more
/// closely; `most` at most.
pub(crate) fn skip_unwanted(version: Version, kinds: Kinds, most: u32, input: &mut Input) -> Skipped
    ensures skipped { SkipsUnwanted version (bits_of kinds) result.count result.size input.old.pending }
    ensures at_most { result.count ≤ most }
    ensures size { result.size ≤ 40 * result.count }
    ensures taken { input.new ≡ record input.old { pending = drop result.size input.old.pending } }
{
    let skipped = unwanted_in_front(version, kinds, most, input.pending());
    input.take(skipped.size);
    skipped
}

/// The same records, of these bytes.
fn unwanted_in_front(version: Version, kinds: Kinds, most: u32, bytes: &[u8]) -> Skipped
    ensures skipped { SkipsUnwanted version (bits_of kinds) result.count result.size bytes.now }
    ensures at_most { result.count ≤ most }
    ensures size { result.size ≤ 40 * result.count }
    ensures within { result.size ≤ length bytes.now }
{
    let mut size = 0;
    for count in 0..most {
        match unwanted_size(version, kinds, &bytes[size..]) {
            Some(more) => size += more,
            None => return Skipped { count, size },
        }
    }
    Skipped { count: most, size }
}

/// The size of the record with which the bytes begin, where it is whole and none of these kinds. None else, and where it
/// interns a name, which is to be looked at first.
fn unwanted_size(version: Version, kinds: Kinds, bytes: &[u8]) -> Option<usize>
    ensures sound { IfSome result (λ size. BeginsWithUnwanted version (bits_of kinds) size bytes.now) }
    ensures at_most { IfSome result (λ size. size ≤ 40) }
    ensures within { IfSome result (λ size. size ≤ length bytes.now) }
{
    if bytes.len() < HEAD_BYTES {
        return None;
    }
    match Event::of_code(LittleEndian::read_u16(bytes), version) {
        Some(event) if is_unwanted(event, kinds) => whole_size(event, bytes),
        _ => None,
    }
}

/// Whether records of an event have no line and nothing that is to be looked at: the name that one interns is.
fn is_unwanted(event: Event, kinds: Kinds) -> bool
    ensures kind { OnTrue result (is_among (bits_of kinds) event ≡ false) }
    ensures no_name { OnTrue result (event ≢ Event.Intern) }
{
    match event {
        Event::Intern => false,
        _ => !kinds.has(event),
    }
}

/// The size of the record of an event with which the bytes begin, where it is whole.
fn whole_size(event: Event, bytes: &[u8]) -> Option<usize>
    requires { 8 ≤ length bytes.now }
    ensures count { IfSome result (λ size. little_number 2 (drop 2 bytes.now) ≡ field_count_of event) }
    ensures size { IfSome result (λ size. size ≡ size_of_record (field_count_of event)) }
    ensures within { IfSome result (λ size. size ≤ length bytes.now) }
{
    let count = event.field_count();
    let size = HEAD_BYTES + 8 * count as usize;
    if LittleEndian::read_u16(&bytes[2..]) == count && size <= bytes.len() {
        Some(size)
    } else {
        None
    }
}
