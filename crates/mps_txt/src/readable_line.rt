// The readable line of a record.

ghost use Rattle.std.specs.Prelude.{◌≡◌, ◌≤◌, ◌+◌, ◌++◌, codes, decimal, length, slice_index};
ghost use Rattle.std.specs.Option.{option_map};
ghost use Rattle.mps_event.specs.Name.{name_in};
ghost use Rattle.mps_txt.specs.Labels.{Naming, label_at};
ghost use Rattle.mps_txt.specs.Readable.{name_of_event, columns_of, columns_text, event_text, hexadecimal_text, label_text};

use crate::labels::{Labels, name_of};
use crate::record_line::RecordLine;
use mps_base::find_byte;
use mps_event::Event;
use mps_report::Output;

/// A field whose number is shown in decimal. Its name is given with the space before it and the equals sign after it.
fn put_decimal(name: &[u8], number: u64, output: &mut Output)
    requires { length output.old + length name.now + 20 ≤ 65536 }
    ensures text { output.new ≡ output.old ++ (name.now ++ decimal number) }
    ensures at_most { length output.new ≤ length output.old + length name.now + 20 }
{
    output.text(name);
    output.decimal(number);
}

/// A field whose number is shown in hexadecimal.
fn put_hexadecimal(name: &[u8], number: u64, output: &mut Output)
    requires { length output.old + length name.now + 18 ≤ 65536 }
    ensures text { output.new ≡ output.old ++ (name.now ++ hexadecimal_text number) }
    ensures at_most { length output.new ≤ length output.old + length name.now + 18 }
{
    output.text(name);
    output.text(b"0x");
    output.hexadecimal(number);
}

/// A field that is the address of a block, with its label.
fn put_address(name: &[u8], address: u64, label: Option<[u8; 16]>, output: &mut Output)
    requires { length output.old + length name.now + 36 ≤ 65536 }
    ensures text { output.new ≡ output.old ++ (name.now ++ (hexadecimal_text address ++ label_text (option_map name_in label))) }
    ensures at_most { length output.new ≤ length output.old + length name.now + 36 }
{
    put_hexadecimal(name, address, output);
    put_label_text(label, output);
}

/// A label in brackets.
fn put_label_text(label: Option<[u8; 16]>, output: &mut Output)
    requires { length output.old + 18 ≤ 65536 }
    ensures text { output.new ≡ output.old ++ label_text (option_map name_in label) }
    ensures at_most { length output.new ≤ length output.old + 18 }
{
    if let Some(name) = label {
        output.text(b"[");
        put_name(&name, output);
        output.text(b"]");
    }
}

/// A name, without the zeros that fill it up.
fn put_name(name: &[u8; 16], output: &mut Output)
    requires { length output.old + 16 ≤ 65536 }
    ensures text { output.new ≡ output.old ++ name_in name.now }
    ensures at_most { length output.new ≤ length output.old + 16 }
{
    let end = find_byte(0, name).unwrap_or(name.len());
    output.text(&name[..end]);
}

/// The label of the address that a record has in its first field, before the record is applied.
pub(crate) fn label_before(entry: &RecordLine, labels: &Labels) -> Option<[u8; 16]>
    ensures { option_map name_in result ≡ label_at labels.now (slice_index entry.now.fields 0) }
{
    labels.name_at(entry.fields[0])
}

/// The name of an event.
fn name_of_event(event: Event) -> &'static [u8]
    ensures { result.now ≡ name_of_event event }
{
    match event {
        Event::ArenaCreate => b"ArenaCreate",
        Event::LimitSet => b"LimitSet",
        Event::PoolCreate => b"PoolCreate",
        Event::Flip => b"Flip",
        Event::End => b"End",
        Event::SegAlloc => b"SegAlloc",
        Event::SegFree => b"SegFree",
        Event::Splat => b"Splat",
        Event::Commit => b"Commit",
        Event::Alloc => b"Alloc",
        Event::Move => b"Move",
        Event::Stay => b"Stay",
        Event::Post => b"Post",
        Event::Free => b"Free",
        Event::Intern => b"Intern",
        Event::Label => b"Label",
    }
}

/// The fields of `ArenaCreate`.
fn put_arena(fields: &[u64; 4], output: &mut Output)
    requires { length output.old + 128 ≤ 65536 }
    ensures text { (before after : Naming)
        → output.new ≡ output.old ++ columns_text before after fields.now 0 (columns_of Event.ArenaCreate) }
    ensures at_most { length output.new ≤ length output.old + 128 }
{
    put_decimal(b" grains=", fields[0], output);
    put_decimal(b" limit=", fields[1], output);
}

/// The fields of `PoolCreate`.
fn put_pool(fields: &[u64; 4], output: &mut Output)
    requires { length output.old + 128 ≤ 65536 }
    ensures text { (before after : Naming)
        → output.new ≡ output.old ++ columns_text before after fields.now 0 (columns_of Event.PoolCreate) }
    ensures at_most { length output.new ≤ length output.old + 128 }
{
    put_decimal(b" pool=", fields[0], output);
    put_decimal(b" kind=", fields[1], output);
    put_decimal(b" param=", fields[2], output);
}

/// The fields of `Flip`.
fn put_flip(fields: &[u64; 4], output: &mut Output)
    requires { length output.old + 128 ≤ 65536 }
    ensures text { (before after : Naming)
        → output.new ≡ output.old ++ columns_text before after fields.now 0 (columns_of Event.Flip) }
    ensures at_most { length output.new ≤ length output.old + 128 }
{
    put_hexadecimal(b" zones=", fields[0], output);
    put_decimal(b" chain=", fields[1], output);
    put_decimal(b" generation=", fields[2], output);
}

/// The fields of `SegAlloc`.
fn put_segment(fields: &[u64; 4], output: &mut Output)
    requires { length output.old + 128 ≤ 65536 }
    ensures text { (before after : Naming)
        → output.new ≡ output.old ++ columns_text before after fields.now 0 (columns_of Event.SegAlloc) }
    ensures at_most { length output.new ≤ length output.old + 128 }
{
    put_hexadecimal(b" base=", fields[0], output);
    put_decimal(b" grains=", fields[1], output);
    put_decimal(b" pool=", fields[2], output);
    put_decimal(b" generation=", fields[3], output);
}

/// The fields of `Splat`.
fn put_splat(fields: &[u64; 4], label: Option<[u8; 16]>, output: &mut Output)
    requires { length output.old + 128 ≤ 65536 }
    ensures text { (before after : Naming) → label_at before (slice_index fields.now 0) ≡ option_map name_in label
        → output.new ≡ output.old ++ columns_text before after fields.now 0 (columns_of Event.Splat) }
    ensures at_most { length output.new ≤ length output.old + 128 }
{
    put_address(b" holder=", fields[0], label, output);
    put_decimal(b" cell=", fields[1], output);
}

/// The fields of `Commit` and `Alloc`.
fn put_extent(fields: &[u64; 4], label: Option<[u8; 16]>, output: &mut Output)
    requires { length output.old + 128 ≤ 65536 }
    ensures text { (before after : Naming) → label_at before (slice_index fields.now 0) ≡ option_map name_in label
        → output.new ≡ output.old ++ columns_text before after fields.now 0 (columns_of Event.Commit) }
    ensures at_most { length output.new ≤ length output.old + 128 }
{
    put_address(b" at=", fields[0], label, output);
    put_decimal(b" words=", fields[1], output);
    put_decimal(b" pool=", fields[2], output);
}

/// The fields of `Move`.
fn put_move(fields: &[u64; 4], label: Option<[u8; 16]>, labels: &Labels, output: &mut Output)
    requires { length output.old + 128 ≤ 65536 }
    ensures text { (before : Naming) → label_at before (slice_index fields.now 0) ≡ option_map name_in label
        → output.new ≡ output.old ++ columns_text before labels.now fields.now 0 (columns_of Event.Move) }
    ensures at_most { length output.new ≤ length output.old + 128 }
{
    put_address(b" from=", fields[0], label, output);
    let new = labels.name_at(fields[1]);
    put_address(b" to=", fields[1], new, output);
}

/// The fields of `Intern`.
fn put_intern(fields: &[u64; 4], output: &mut Output)
    requires { length output.old + 128 ≤ 65536 }
    ensures text { (before after : Naming)
        → output.new ≡ output.old ++ columns_text before after fields.now 0 (columns_of Event.Intern) }
    ensures at_most { length output.new ≤ length output.old + 128 }
{
    put_decimal(b" id=", fields[0], output);
    output.text(b" name=");
    put_name(&name_of(fields[1], fields[2]), output);
}

/// The fields of `Label`.
fn put_label(fields: &[u64; 4], labels: &Labels, output: &mut Output)
    requires { length output.old + 128 ≤ 65536 }
    ensures text { (before : Naming)
        → output.new ≡ output.old ++ columns_text before labels.now fields.now 0 (columns_of Event.Label) }
    ensures at_most { length output.new ≤ length output.old + 128 }
{
    let new = labels.name_at(fields[0]);
    put_address(b" at=", fields[0], new, output);
    put_decimal(b" id=", fields[1], output);
}

/// The fields of a record. Its first field had this label before the record was applied; `labels` are those after it.
fn put_fields(
    event: Event,
    fields: &[u64; 4],
    label: Option<[u8; 16]>,
    labels: &Labels,
    output: &mut Output,
)
    requires { length output.old + 128 ≤ 65536 }
    ensures text { (before : Naming) → label_at before (slice_index fields.now 0) ≡ option_map name_in label
        → output.new ≡ output.old ++ columns_text before labels.now fields.now 0 (columns_of event) }
    ensures at_most { length output.new ≤ length output.old + 128 }
{
    match event {
        Event::ArenaCreate => put_arena(fields, output),
        Event::LimitSet => put_decimal(b" limit=", fields[0], output),
        Event::PoolCreate => put_pool(fields, output),
        Event::Flip => put_flip(fields, output),
        Event::End => {}
        Event::SegAlloc => put_segment(fields, output),
        Event::SegFree => put_hexadecimal(b" base=", fields[0], output),
        Event::Splat => put_splat(fields, label, output),
        Event::Commit | Event::Alloc => put_extent(fields, label, output),
        Event::Move => put_move(fields, label, labels, output),
        Event::Stay | Event::Post | Event::Free => put_address(b" at=", fields[0], label, output),
        Event::Intern => put_intern(fields, output),
        Event::Label => put_label(fields, labels, output),
    }
}

/// The line of a record. Its first field had this label before the record was applied; `labels` are those after it.
pub(crate) fn put_readable_line(
    entry: &RecordLine,
    label: Option<[u8; 16]>,
    labels: &Labels,
    output: &mut Output,
)
    requires { length output.old + 512 ≤ 65536 }
    ensures { (before : Naming) → label_at before (slice_index entry.now.fields 0) ≡ option_map name_in label
        → output.new ≡ output.old
        ++ (decimal entry.now.line ++ event_text before labels.now entry.now.event entry.now.fields ++ codes "\n") }
{
    output.decimal(u64::from(entry.line));
    output.text(b" ");
    output.text(name_of_event(entry.event));
    put_fields(entry.event, &entry.fields, label, labels, output);
    output.text(b"\n");
}
