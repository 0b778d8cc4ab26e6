// A line of a portable text: the line number and the code in decimal, then the fields in hexadecimal, with one space
// between each two.

ghost use Rattle.std.specs.Prelude.{◌≡◌, ◌≢◌, ◌≤◌, ◌<◌, ◌^◌, ◌++◌, ◌∷◌, ℕ, List, Option, length, take, decimal, option_copied, All, IfSome, IfNone};
ghost use Rattle.std.specs.List.{flat_map};
ghost use Rattle.mps_base.specs.Record.{Record};
ghost use Rattle.mps_event.specs.Event.{code_of, event_of, field_count_of};
ghost use Rattle.mps_event.specs.Grammar.{interns_a_name};
ghost use Rattle.mps_numerals.specs.Hexadecimal.{hexadecimal};
ghost use Rattle.mps_log_reader.specs.RecordLine.{field_text};
ghost use Rattle.mps_txt.specs.Separators.{separated};
ghost use Rattle.mps_txt.specs.Line.{Spells, record_of};

use crate::labels::name_of;
use crate::words::split_word;
use mps_event::{Event, Version, is_padded_name};
use mps_numerals::{decimal_number, hexadecimal_number};

/// A record that a line of a text spells. The fields after those of the event are 0.
#[derive(Clone, Copy, Debug, PartialEq, Eq)]
pub(crate) struct RecordLine {
    pub(crate) line: u32,
    pub(crate) event: Event,
    pub(crate) fields: [u64; 4],
}

/// The decimal number that a text begins with, and what stands after the space that follows it.
fn leading_number(text: &[u8]) -> Option<(u64, Option<&[u8]>)>
    ensures sound { IfSome result (λ leading. text.now ≡ decimal leading.0 ++ separated 32 (option_copied leading.1)) }
    ensures at_most { IfSome result (λ leading. leading.0 < 2 ^ 64) }
    ensures complete { IfNone result ((number : ℕ) (rest : Option (List ℕ)) → number < 2 ^ 64
        → text.now ≢ decimal number ++ separated 32 rest) }
{
    let (word, rest) = split_word(text);
    let number = decimal_number(word)?;
    Some((number, rest))
}

/// The hexadecimal number that a text begins with, and what stands after the space that follows it.
fn leading_field(text: &[u8]) -> Option<(u64, Option<&[u8]>)>
    ensures sound { IfSome result (λ leading. text.now ≡ hexadecimal leading.0 ++ separated 32 (option_copied leading.1)) }
    ensures at_most { IfSome result (λ leading. leading.0 < 2 ^ 64) }
    ensures complete { IfNone result ((number : ℕ) (rest : Option (List ℕ)) → number < 2 ^ 64
        → text.now ≢ hexadecimal number ++ separated 32 rest) }
{
    let (word, rest) = split_word(text);
    let number = hexadecimal_number(word)?;
    Some((number, rest))
}

/// `count` fields, each after a space, with nothing after them. The other fields are 0.
fn fields_of(text: Option<&[u8]>, count: u16) -> Option<[u64; 4]>
    requires { count ≤ 4 }
    ensures sound { IfSome result (λ fields. separated 32 (option_copied text.entry) ≡ flat_map field_text (take count fields)) }
    ensures size { IfSome result (λ fields. length fields ≡ 4) }
    ensures at_most { IfSome result (λ fields. All (λ field. field < 2 ^ 64) fields) }
    ensures complete { IfNone result ((fields : List ℕ) → length fields ≡ count → All (λ field. field < 2 ^ 64) fields
        → separated 32 (option_copied text.entry) ≢ flat_map field_text fields) }
{
    let mut fields = [0u64; 4];
    let mut rest = text;
    for i in 0..count {
        let (field, others) = leading_field(rest?)?;
        fields[i as usize] = field;
        rest = others;
    }
    match rest {
        None => Some(fields),
        Some(_) => None,
    }
}

/// The line number and the code that a line begins with, and what stands after the space that follows them.
fn heading(text: &[u8]) -> Option<(u32, u16, Option<&[u8]>)>
    ensures sound { IfSome result (λ head. text.now
        ≡ decimal head.0 ++ separated 32 (Some (decimal head.1 ++ separated 32 (option_copied head.2)))) }
    ensures line_at_most { IfSome result (λ head. head.0 < 2 ^ 32) }
    ensures code_at_most { IfSome result (λ head. head.1 < 2 ^ 16) }
    ensures complete { IfNone result ((line code : ℕ) (rest : Option (List ℕ)) → line < 2 ^ 32 → code < 2 ^ 16
        → text.now ≢ decimal line ++ separated 32 (Some (decimal code ++ separated 32 rest))) }
{
    let (line, rest) = leading_number(text)?;
    let line = u32::try_from(line).ok()?;
    let (code, rest) = leading_number(rest?)?;
    let code = u16::try_from(code).ok()?;
    Some((line, code, rest))
}

/// Whether what a record interns, if anything, is a name.
fn interns_a_name(event: Event, fields: &[u64; 4]) -> bool
    ensures { result ≡ interns_a_name event (take (field_count_of event) fields.now) }
{
    match event {
        Event::Intern => is_padded_name(&name_of(fields[1], fields[2])),
        _ => true,
    }
}

/// The record that a line of a text of this version spells, without its line feed; None where it spells none.
pub(crate) fn record_of_line(text: &[u8], version: Version) -> Option<RecordLine>
    ensures sound { IfSome result (λ entry. Spells version text.now (record_of entry)) }
    ensures event { IfSome result (λ entry. event_of version (code_of entry.event) ≡ Some entry.event) }
    ensures size { IfSome result (λ entry. length entry.fields ≡ 4) }
    ensures complete { IfNone result ((r : Record) → Spells version text.now r → ⊥) }
{
    let (line, code, rest) = heading(text)?;
    let event = Event::of_code(code, version)?;
    let fields = fields_of(rest, event.field_count())?;
    if interns_a_name(event, &fields) {
        Some(RecordLine {
            line,
            event,
            fields,
        })
    } else {
        None
    }
}
