// Words that follow one another, each in its form. All is inlined, and names and slots stay where they are written, so that what is read
// isn't copied before it stands in its call.
ghost use Rattle.std.specs.Prelude.{◌≡◌};
ghost use Rattle.mps_numerals.specs.Decimal.{decimal_number as decimal_of};
ghost use Rattle.mps_line_words.specs.Word.{words};
ghost use Rattle.mps_line_words.specs.Reading.{single, pair, onto};
ghost use Rattle.mps_line_words.specs.Number.{number_of, prefixed_hexadecimal as hexadecimal_of};
ghost use Rattle.mps_line_words.specs.Name.{name_of, slot_of};
ghost use Rattle.mps_line_words.specs.Head.{head_of};

use crate::head::only_head;
use crate::names::{WrittenName, next_name};
use crate::number::{next_decimal, next_value, prefixed_hexadecimal};
use crate::slots::{WrittenSlot, next_slot};
use crate::words::{is_blank, only_word};

/// A name.
#[inline(always)]
pub fn name(arguments: &[u8]) -> Option<WrittenName<'_>>
    ensures { result ≡ single name_of (words arguments.now) }
{
    let (word, rest) = next_name(arguments)?;
    if is_blank(rest) {
        Some(WrittenName::new(word))
    } else {
        None
    }
}

/// A slot.
#[inline(always)]
pub fn slot(arguments: &[u8]) -> Option<WrittenSlot<'_>>
    ensures { result ≡ single slot_of (words arguments.now) }
{
    let (name, index, rest) = next_slot(arguments)?;
    if is_blank(rest) {
        Some(WrittenSlot::new(name, index))
    } else {
        None
    }
}

/// A decimal number.
#[inline(always)]
pub fn decimal(arguments: &[u8]) -> Option<u64>
    ensures { result ≡ single decimal_of (words arguments.now) }
{
    let (number, rest) = next_decimal(arguments)?;
    if is_blank(rest) { Some(number) } else { None }
}

/// A number in either form.
#[inline(always)]
pub fn value(arguments: &[u8]) -> Option<u64>
    ensures { result ≡ single number_of (words arguments.now) }
{
    let (number, rest) = next_value(arguments)?;
    if is_blank(rest) { Some(number) } else { None }
}

/// A number in hexadecimal.
pub fn hexadecimal(arguments: &[u8]) -> Option<u64>
    ensures { result ≡ single hexadecimal_of (words arguments.now) }
{
    prefixed_hexadecimal(only_word(arguments)?)
}

/// Two names.
#[inline(always)]
pub fn name_name(arguments: &[u8]) -> Option<(WrittenName<'_>, WrittenName<'_>)>
    ensures { result ≡ pair name_of name_of (words arguments.now) }
{
    let (word, rest) = next_name(arguments)?;
    let others = name(rest)?;
    Some((WrittenName::new(word), others))
}

/// A name and a slot.
#[inline(always)]
pub fn name_slot(arguments: &[u8]) -> Option<(WrittenName<'_>, WrittenSlot<'_>)>
    ensures { result ≡ pair name_of slot_of (words arguments.now) }
{
    let (word, rest) = next_name(arguments)?;
    let others = slot(rest)?;
    Some((WrittenName::new(word), others))
}

/// A name and a decimal number.
#[inline(always)]
pub fn name_decimal(arguments: &[u8]) -> Option<(WrittenName<'_>, u64)>
    ensures { result ≡ pair name_of decimal_of (words arguments.now) }
{
    let (word, rest) = next_name(arguments)?;
    let others = decimal(rest)?;
    Some((WrittenName::new(word), others))
}

/// A name and a head.
#[inline(always)]
pub fn name_head(arguments: &[u8]) -> Option<(WrittenName<'_>, u64)>
    ensures { result ≡ pair name_of head_of (words arguments.now) }
{
    let (word, rest) = next_name(arguments)?;
    Some((WrittenName::new(word), only_head(rest)?))
}

/// A slot and a name.
#[inline(always)]
pub fn slot_name(arguments: &[u8]) -> Option<(WrittenSlot<'_>, WrittenName<'_>)>
    ensures { result ≡ pair slot_of name_of (words arguments.now) }
{
    let (table, index, rest) = next_slot(arguments)?;
    let others = name(rest)?;
    Some((WrittenSlot::new(table, index), others))
}

/// Two slots.
#[inline(always)]
pub fn slot_slot(arguments: &[u8]) -> Option<(WrittenSlot<'_>, WrittenSlot<'_>)>
    ensures { result ≡ pair slot_of slot_of (words arguments.now) }
{
    let (name, index, rest) = next_slot(arguments)?;
    let others = slot(rest)?;
    Some((WrittenSlot::new(name, index), others))
}

/// A slot and a decimal number.
#[inline(always)]
pub fn slot_decimal(arguments: &[u8]) -> Option<(WrittenSlot<'_>, u64)>
    ensures { result ≡ pair slot_of decimal_of (words arguments.now) }
{
    let (name, index, rest) = next_slot(arguments)?;
    let others = decimal(rest)?;
    Some((WrittenSlot::new(name, index), others))
}

/// A slot and a number in either form.
#[inline(always)]
pub fn slot_value(arguments: &[u8]) -> Option<(WrittenSlot<'_>, u64)>
    ensures { result ≡ pair slot_of number_of (words arguments.now) }
{
    let (name, index, rest) = next_slot(arguments)?;
    let others = value(rest)?;
    Some((WrittenSlot::new(name, index), others))
}

/// A decimal number and a slot.
#[inline(always)]
pub fn decimal_slot(arguments: &[u8]) -> Option<(u64, WrittenSlot<'_>)>
    ensures { result ≡ pair decimal_of slot_of (words arguments.now) }
{
    let (number, rest) = next_decimal(arguments)?;
    let others = slot(rest)?;
    Some((number, others))
}

/// A decimal number, and a number in either form.
#[inline(always)]
pub fn decimal_value(arguments: &[u8]) -> Option<(u64, u64)>
    ensures { result ≡ pair decimal_of number_of (words arguments.now) }
{
    let (number, rest) = next_decimal(arguments)?;
    let others = value(rest)?;
    Some((number, others))
}

/// A name, a decimal number and a slot.
#[inline(always)]
pub fn name_decimal_slot(arguments: &[u8]) -> Option<(WrittenName<'_>, (u64, WrittenSlot<'_>))>
    ensures { result ≡ onto name_of (pair decimal_of slot_of) (words arguments.now) }
{
    let (word, rest) = next_name(arguments)?;
    let others = decimal_slot(rest)?;
    Some((WrittenName::new(word), others))
}

/// A name and two slots.
#[inline(always)]
pub fn name_slot_slot(
    arguments: &[u8],
) -> Option<(WrittenName<'_>, (WrittenSlot<'_>, WrittenSlot<'_>))>
    ensures { result ≡ onto name_of (pair slot_of slot_of) (words arguments.now) }
{
    let (word, rest) = next_name(arguments)?;
    let others = slot_slot(rest)?;
    Some((WrittenName::new(word), others))
}

/// A slot, a decimal number, and a number in either form.
#[inline(always)]
pub fn slot_decimal_value(arguments: &[u8]) -> Option<(WrittenSlot<'_>, (u64, u64))>
    ensures { result ≡ onto slot_of (pair decimal_of number_of) (words arguments.now) }
{
    let (name, index, rest) = next_slot(arguments)?;
    let others = decimal_value(rest)?;
    Some((WrittenSlot::new(name, index), others))
}

/// A slot, a decimal number and a slot.
#[inline(always)]
pub fn slot_decimal_slot(arguments: &[u8]) -> Option<(WrittenSlot<'_>, (u64, WrittenSlot<'_>))>
    ensures { result ≡ onto slot_of (pair decimal_of slot_of) (words arguments.now) }
{
    let (name, index, rest) = next_slot(arguments)?;
    let others = decimal_slot(rest)?;
    Some((WrittenSlot::new(name, index), others))
}

/// Two slots and a decimal number.
#[inline(always)]
pub fn slot_slot_decimal(arguments: &[u8]) -> Option<(WrittenSlot<'_>, (WrittenSlot<'_>, u64))>
    ensures { result ≡ onto slot_of (pair slot_of decimal_of) (words arguments.now) }
{
    let (name, index, rest) = next_slot(arguments)?;
    let others = slot_decimal(rest)?;
    Some((WrittenSlot::new(name, index), others))
}
