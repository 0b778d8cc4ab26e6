// What follows the command word that sets a tag.
ghost use Rattle.std.specs.Prelude.{◌≡◌};
ghost use Rattle.mps_numerals.specs.Decimal.{decimal_number as decimal_of};
ghost use Rattle.mps_line_words.specs.Word.{words};
ghost use Rattle.mps_line_words.specs.Name.{slot_of};
ghost use Rattle.mps_line_words.specs.Reading.{single, pair, onto};
ghost use Rattle.mps_grammar.specs.Form.{tag_number};

use mps_line_words::{WrittenSlot, decimal, next_decimal, next_slot};

/// The greatest tag of a reference.
const MAX_TAG: u64 = 7;

/// A tag.
#[inline(always)]
fn tag(arguments: &[u8]) -> Option<u64>
    ensures { result ≡ single tag_number (words arguments.now) }
{
    let tag = decimal(arguments)?;
    if tag <= MAX_TAG { Some(tag) } else { None }
}

/// A decimal number and a tag.
#[inline(always)]
fn decimal_tag(arguments: &[u8]) -> Option<(u64, u64)>
    ensures { result ≡ pair decimal_of tag_number (words arguments.now) }
{
    let (number, rest) = next_decimal(arguments)?;
    let others = tag(rest)?;
    Some((number, others))
}

/// A slot, a decimal number and a tag.
#[inline(always)]
pub fn slot_decimal_tag(arguments: &[u8]) -> Option<(WrittenSlot<'_>, (u64, u64))>
    ensures { result ≡ onto slot_of (pair decimal_of tag_number) (words arguments.now) }
{
    let (name, index, rest) = next_slot(arguments)?;
    let others = decimal_tag(rest)?;
    Some((WrittenSlot::new(name, index), others))
}
