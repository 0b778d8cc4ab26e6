// Slots at the beginning of a line. Each of their bytes is looked at once: a name ends at the first byte that no name has.
ghost use Rattle.std.specs.Prelude.{◌≡◌, ◌≤◌, None, Some, length, IfSome, MatchOption};
ghost use Rattle.mps_line_words.specs.Name.{slot_from, slot_of};
ghost use Rattle.mps_line_words.specs.Reading.{headed};
ghost use Rattle.mps_line_words.specs.Word.{words, word_at, after_word};

use crate::names::{WrittenName, after_name};
use crate::number::decimal_at;
use crate::words::after_spaces;
use mps_base::{MAX_NAME_BYTES, Slot};
use std::marker::Model;

/// The word at the beginning as a slot: the bytes of its name, its index, and what stands after it.
#[inline(always)]
fn slot_at(line: &[u8]) -> Option<(&[u8], u64, &[u8])>
    ensures { MatchOption result (slot_of (word_at line.now) ≡ None)
        (λ p. (slot_of (word_at line.now) ≡ Some (slot_from p.0.now p.1)) × (p.2.now ≡ after_word line.now)
        × (length p.0.now ≤ 16)) }
{
    let [b'a'..=b'z', later @ ..] = line else {
        return None;
    };
    let after = after_name(later);
    let [b'.', digits @ ..] = after else {
        return None;
    };
    let name = &line[..line.len() - after.len()];
    if name.len() > MAX_NAME_BYTES {
        return None;
    }
    let (index, rest) = decimal_at(digits)?;
    Some((name, index, rest))
}

/// The first word as a slot: the bytes of its name, its index, and what stands after it. The slot is made of them if it is to
/// stand, once the words after it are in their forms (`WrittenSlot`).
#[inline(always)]
pub fn next_slot(bytes: &[u8]) -> Option<(&[u8], u64, &[u8])>
    ensures found { MatchOption result (headed slot_of (words bytes.now) ≡ None)
        (λ p. headed slot_of (words bytes.now) ≡ Some (slot_from p.0.now p.1, words p.2.now)) }
    ensures at_most { IfSome result (λ p. length p.0.now ≤ 16) }
{
    slot_at(after_spaces(bytes))
}

/// A slot as it stands in a line: the bytes of its name, and its index. It is made if it is to stand, so that it isn't copied on the
/// way. Contracts see the slot.
#[derive(Debug, Drop)]
pub struct WrittenSlot<'a> {
    name: WrittenName<'a>,
    index: u64,
}

impl<'a> Model for WrittenSlot<'a> {
    ghost use Rattle.mps_base.specs.declared.names.Slot.{Slot};

    ghost Value = { Slot };

    ghost view = { λ s. record { name = s.name; index = s.index } };
}

impl<'a> WrittenSlot<'a> {
    /// The slot of the bytes of a name and an index.
    #[inline(always)]
    pub fn new(name: &'a [u8], index: u64) -> WrittenSlot<'a>
        requires { length name.now ≤ 16 }
        ensures { result ≡ slot_from name.now index }
    {
        WrittenSlot {
            name: WrittenName::new(name),
            index,
        }
    }

    /// Makes the slot.
    #[inline(always)]
    pub fn slot(&self) -> Slot
        ensures { result ≡ self.now }
    {
        Slot {
            name: self.name.name(),
            index: self.index,
        }
    }
}
