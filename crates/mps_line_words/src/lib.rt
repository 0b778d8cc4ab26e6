//! The words of a line of a script, and what they write: names, slots, numbers and heads.
#![tactic(auto)]

mod arguments;
mod head;
mod names;
mod number;
mod slots;
mod words;

pub use arguments::{
    decimal, decimal_slot, decimal_value, hexadecimal, name, name_decimal, name_decimal_slot,
    name_head, name_name, name_slot, name_slot_slot, slot, slot_decimal, slot_decimal_slot,
    slot_decimal_value, slot_name, slot_slot, slot_slot_decimal, slot_value, value,
};
pub use names::{WrittenName, name_of, names_are_unique, next_name};
pub use number::{next_decimal, next_value, number_of, number_within, prefixed_hexadecimal};
pub use slots::{WrittenSlot, next_slot};
pub use words::{
    MAX_LINE_BYTES, after_spaces, is_blank, is_word, next_word, only_word, strip_word,
};
