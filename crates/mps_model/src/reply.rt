// The replies of calls.
use mps_base::{Addr, Refusal};

/// The reply of a call. Numbers are printed in decimal; a word and an address in hexadecimal.
#[derive(Clone, Copy, Debug, PartialEq, Eq)]
pub enum Reply {
    /// `ok`.
    Ok,
    /// `flipped`: a collection flipped since the reservation, which is gone.
    Flipped,
    /// A number, in decimal.
    Number(u64),
    /// A word, in hexadecimal.
    Word(u64),
    /// `yes`.
    Yes,
    /// `no`.
    No,
    /// `block`: the word holds an object.
    Block,
    /// `number`: the word holds a number.
    Plain,
    /// `more`: a collection still runs.
    More,
    /// `idle`: no collection runs.
    Idle,
    /// `none`: no message waits.
    None_,
    /// The text of a head.
    Head(u64),
    /// Two numbers, in decimal.
    Pair(u64, u64),
    /// N words from an address on, in hexadecimal; the runner prints them from the arena.
    Words(Addr, u32),
    /// The number of a label, in decimal.
    Interned(u32),
    /// The address of an object that was labelled, in hexadecimal, and the number of its label.
    Labelled(Addr, u32),
    /// `refused`, its number and its numbers.
    Refused(Refusal),
}
