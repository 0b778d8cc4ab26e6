// Why a call is refused.
use thiserror::Error;

/// Why a call was refused. A refused call changes nothing.
#[derive(Clone, Copy, Debug, PartialEq, Eq, Error)]
pub enum Refusal {
    /// No live thing of the wanted kind has this name.
    #[error("BadName")]
    BadName,
    /// A live thing has this name, or the place already holds a block.
    #[error("NameTaken")]
    NameTaken,
    /// An index is not below its length.
    #[error("BadIndex")]
    BadIndex,
    /// The slot is null.
    #[error("NullRef")]
    NullRef,
    /// The cell is no reference cell, or the word holds no object.
    #[error("NotARef")]
    NotARef,
    /// The cell is a reference cell or the head.
    #[error("NotANumber")]
    NotANumber,
    /// The head is not valid for the pool's format, or has references if the pool allows none.
    #[error("BadHead")]
    BadHead,
    /// The point has an open reservation.
    #[error("Open")]
    Open,
    /// The point has no open reservation.
    #[error("NotOpen")]
    NotOpen,
    /// No room in what the pool holds, and `need` more grains would pass the commit limit. All in grains.
    #[error("CommitLimit")]
    CommitLimit {
        committed: u32,
        need: u32,
        limit: u32,
    },
    /// No room in what the pool holds, the limit allows more, and no run of `need` free grains exists; `longest` is the longest free run.
    #[error("NoRun")]
    NoRun {
        need: u32,
        longest: u32,
    },
    /// The place is empty, or no live block begins at the address.
    #[error("NotABlock")]
    NotABlock,
    /// The pool's kind does not allow the call.
    #[error("WrongPool")]
    WrongPool,
    /// The object has no finalization registration.
    #[error("NotRegistered")]
    NotRegistered,
    /// The size is not 1 to 65,536 words, or not the pool's size.
    #[error("BadSize")]
    BadSize,
    /// One more would pass this limit.
    #[error("TooMany")]
    TooMany {
        limit: u32,
    },
    /// A collection runs.
    #[error("Running")]
    Running,
    /// The new commit limit is below the grains held.
    #[error("BelowCommitted")]
    BelowCommitted,
    /// There is no memory for what the call makes.
    #[error("OutOfMemory")]
    OutOfMemory,
    /// The object has no dependent.
    #[error("NotLinked")]
    NotLinked,
    /// The transform has a pair with this old object.
    #[error("OldTwice")]
    OldTwice,
    /// The arena is not parked.
    #[error("NotParked")]
    NotParked,
}

/// A flip came since the reservation: the client reserves again.
#[derive(Clone, Copy, Debug, PartialEq, Eq, Error)]
#[error("Flipped")]
pub struct Flipped;
