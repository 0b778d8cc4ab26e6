// What can be wrong with the bytes of a log.
use thiserror::Error;

/// The bytes do not begin with a header of a log, or are fewer than 8.
#[derive(Clone, Copy, Debug, PartialEq, Eq, Error)]
#[error("bad header")]
pub struct BadMagic;

/// What is wrong with the record with which some bytes begin: the first of these that holds, but that `Cut` also comes
/// first of all if there are fewer than 8 bytes.
#[derive(Clone, Copy, Debug, PartialEq, Eq, Error)]
pub enum LogFault {
    /// The version has no record of this code.
    #[error("unknown code")]
    UnknownCode,
    /// The number of fields is not that of the code.
    #[error("bad count")]
    BadCount,
    /// The bytes end within the record.
    #[error("cut record")]
    Cut,
    /// An interned string is not a name followed by zeros.
    #[error("bad string")]
    BadString,
}
