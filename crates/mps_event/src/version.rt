// The versions of a log.

/// A version of the log. The second has all of the first, and records that intern names and label addresses.
#[derive(Clone, Copy, Debug, PartialEq, Eq)]
pub enum Version {
    One,
    Two,
}
