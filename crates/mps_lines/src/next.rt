// What comes next of the input.

/// What comes next.
#[derive(Clone, Copy, Debug, PartialEq, Eq)]
pub enum Next {
    /// A line.
    Line,
    /// A line of more than 4096 bytes.
    TooLong,
    /// The end of the input.
    End,
}
