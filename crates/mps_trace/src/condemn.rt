// What a flip condemns.

/// What a flip condemns.
#[derive(Clone, Copy, Debug, PartialEq, Eq)]
pub enum Condemn {
    /// Every segment of an automatic pool.
    Everything,
    /// The segments of the pools on a chain whose generation is at most `oldest`.
    Generations { chain: u32, oldest: u32 },
}
