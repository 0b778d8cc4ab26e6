// How far a running collection is.
use mps_base::Addr;

/// What a collection works at. Each unit enters the band that it works in.
#[derive(Clone, Copy, Debug, PartialEq, Eq)]
pub enum Band {
    /// Blocks are scanned, but for weak ones.
    Exact,
    /// Nothing but weak blocks is grey; registrations are examined, and what these keep is scanned.
    Final,
    /// Every registration was examined; weak blocks are scanned.
    Weak,
    /// Nothing is grey; condemned segments are reclaimed.
    Reclaim,
}

/// A collection that runs: its band, the address below which its condemned segments were reclaimed, the position of the registration
/// that is examined next, and how many registrations are left of those that were made before the flip. These come first.
#[derive(Clone, Copy, Debug, PartialEq, Eq)]
pub struct Running {
    pub band: Band,
    pub cursor: Addr,
    pub next: usize,
    pub registered_before: usize,
}
