// What an arena does by itself.
ghost use Rattle.std.specs.Prelude.{◌≡◌};
ghost use Rattle.mps_heap_spec.specs.Polling.{is_unclamped};
ghost use Rattle.mps_heap_spec.specs.Transforming.{is_parked};

/// What an arena does by itself: unclamped it polls and steps, clamped and parked it does neither. Parked it has no collection in
/// progress.
#[derive(Clone, Copy, Debug, PartialEq, Eq)]
pub enum ArenaState {
    Unclamped,
    Clamped,
    Parked,
}

impl ArenaState {
    /// Whether it polls and steps.
    pub fn is_unclamped(self) -> bool
        ensures { result ≡ is_unclamped self }
    {
        matches!(self, ArenaState::Unclamped)
    }

    /// Whether it is parked.
    pub fn is_parked(self) -> bool
        ensures { result ≡ is_parked self }
    {
        matches!(self, ArenaState::Parked)
    }
}

/// Whether a collection is still in progress after a `step`.
#[derive(Clone, Copy, Debug, PartialEq, Eq)]
pub enum Progress {
    More,
    Idle,
}
