// The flips so far, as much of them as dependencies ask for.
#![tactic(auto)]

ghost use Rattle.std.specs.Prelude.{◌≡◌, ◌<◌, ◌^◌, ◌++◌, ◌∷◌, [], List, ℕ};
ghost use Rattle.std.specs.List.{list_any};
ghost use Rattle.mps_base.specs.Staleness.{flips_that_count};
ghost use Rattle.mps_base.specs.Zones.{zones_meet};
ghost use Rattle.mps_ld.specs.State.{EpochsState, epochs_after_flip, no_flips};
ghost use Rattle.mps_ld.specs.Flips.{AreFlips};

use mps_base::ZoneSet;
use std::marker::Model;

/// The flips of an arena since it was made: their number, which is the epoch of now, the zone sets of the last four, and the union of
/// all. It takes no memory, however many flips there are.
#[derive(Drop)]
pub struct Epochs {
    count: u64,
    // The latest last.
    recent: [u64; 4],
    all: u64,
}

impl Model for Epochs {
    ghost use Rattle.std.specs.Prelude.{◌≡◌, length};
    ghost use Rattle.mps_ld.specs.State.{EpochsState};

    ghost Value = { EpochsState };

    ghost view = { λ e. record { count = e.count; recent = e.recent; all = e.all } };
}

impl Epochs {
    /// The epochs of an arena that never flipped.
    pub fn new() -> Epochs
        ensures state { result ≡ no_flips }
        ensures flips { AreFlips result [] }
    {
        Epochs {
            count: 0,
            recent: [0; 4],
            all: 0,
        }
    }

    /// How many flips there were: the epoch of now.
    pub fn count(&self) -> u64
        ensures { result ≡ self.now.count }
    {
        self.count
    }

    /// A flip comes, which may move what lies in these zones.
    pub fn flip(&mut self, zones: ZoneSet)
        requires { self.old.count < 2 ^ 63 }
        ensures state { self.new ≡ epochs_after_flip self.old zones.0 }
        ensures flips { (flips : List ℕ) → AreFlips self.old flips → AreFlips self.new (flips ++ zones.0 ∷ []) }
    {
        let [_, second, third, fourth] = self.recent;
        self.recent = [second, third, fourth, zones.0];
        self.all |= zones.0;
        self.count += 1;
    }

    /// Whether a flip that counts for an epoch may have moved what lies in these zones. Those since the epoch count, if they are four
    /// at most; else all.
    pub(crate) fn meets_since(&self, epoch: u64, zones: u64) -> bool
        ensures { (flips : List ℕ) → AreFlips self.now flips
            → result ≡ list_any (λ epochs_after_flip. zones_meet zones epochs_after_flip) (flips_that_count flips epoch) }
    {
        let since = self.count.saturating_sub(epoch);
        if since > 4 {
            return zones & self.all != 0;
        }
        meets_any(zones, &self.recent[4 - since as usize..])
    }
}

// Whether a set of zones has a zone in common with one of these.
fn meets_any(zones: u64, flips: &[u64]) -> bool
    ensures { result ≡ list_any (λ epochs_after_flip. zones_meet zones epochs_after_flip) flips.now }
{
    flips.iter().any(|flipped| zones & *flipped != 0)
}
