// Dependencies.
#![tactic(auto)]

ghost use Rattle.std.specs.Prelude.{◌≡◌, List, ℕ};
ghost use Rattle.mps_base.specs.Staleness.{is_stale};
ghost use Rattle.mps_ld.specs.State.{LdState, reset_at, with_address, after_merge};
ghost use Rattle.mps_ld.specs.Flips.{AreFlips};

use crate::epochs::Epochs;
use mps_base::Addr;
use std::marker::Model;

/// What a client depends on: an epoch, and the zones of the addresses that it added since.
#[derive(Clone, Copy)]
pub struct Ld {
    epoch: u64,
    zones: u64,
}

impl Model for Ld {
    ghost use Rattle.mps_ld.specs.State.{LdState};

    ghost Value = { LdState };

    ghost view = { λ d. record { epoch = d.epoch; zones = d.zones } };

    ghost inverse = { λ d. record { epoch = d.epoch; zones = d.zones } };
}

impl Ld {
    /// A dependency on nothing, as of now.
    pub fn new(epochs: &Epochs) -> Ld
        ensures { result ≡ reset_at epochs.now }
    {
        Ld {
            epoch: epochs.count(),
            zones: 0,
        }
    }

    /// It depends on nothing any more, as of now.
    pub fn reset(&mut self, epochs: &Epochs)
        ensures { self.new ≡ reset_at epochs.now }
    {
        self.epoch = epochs.count();
        self.zones = 0;
    }

    /// It depends on what lies at an address, too.
    pub fn add(&mut self, at: Addr)
        ensures { self.new ≡ with_address self.old at.0 }
    {
        let zone = at.grain() % 64;
        self.zones |= 1 << zone;
    }

    /// It depends on what another depends on, too.
    pub fn merge(&mut self, from: &Ld)
        ensures { self.new ≡ after_merge self.old from.now }
    {
        self.epoch = self.epoch.min(from.epoch);
        self.zones |= from.zones;
    }

    /// Whether what it depends on may have moved since it was added. A dependency older than four flips may be stale without need; one
    /// that is not stale has nothing that moved.
    pub fn is_stale(&self, epochs: &Epochs) -> bool
        ensures { (flips : List ℕ) → AreFlips epochs.now flips → result ≡ is_stale flips self.now.epoch self.now.zones }
    {
        epochs.meets_since(self.epoch, self.zones)
    }
}
