// Which calls of one kind are to fail.
ghost use Rattle.std.specs.Prelude.{◌≡◌, ◌↔◌, [], IsTrue, OnOk, OnErr};
ghost use Rattle.mps_desk.specs.MemDesk.{one_more_call, one_more_failing, IsNextListed};

use std::alloc::{AllocError, Global};
use std::marker::Model;

/// The calls of one kind: how many were made, and the numbers of those that are to fail.
#[derive(Drop)]
pub struct CallList {
    made: u64,
    failing: Vec<u64>,
}

impl Model for CallList {
    ghost use Rattle.mps_desk.specs.MemDesk.{Calls};

    ghost Value = { Calls };

    ghost view = { λ c. record { made = c.made; failing = c.failing.items } };
}

impl CallList {
    pub fn new(alloc: Global) -> CallList
        ensures { result ≡ record { made = 0; failing = [] } }
    {
        CallList {
            made: 0,
            failing: Vec::new(alloc),
        }
    }

    /// Lists a call that is to fail.
    pub fn list(&mut self, number: u64) -> Result<(), AllocError>
        ensures ok { OnOk result (self.new ≡ one_more_failing self.old number) }
        ensures unchanged { OnErr result (self.new ≡ self.old) }
    {
        self.failing.push(number)?;
        Ok(())
    }

    /// Counts one more call, and answers whether it is to fail.
    pub fn next_fails(&mut self) -> bool
        ensures counted { self.new ≡ one_more_call self.old }
        ensures listed { IsTrue result ↔ IsNextListed self.old }
    {
        self.made = self.made.saturating_add(1);
        self.failing.contains(&self.made)
    }
}
