// Names of things of one kind, in a table with fixed room.
#![tactic(auto)]

ghost use Rattle.std.specs.Prelude.{◌≡◌, ◌+◌, ◌<◌, ◌≤◌, [], None, Some, length, IfOk, IfNone, IsSome};
ghost use Rattle.std.specs.List.{position};
ghost use Rattle.mps_base.specs.Name.{same_name};
ghost use Rattle.mps_names.specs.Inside.{ChangesAt, found_in};

use mps_base::Name;
use mps_keys::are_same;
use std::alloc::{AllocError, Global};
use std::marker::Model;

/// Names of things of one kind, each with the number of its thing. `new` is the only call that allocates.
#[derive(Drop)]
pub(crate) struct Numbers {
    entries: Vec<(Name, u32)>,
}

impl Model for Numbers {
    ghost use Rattle.std.specs.Prelude.{vec_capacity};
    ghost use Rattle.mps_names.specs.Inside.{NumbersState, AreOnce};

    ghost Value = { NumbersState };

    ghost view = { λ n. record { entries = n.entries.items; capacity = vec_capacity n.entries } };

    ghost invariant = { λ n. AreOnce n.entries.items };
}

impl Numbers {
    /// No name, and room for n.
    pub(crate) fn new(alloc: Global, n: usize) -> Result<Numbers, AllocError>
        ensures empty { IfOk result (λ numbers. numbers.entries ≡ []) }
        ensures fits { IfOk result (λ numbers. n ≤ numbers.capacity) }
    {
        Ok(Numbers {
            entries: Vec::with_capacity(alloc, n)?,
        })
    }

    /// How many names there are.
    pub(crate) fn count(&self) -> usize
        ensures { result ≡ length self.now.entries }
    {
        self.entries.len()
    }

    /// The number of the thing that a name represents.
    pub(crate) fn get(&self, name: Name) -> Option<u32>
        ensures { result ≡ found_in self.now.entries name }
    {
        let Some(index) = index_of(&self.entries, name) else {
            return None;
        };
        Some(self.entries[index].1)
    }

    /// A free name represents the thing with a number.
    pub(crate) fn take(&mut self, name: Name, number: u32)
        requires free { found_in self.old.entries name ≡ None }
        requires fits { length self.old.entries < self.old.capacity }
        ensures entries { ChangesAt self.old.entries self.new.entries name (Some number) }
        ensures count { length self.new.entries ≡ length self.old.entries + 1 }
        ensures capacity { self.old.capacity ≤ self.new.capacity }
    {
        let Ok(()) = self.entries.push((name, number)) else {
            unreachable!()
        };
    }

    /// A name is free again; the number of the thing that it represented.
    pub(crate) fn drop_name(&mut self, name: Name) -> Option<u32>
        ensures value { result ≡ found_in self.old.entries name }
        ensures entries { ChangesAt self.old.entries self.new.entries name None }
        ensures count { IsSome result → length self.new.entries + 1 ≡ length self.old.entries }
        ensures unchanged { IfNone result (self.new ≡ self.old) }
        ensures capacity { self.new.capacity ≡ self.old.capacity }
    {
        let Some(index) = index_of(&self.entries, name) else {
            return None;
        };
        Some(self.entries.remove(index).1)
    }
}

// The index of the first entry with a name.
fn index_of(entries: &[(Name, u32)], name: Name) -> Option<usize>
    ensures { result ≡ position (λ e. same_name name e.0) entries.now }
{
    entries
        .iter()
        .position(|entry| are_same(&name.bytes, &entry.0.bytes))
}
