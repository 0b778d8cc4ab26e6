// The registrations, in order.
#![tactic(auto)]

ghost use Rattle.std.specs.Prelude.{◌≡◌, ◌<◌, ◌++◌, ◌∷◌, [], length, slice_index_or, slice_set, IfOk};
ghost use Rattle.std.specs.List.{remove};
ghost use Rattle.mps_final.specs.State.{max_finals, position_of};

use crate::entries::{Cursor, MAX_ENTRIES, make_room, position_in, seek};
use std::alloc::{AllocError, Global};
use std::marker::Model;

/// Addresses in order, from which one is removed without a shift of the rest: its entry becomes 0. A search for a position begins at
/// the position that was sought last, so that going over all of them in order is linear.
#[derive(Drop)]
pub(crate) struct Row {
    entries: Vec<u64>,
    count: usize,
    cursor: Cursor,
}

impl Model for Row {
    ghost use Rattle.std.specs.Prelude.{ℕ, List, ◌≤◌, vec_capacity};
    ghost use Rattle.mps_final.specs.Inside.{live, IsSoundRow, max_entries};

    ghost Value = { List ℕ };

    ghost view = { λ r. live r.entries.items };

    ghost invariant = { λ r. IsSoundRow r.entries.items r.count r.cursor.position r.cursor.index × (max_entries ≤ vec_capacity r.entries) };
}

impl Row {
    /// No address, with room for all that there may be.
    pub(crate) fn new(alloc: Global) -> Result<Row, AllocError>
        ensures { IfOk result (λ row. row ≡ []) }
    {
        Ok(Row {
            entries: Vec::with_capacity(alloc, MAX_ENTRIES)?,
            count: 0,
            cursor: Cursor::START,
        })
    }

    pub(crate) fn len(&self) -> usize
        ensures { result ≡ length self.now }
    {
        self.count
    }

    /// One more address, which isn't null, after all others.
    pub(crate) fn push(&mut self, at: u64)
        requires nonzero { 0 < at }
        requires fits { length self.old < max_finals }
        ensures { self.new ≡ self.old ++ at ∷ [] }
    {
        make_room(&mut self.entries, self.count, &mut self.cursor);
        let Ok(()) = self.entries.push(at) else {
            unreachable!()
        };
        self.count += 1;
    }

    /// The address at a position.
    pub(crate) fn get(&mut self, position: usize) -> u64
        requires { position < length self.old }
        ensures unchanged { self.new ≡ self.old }
        ensures value { result ≡ slice_index_or self.old position 0 }
    {
        seek(&self.entries, &mut self.cursor, position).address
    }

    /// Writes the address at a position.
    pub(crate) fn set(&mut self, position: usize, at: u64)
        requires within { position < length self.old }
        requires nonzero { 0 < at }
        ensures { self.new ≡ slice_set self.old position at }
    {
        let found = seek(&self.entries, &mut self.cursor, position);
        self.entries[found.index] = at;
    }

    /// Removes the address at a position, and returns it.
    pub(crate) fn remove(&mut self, position: usize) -> u64
        requires { position < length self.old }
        ensures state { self.new ≡ remove self.old position }
        ensures value { result ≡ slice_index_or self.old position 0 }
    {
        let found = seek(&self.entries, &mut self.cursor, position);
        self.entries[found.index] = 0;
        self.count -= 1;
        found.address
    }

    /// The first position of an address.
    pub(crate) fn position_of(&self, at: u64) -> Option<usize>
        requires { 0 < at }
        ensures { result ≡ position_of self.now at }
    {
        position_in(&self.entries, at)
    }
}
