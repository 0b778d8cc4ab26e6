// Registrations and messages.
#![tactic(auto)]

ghost use Rattle.std.specs.Prelude.{◌≡◌, ◌<◌, ◌≤◌, [], length, slice_get, slice_index_or, slice_set, drop, IfOk, IfErr, OnOk, IsOk, MatchResult};
ghost use Rattle.std.specs.Option.{option_map, MatchOption};
ghost use Rattle.mps_final.specs.State.{FinalsState, no_finals, max_finals, finals_count, with_registration, with_registered_at, without_registration, finals_after_post, position_of};

use crate::row::Row;
use mps_base::{Addr, Refusal};
use std::alloc::{AllocError, Global};
use std::collections::VecDeque;
use std::marker::Model;

/// The most registrations and waiting messages together.
pub const MAX_FINALS: usize = 65_536;

/// The registrations for finalization and the messages that wait, each in order and by the address of its block. `new` is the only call
/// that allocates.
#[derive(Drop)]
pub struct Finals {
    registered: Row,
    messages: VecDeque<u64>,
}

impl Model for Finals {
    ghost use Rattle.std.specs.Prelude.{◌≡◌, ◌≤◌, ◌+◌, length};
    ghost use Rattle.std.specs.VecDeque.{deque_capacity};
    ghost use Rattle.mps_final.specs.State.{FinalsState, max_finals};

    ghost Value = { FinalsState };

    ghost view = { λ f. record { registered = f.registered; messages = f.messages.items } };

    ghost invariant = { λ f. (length f.registered + length f.messages.items ≤ max_finals) × (max_finals ≤ deque_capacity f.messages) };
}

impl Finals {
    /// Nothing is registered, and no message waits. All memory that there will be is taken here.
    pub fn new(alloc: Global) -> Result<Finals, AllocError>
        ensures { IfOk result (λ finals. finals ≡ no_finals) }
    {
        Ok(Finals {
            registered: Row::new(alloc)?,
            messages: VecDeque::with_capacity(alloc, MAX_FINALS)?,
        })
    }

    /// How many registrations there are.
    pub fn registered(&self) -> usize
        ensures { result ≡ length self.now.registered }
    {
        self.registered.len()
    }

    /// There are at most 65,536 registrations.
    pub fn registrations_are_few(&self)
        ensures { length self.now.registered ≤ max_finals }
    {
        let _ = &self.registered;
    }

    /// How many messages wait.
    pub fn messages(&self) -> usize
        ensures { result ≡ length self.now.messages }
    {
        self.messages.len()
    }

    /// Registers the block at an address once more. Refuses `TooMany` if there are 65,536 registrations and messages.
    pub fn register(&mut self, at: Addr) -> Result<(), Refusal>
        requires { 0 < at.0 }
        ensures state { MatchResult result (λ _. self.new ≡ with_registration self.old at.0) (λ _. self.new ≡ self.old) }
        ensures few { OnOk result (finals_count self.old < max_finals) }
        ensures fits { finals_count self.old < max_finals → IsOk result }
        ensures full { IfErr result (λ why. (why ≡ Refusal.TooMany max_finals) × (finals_count self.old ≡ max_finals)) }
    {
        if self.registered.len() + self.messages.len() == MAX_FINALS {
            return Err(Refusal::TooMany {
                limit: MAX_FINALS as u32,
            });
        }
        self.registered.push(at.0);
        Ok(())
    }

    /// Takes away the first registration of the block at an address. Refuses `NotRegistered` if it has none.
    pub fn unregister(&mut self, at: Addr) -> Result<(), Refusal>
        requires { 0 < at.0 }
        ensures state { MatchOption (position_of self.old.registered at.0) (self.new ≡ self.old)
            (λ position. self.new ≡ without_registration self.old position) }
        ensures value { MatchOption (position_of self.old.registered at.0) (result ≡ Err Refusal.NotRegistered)
            (λ position. result ≡ Ok tt) }
    {
        let Some(position) = self.registered.position_of(at.0) else {
            return Err(Refusal::NotRegistered);
        };
        let _ = self.registered.remove(position);
        Ok(())
    }

    /// The address of the registration at a position.
    pub fn at(&mut self, position: usize) -> Addr
        requires { position < length self.old.registered }
        ensures unchanged { self.new ≡ self.old }
        ensures value { result.0 ≡ slice_index_or self.old.registered position 0 }
    {
        Addr(self.registered.get(position))
    }

    /// The block of the registration at a position has moved to an address.
    pub fn set(&mut self, position: usize, at: Addr)
        requires within { position < length self.old.registered }
        requires nonzero { 0 < at.0 }
        ensures { self.new ≡ with_registered_at self.old position at.0 }
    {
        self.registered.set(position, at.0);
    }

    /// Takes away the registration at a position. Those after it stand one lower, and none is shifted.
    pub fn remove(&mut self, position: usize)
        requires { position < length self.old.registered }
        ensures { self.new ≡ without_registration self.old position }
    {
        let _ = self.registered.remove(position);
    }

    /// The registration at a position becomes a message, the last of all.
    pub fn post(&mut self, position: usize)
        requires { position < length self.old.registered }
        ensures { self.new ≡ finals_after_post self.old position }
    {
        let at = self.registered.remove(position);
        let Ok(()) = self.messages.push_back(at) else {
            unreachable!()
        };
    }

    /// The address of the message at a position.
    pub fn message(&self, position: usize) -> Addr
        requires { position < length self.now.messages }
        ensures { result.0 ≡ slice_index_or self.now.messages position 0 }
    {
        Addr(self.messages[position])
    }

    /// The block of the message at a position has moved to an address.
    pub fn set_message(&mut self, position: usize, at: Addr)
        requires { position < length self.old.messages }
        ensures { self.new ≡ record self.old { messages = slice_set self.old.messages position at.0 } }
    {
        self.messages[position] = at.0;
    }

    /// Takes the first message, if one waits.
    pub fn take(&mut self) -> Option<Addr>
        ensures state { self.new ≡ record self.old { messages = drop 1 self.old.messages } }
        ensures value { MatchOption result (self.old.messages ≡ []) (λ at. slice_get self.old.messages 0 ≡ Some at.0) }
    {
        Some(Addr(self.messages.pop_front()?))
    }
}
