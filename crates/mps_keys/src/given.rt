// Keys of one kind that were given out.
#![tactic(auto)]

ghost use Rattle.std.specs.Prelude.{◌≡◌, ◌<◌, true, false, None, IfOk, IfSome, IfNone, length};
ghost use Rattle.mps_base.specs.Name.{same_name};
ghost use Rattle.mps_keys.specs.Keys.{AreAllBelow, none_given, stamp_at, name_by, without_name, without_stamp, IsOneMore, CannotGive, most_places};

use crate::bytes::are_same;
use mps_base::Name;
use std::alloc::{AllocError, Global};
use std::marker::Model;

/// The most places of things of one kind: as many as there may be roots, or points.
const MAX_PLACES: usize = 256;

/// What is noted at a place: the count of the key that was given out for its thing, and the name of that.
#[derive(Clone, Copy, Debug, PartialEq, Eq)]
pub(crate) struct Stamp {
    pub(crate) count: u64,
    pub(crate) name: Name,
}

/// The keys that were given out for things of one kind, by the places at which these are kept. `new` is the only call that allocates.
#[derive(Drop)]
pub(crate) struct Given {
    stamps: Vec<Option<Stamp>>,
    // How many keys were given out.
    count: u64,
}

impl Model for Given {
    ghost use Rattle.mps_keys.specs.Keys.{GivenState, AreCounted};

    ghost Value = { GivenState };

    ghost view = { λ g. record { stamps = g.stamps.items; count = g.count } };

    ghost invariant = { λ g. AreCounted g.stamps g.count };
}

impl Given {
    /// No key was given out.
    pub(crate) fn new(alloc: Global) -> Result<Given, AllocError>
        ensures { IfOk result (λ given. given ≡ none_given) }
    {
        Ok(Given {
            stamps: Vec::with_capacity(alloc, MAX_PLACES)?,
            count: 0,
        })
    }

    /// The name of the thing at a place, if its key has this count.
    #[inline(always)]
    pub(crate) fn name_by(&self, place: usize, count: u64) -> Option<Name>
        ensures { result ≡ name_by self.now place count }
    {
        match self.stamp_at(place) {
            Some(stamp) if stamp.count == count => Some(stamp.name),
            _ => None,
        }
    }

    /// The count of the key of the thing at a place, which has this name. A thing has one key, whenever it is asked for.
    pub(crate) fn give(&mut self, place: usize, name: Name) -> Option<u64>
        ensures given { IfSome result (λ count. IsOneMore self.old self.new place name count) }
        ensures none { IfNone result (CannotGive self.old place name) }
        ensures unchanged { IfNone result (self.new ≡ self.old) }
    {
        if let Some(stamp) = self.stamp_at(place) {
            return count_of(stamp, name);
        }
        if place >= MAX_PLACES || self.count == u64::MAX {
            return None;
        }
        Some(self.give_anew(place, name))
    }

    /// What is noted at a place.
    #[inline(always)]
    fn stamp_at(&self, place: usize) -> Option<Stamp>
        ensures value { result ≡ stamp_at self.now place }
        ensures counted { AreAllBelow self.now }
    {
        match self.stamps.get(place) {
            Some(stamp) => *stamp,
            None => None,
        }
    }

    /// The count of the key of the thing at a place, which had none.
    fn give_anew(&mut self, place: usize, name: Name) -> u64
        requires within { place < most_places }
        requires free { stamp_at self.old place ≡ None }
        requires fits { self.old.count < 0xFFFFFFFFFFFFFFFF }
        ensures { IsOneMore self.old self.new place name result }
    {
        self.reach(place);
        let count = self.count;
        self.stamps[place] = Some(Stamp { count, name });
        self.count += 1;
        count
    }

    /// There is a place for a stamp.
    fn reach(&mut self, place: usize)
        requires within { place < most_places }
        ensures there { place < length self.new.stamps }
        ensures same { (other : _) → stamp_at self.new other ≡ stamp_at self.old other }
        ensures count { self.new.count ≡ self.old.count }
    {
        while self.stamps.len() <= place {
            self.stamps.push_reserved(None);
        }
    }

    /// The key of the thing at a place, if one was given out for this name, is good no more.
    pub(crate) fn take_back(&mut self, place: usize, name: Name)
        ensures { self.new ≡ without_name self.old place name }
    {
        if let Some(stamp) = self.stamp_at(place) {
            if is_of(stamp, name) {
                self.clear(place);
            }
        }
    }

    /// Nothing is noted at a place any more.
    fn clear(&mut self, place: usize)
        ensures { self.new ≡ without_stamp self.old place }
    {
        if place < self.stamps.len() {
            self.stamps[place] = None;
        }
    }
}

/// Whether a stamp is of this name.
fn is_of(stamp: Stamp, name: Name) -> bool
    ensures { result ≡ same_name name stamp.name }
{
    are_same(&name.bytes, &stamp.name.bytes)
}

/// The count of a stamp, if it has this name.
fn count_of(stamp: Stamp, name: Name) -> Option<u64>
    ensures value { IfSome result (λ count. (count ≡ stamp.count) × (same_name stamp.name name ≡ true)) }
    ensures none { IfNone result (same_name stamp.name name ≡ false) }
{
    if !are_same(&stamp.name.bytes, &name.bytes) {
        return None;
    }
    Some(stamp.count)
}
