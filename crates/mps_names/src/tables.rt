// The names of things that take no memory: labels, caches and transforms.
#![tactic(auto)]

ghost use Rattle.std.specs.Prelude.{◌≡◌, ◌<◌, nat_lt, [], None, Some, true, option_and_then, IfOk};
ghost use Rattle.mps_names.specs.State.{thing_in, as_cache, as_label, no_counts, has_own_room, own_room, counts_with, counts_without};
ghost use Rattle.mps_names.specs.Inside.{TablesState, ChangesAt};

use crate::names::Thing;
use crate::numbers::Numbers;
use mps_base::Name;
use std::alloc::{AllocError, Global};
use std::marker::Model;

/// The most names of labels, of caches and of transforms.
pub(crate) const MAX_LABEL_NAMES: usize = 256;

pub(crate) const MAX_CACHE_NAMES: usize = 16;

pub(crate) const MAX_TRANSFORM_NAMES: usize = 16;

/// A table for each kind of thing whose names take no memory. `new` is the only call that allocates.
#[derive(Drop)]
pub(crate) struct Tables {
    labels: Numbers,
    caches: Numbers,
    transforms: Numbers,
}

impl Model for Tables {
    ghost use Rattle.mps_names.specs.Inside.{TablesState, state_of_tables, AreTables};

    ghost Value = { TablesState };

    ghost view = { λ t. state_of_tables t.labels t.caches t.transforms };

    ghost invariant = { λ t. AreTables t.labels t.caches t.transforms };
}

impl Tables {
    /// No name is taken.
    pub(crate) fn new(alloc: Global) -> Result<Tables, AllocError>
        ensures entries { IfOk result (λ tables. tables.entries ≡ []) }
        ensures counts { IfOk result (λ tables. tables.counts ≡ no_counts) }
    {
        Ok(Tables {
            labels: Numbers::new(alloc, MAX_LABEL_NAMES)?,
            caches: Numbers::new(alloc, MAX_CACHE_NAMES)?,
            transforms: Numbers::new(alloc, MAX_TRANSFORM_NAMES)?,
        })
    }

    /// What a name represents.
    pub(crate) fn get(&self, name: Name) -> Option<Thing>
        ensures { result ≡ thing_in self.now.entries name }
    {
        if let Some(number) = self.labels.get(name) {
            return Some(Thing::Label(number));
        }
        if let Some(number) = self.caches.get(name) {
            return Some(Thing::Cache(number));
        }
        let Some(number) = self.transforms.get(name) else {
            return None;
        };
        Some(Thing::Transform(number))
    }

    /// The number of the label that has a name.
    pub(crate) fn label(&self, name: Name) -> Option<u32>
        ensures { result ≡ option_and_then as_label (thing_in self.now.entries name) }
    {
        self.labels.get(name)
    }

    /// The number of the cache that has a name.
    #[inline(always)]
    pub(crate) fn cache(&self, name: Name) -> Option<u32>
        ensures { result ≡ option_and_then as_cache (thing_in self.now.entries name) }
    {
        self.caches.get(name)
    }

    /// How many labels have names.
    pub(crate) fn label_count(&self) -> usize
        ensures { result ≡ self.now.counts.labels }
    {
        self.labels.count()
    }

    /// Whether one more thing of a kind may have a name here.
    pub(crate) fn has_room_for(&self, thing: Thing) -> bool
        ensures { result ≡ nat_lt 0 (own_room self.now.counts thing) }
    {
        match thing {
            Thing::Label(_) => self.labels.count() < MAX_LABEL_NAMES,
            Thing::Cache(_) => self.caches.count() < MAX_CACHE_NAMES,
            Thing::Transform(_) => self.transforms.count() < MAX_TRANSFORM_NAMES,
            _ => false,
        }
    }

    /// A free name represents a thing.
    pub(crate) fn take(&mut self, name: Name, thing: Thing)
        requires free { thing_in self.old.entries name ≡ None }
        requires kind { has_own_room thing ≡ true }
        requires fits { 0 < own_room self.old.counts thing }
        ensures entries { ChangesAt self.old.entries self.new.entries name (Some thing) }
        ensures counts { self.new.counts ≡ counts_with self.old.counts thing }
    {
        match thing {
            Thing::Label(number) => self.labels.take(name, number),
            Thing::Cache(number) => self.caches.take(name, number),
            Thing::Transform(number) => self.transforms.take(name, number),
            _ => {}
        }
    }

    /// A name is free again; what it represented.
    pub(crate) fn drop_name(&mut self, name: Name) -> Option<Thing>
        ensures value { result ≡ thing_in self.old.entries name }
        ensures entries { ChangesAt self.old.entries self.new.entries name None }
        ensures counts { self.new.counts ≡ counts_without self.old.counts result }
    {
        if let Some(number) = self.labels.drop_name(name) {
            return Some(Thing::Label(number));
        }
        if let Some(number) = self.caches.drop_name(name) {
            return Some(Thing::Cache(number));
        }
        let Some(number) = self.transforms.drop_name(name) else {
            return None;
        };
        Some(Thing::Transform(number))
    }
}
