// Keys, by which a client's calls find things without their names.
#![tactic(auto)]

ghost use Rattle.std.specs.Prelude.{◌≡◌, IfNone, IfOk, IfSome};
ghost use Rattle.mps_keys.specs.Keys.{CannotGive, IsOneMore, area_name, no_keys, point_name, table_name, without_name};

use crate::given::Given;
use mps_base::Name;
use std::alloc::{AllocError, Global};
use std::marker::Model;

/// The key of a table, good until the table is dropped.
#[derive(Clone, Copy, Debug, PartialEq, Eq)]
pub struct TableKey {
    /// Where the table is kept.
    pub place: usize,
    /// How many keys of tables were given out before.
    pub count: u64,
}

/// The key of an area, good until the area is dropped.
#[derive(Clone, Copy, Debug, PartialEq, Eq)]
pub struct AreaKey {
    /// Where the area is kept.
    pub place: usize,
    /// How many keys of areas were given out before.
    pub count: u64,
}

/// The key of a point, good until the point is dropped.
#[derive(Clone, Copy, Debug, PartialEq, Eq)]
pub struct PointKey {
    /// Where the point is kept.
    pub place: u32,
    /// How many keys of points were given out before.
    pub count: u64,
}

/// The keys that were given out. `new` is the only call that allocates.
#[derive(Drop)]
pub struct Keys {
    tables: Given,
    areas: Given,
    points: Given,
}

impl Model for Keys {
    ghost use Rattle.mps_keys.specs.Keys.{KeysState};

    ghost Value = { KeysState };

    ghost view = { λ k. record { tables = k.tables; areas = k.areas; points = k.points } };
}

impl Keys {
    /// No key was given out.
    pub fn new(alloc: Global) -> Result<Keys, AllocError>
        ensures { IfOk result (λ keys. keys ≡ no_keys) }
    {
        Ok(Keys {
            tables: Given::new(alloc)?,
            areas: Given::new(alloc)?,
            points: Given::new(alloc)?,
        })
    }

    /// The count of the key of the table at a place, which has this name.
    pub fn give_table(&mut self, place: usize, name: Name) -> Option<u64>
        ensures given { IfSome result (λ count. IsOneMore self.old.tables self.new.tables place name count) }
        ensures none { IfNone result (CannotGive self.old.tables place name) }
        ensures unchanged { IfNone result (self.new ≡ self.old) }
        ensures areas { self.new.areas ≡ self.old.areas }
        ensures points { self.new.points ≡ self.old.points }
    {
        self.tables.give(place, name)
    }

    /// The count of the key of the area at a place, which has this name.
    pub fn give_area(&mut self, place: usize, name: Name) -> Option<u64>
        ensures given { IfSome result (λ count. IsOneMore self.old.areas self.new.areas place name count) }
        ensures none { IfNone result (CannotGive self.old.areas place name) }
        ensures unchanged { IfNone result (self.new ≡ self.old) }
        ensures tables { self.new.tables ≡ self.old.tables }
        ensures points { self.new.points ≡ self.old.points }
    {
        self.areas.give(place, name)
    }

    /// The count of the key of the point at a place, which has this name.
    pub fn give_point(&mut self, place: u32, name: Name) -> Option<u64>
        ensures given { IfSome result (λ count. IsOneMore self.old.points self.new.points place name count) }
        ensures none { IfNone result (CannotGive self.old.points place name) }
        ensures unchanged { IfNone result (self.new ≡ self.old) }
        ensures tables { self.new.tables ≡ self.old.tables }
        ensures areas { self.new.areas ≡ self.old.areas }
    {
        self.points.give(place as usize, name)
    }

    /// The key of the table at a place, if it was given out for this name, is good no more.
    pub fn drop_table(&mut self, place: usize, name: Name)
        ensures { self.new ≡ record self.old { tables = without_name self.old.tables place name } }
    {
        self.tables.take_back(place, name)
    }

    /// The key of the area at a place, if it was given out for this name, is good no more.
    pub fn drop_area(&mut self, place: usize, name: Name)
        ensures { self.new ≡ record self.old { areas = without_name self.old.areas place name } }
    {
        self.areas.take_back(place, name)
    }

    /// The key of the point at a place, if it was given out for this name, is good no more.
    pub fn drop_point(&mut self, place: u32, name: Name)
        ensures { self.new ≡ record self.old { points = without_name self.old.points place name } }
    {
        self.points.take_back(place as usize, name)
    }

    /// The name of the table that has a key; none if the key isn't good.
    #[inline(always)]
    pub fn table_name(&self, key: TableKey) -> Option<Name>
        ensures { result ≡ table_name self.now key }
    {
        self.tables.name_by(key.place, key.count)
    }

    /// The name of the area that has a key; none if the key isn't good.
    #[inline(always)]
    pub fn area_name(&self, key: AreaKey) -> Option<Name>
        ensures { result ≡ area_name self.now key }
    {
        self.areas.name_by(key.place, key.count)
    }

    /// The name of the point that has a key; none if the key isn't good.
    #[inline(always)]
    pub fn point_name(&self, key: PointKey) -> Option<Name>
        ensures { result ≡ point_name self.now key }
    {
        self.points.name_by(key.place as usize, key.count)
    }
}
