// The map from names to things.
#![tactic(auto)]

ghost use Rattle.std.specs.Prelude.{◌≡◌, ◌<◌, nat_lt, [], None, Some, option_and_then, IfErr, IfNone, IfOk, IfSome, OnOk, IsSome};
ghost use Rattle.mps_names.specs.declared.names.Thing.TheVariants as thing;
ghost use Rattle.mps_keys.specs.Keys.{CannotGive, KeysGoOn, area_name, no_keys, point_name, table_name};
ghost use Rattle.mps_names.specs.Inside.{keys_without};
ghost use Rattle.mps_names.specs.State.{NamesState, thing_named, as_cache, as_label, HasKeys, IsSameMap, Updates, no_counts, has_own_room, own_room, room_for};

use crate::key::Key;
use crate::tables::Tables;
use mps_base::{Name, Refusal};
use mps_keys::{AreaKey, Keys, PointKey, TableKey};
use std::alloc::{AllocError, Global};
use std::collections::HashMap;
use std::marker::Model;

/// What a name represents: the kind of the thing, and its number among those of its kind, or the key under which it is kept.
#[derive(Clone, Copy, Debug, PartialEq, Eq)]
pub enum Thing {
    Chain(u32),
    Pool(u32),
    Table(usize),
    Area(usize),
    Blocks(usize),
    Point(u32),
    Dependency(u32),
    Label(u32),
    Cache(u32),
    Transform(u32),
}

impl Thing {
    /// Whether names of things of this kind take no memory.
    fn has_own_room(self) -> bool
        ensures { result ≡ has_own_room self }
    {
        matches!(
            self,
            Thing::Label(_) | Thing::Cache(_) | Thing::Transform(_)
        )
    }
}

/// The names that are taken, and what each represents. Tables, areas and points have keys too, by which they are found without their names.
#[derive(Drop)]
pub struct Names {
    things: HashMap<Key, Thing>,
    // Labels, caches and transforms.
    tables: Tables,
    keys: Keys,
}

impl Model for Names {
    ghost use Rattle.std.specs.Prelude.{◌++◌};
    ghost use Rattle.mps_names.specs.State.{NamesState};
    ghost use Rattle.mps_names.specs.Inside.{AreNames};
    ghost use Rattle.std.specs.HashMap.{spare};

    ghost Value = { NamesState };

    ghost view = { λ n. record {
      entries = n.things.entries ++ n.tables.entries;
      room = spare n.things;
      counts = n.tables.counts;
      keys = n.keys;
    } };

    ghost invariant = { λ n. AreNames n.things.entries n.tables n.keys };
}

impl Names {
    /// No name is taken. Room for keys, and for the names of labels, caches and transforms is all that it takes.
    pub fn new(alloc: Global) -> Result<Names, AllocError>
        ensures empty { IfOk result (λ names. names.entries ≡ []) }
        ensures counts { IfOk result (λ names. names.counts ≡ no_counts) }
        ensures keys { IfOk result (λ names. names.keys ≡ no_keys) }
    {
        Ok(Names {
            tables: Tables::new(alloc)?,
            keys: Keys::new(alloc)?,
            things: HashMap::new(alloc),
        })
    }

    /// Makes room for one more name of any thing but a label, a cache or a transform.
    pub fn make_room(&mut self) -> Result<(), AllocError>
        ensures fits { OnOk result (0 < self.new.room) }
        ensures unchanged { IsSameMap self.old self.new }
        ensures counts { self.new.counts ≡ self.old.counts }
        ensures keys { self.new.keys ≡ self.old.keys }
    {
        self.things.reserve(1)
    }

    /// What a name represents.
    #[inline(always)]
    pub fn get(&self, name: Name) -> Option<Thing>
        ensures { result ≡ thing_named self.now name }
    {
        match self.things.get(&Key { name }) {
            Some(thing) => Some(*thing),
            None => self.tables.get(name),
        }
    }

    /// The number of the label that has a name. Other things aren't searched.
    pub fn label(&self, name: Name) -> Option<u32>
        ensures { result ≡ option_and_then as_label (thing_named self.now name) }
    {
        self.tables.label(name)
    }

    /// The number of the cache that has a name. Other things aren't searched.
    #[inline(always)]
    pub fn cache(&self, name: Name) -> Option<u32>
        ensures { result ≡ option_and_then as_cache (thing_named self.now name) }
    {
        self.tables.cache(name)
    }

    /// Refuses `NameTaken` if a name represents something.
    pub fn refuse_taken(&self, name: Name) -> Result<(), Refusal>
        ensures sound { OnOk result (thing_named self.now name ≡ None) }
        ensures refuses { IfErr result (λ why. (why ≡ Refusal.NameTaken) × IsSome (thing_named self.now name)) }
    {
        if self.get(name).is_some() {
            return Err(Refusal::NameTaken);
        }
        Ok(())
    }

    /// How many labels have names.
    pub fn label_count(&self) -> usize
        ensures { result ≡ self.now.counts.labels }
    {
        self.tables.label_count()
    }

    /// Whether there is room of its own for the name of a label, a cache or a transform; false for any other thing.
    pub fn has_own_room_for(&self, thing: Thing) -> bool
        ensures { result ≡ nat_lt 0 (own_room self.now.counts thing) }
    {
        self.tables.has_room_for(thing)
    }

    /// A free name is taken, in the room that was made, or in the room of labels, of caches or of transforms.
    pub fn take(&mut self, name: Name, thing: Thing)
        requires free { thing_named self.old name ≡ None }
        requires fits { 0 < room_for self.old thing }
        ensures names { Updates self.old self.new name (Some thing) }
    {
        if thing.has_own_room() {
            self.tables.take(name, thing);
        } else {
            let Ok(_) = self.things.insert(Key { name }, thing) else {
                unreachable!()
            };
        }
    }

    /// A name is free again; what it represented. If that has a key, the key is good no more.
    pub fn drop_name(&mut self, name: Name) -> Option<Thing>
        ensures value { result ≡ thing_named self.old name }
        ensures dropped { Updates self.old self.new name None }
    {
        if let Some(thing) = self.things.remove(&Key { name }) {
            drop_key(&mut self.keys, name, Some(thing));
            return Some(thing);
        }
        let dropped = self.tables.drop_name(name);
        drop_key(&mut self.keys, name, dropped);
        dropped
    }

    /// The key of the table that has a name: the same whenever it is asked for, until the table is dropped. None if no table has the
    /// name. There is none either for a table that isn't at one of the first 256 places, or after 2^64 - 1 keys.
    pub fn table_key(&mut self, name: Name) -> Option<TableKey>
        ensures good { IfSome result (λ key. table_name self.new.keys key ≡ Some name) }
        ensures given { IfSome result (λ key. key.count < self.new.keys.tables.count) }
        ensures others { KeysGoOn self.old.keys self.new.keys }
        ensures none { IfNone result ((place : _) → thing_named self.old name ≡ Some (thing.Table place)
            → CannotGive self.old.keys.tables place name) }
        ensures names { HasKeys self.old self.new }
    {
        let Some(Thing::Table(place)) = self.get(name) else {
            return None;
        };
        let count = self.keys.give_table(place, name)?;
        Some(TableKey { place, count })
    }

    /// The key of the area that has a name; none as for a table.
    pub fn area_key(&mut self, name: Name) -> Option<AreaKey>
        ensures good { IfSome result (λ key. area_name self.new.keys key ≡ Some name) }
        ensures given { IfSome result (λ key. key.count < self.new.keys.areas.count) }
        ensures others { KeysGoOn self.old.keys self.new.keys }
        ensures none { IfNone result ((place : _) → thing_named self.old name ≡ Some (thing.Area place)
            → CannotGive self.old.keys.areas place name) }
        ensures names { HasKeys self.old self.new }
    {
        let Some(Thing::Area(place)) = self.get(name) else {
            return None;
        };
        let count = self.keys.give_area(place, name)?;
        Some(AreaKey { place, count })
    }

    /// The key of the point that has a name; none as for a table.
    pub fn point_key(&mut self, name: Name) -> Option<PointKey>
        ensures good { IfSome result (λ key. point_name self.new.keys key ≡ Some name) }
        ensures given { IfSome result (λ key. key.count < self.new.keys.points.count) }
        ensures others { KeysGoOn self.old.keys self.new.keys }
        ensures none { IfNone result ((place : _) → thing_named self.old name ≡ Some (thing.Point place)
            → CannotGive self.old.keys.points place name) }
        ensures names { HasKeys self.old self.new }
    {
        let Some(Thing::Point(place)) = self.get(name) else {
            return None;
        };
        let count = self.keys.give_point(place, name)?;
        Some(PointKey { place, count })
    }

    /// The name of the table that has a key; none if the key isn't good.
    #[inline(always)]
    pub fn table_name(&self, key: TableKey) -> Option<Name>
        ensures value { result ≡ table_name self.now.keys key }
        ensures named { IfSome result (λ name. thing_named self.now name ≡ Some (thing.Table key.place)) }
    {
        self.keys.table_name(key)
    }

    /// The name of the area that has a key; none if the key isn't good.
    #[inline(always)]
    pub fn area_name(&self, key: AreaKey) -> Option<Name>
        ensures value { result ≡ area_name self.now.keys key }
        ensures named { IfSome result (λ name. thing_named self.now name ≡ Some (thing.Area key.place)) }
    {
        self.keys.area_name(key)
    }

    /// The name of the point that has a key; none if the key isn't good.
    #[inline(always)]
    pub fn point_name(&self, key: PointKey) -> Option<Name>
        ensures value { result ≡ point_name self.now.keys key }
        ensures named { IfSome result (λ name. thing_named self.now name ≡ Some (thing.Point key.place)) }
    {
        self.keys.point_name(key)
    }
}

/// The key of what had a name, if it has one, is good no more.
fn drop_key(keys: &mut Keys, name: Name, thing: Option<Thing>)
    ensures gone { keys.new ≡ keys_without keys.old name thing }
{
    match thing {
        Some(Thing::Table(place)) => keys.drop_table(place, name),
        Some(Thing::Area(place)) => keys.drop_area(place, name),
        Some(Thing::Point(place)) => keys.drop_point(place, name),
        _ => {}
    }
}
