// What a call finds by keys. A key says where its thing is kept, so no name is looked for.
ghost use Rattle.std.specs.Prelude.{◌≡◌, ◌<◌, None, Some, IfErr, IfNone, IfOk, IfSome, IsTrue};
ghost use Rattle.mps_buffer.specs.Points.{point_at};
ghost use Rattle.mps_names.specs.Keys.{CannotGive, KeysGoOn, area_name, point_name, table_name};
ghost use Rattle.mps_names.specs.State.{HasKeys, thing_named};
ghost use Rattle.mps_names.specs.declared.names.Thing.TheVariants as thing;
ghost use Rattle.mps_root.specs.State.{HasItem};
ghost use Rattle.mps_heap_spec.specs.Finding.{object_in, point_named, slot_in, word_in};
ghost use Rattle.mps_heap_spec.specs.Keyed.{IsAreaAt, IsPointAt, IsTableAt, keyed_slot, keyed_word};

use super::State;
use mps_base::{Name, Refusal, Slot};
use mps_buffer::Point;
use mps_format::Format;
use mps_heap_spec::{Block, Entry, Kept, KeyedSlot, KeyedWord, Located, item, under};
use mps_names::{AreaKey, PointKey, TableKey};
use mps_root::Stored;

impl<F: Format> State<F> {
    /// The key of the table that has a name.
    pub fn table_key(&mut self, name: Name) -> Option<TableKey>
        ensures good { IfSome result (λ key. table_name self.new.names.keys key ≡ Some name) }
        ensures given { IfSome result (λ key. key.count < self.new.names.keys.tables.count) }
        ensures none { IfNone result ((place : _) → thing_named self.old.names name ≡ Some (thing.Table place)
            → CannotGive self.old.names.keys.tables place name) }
        ensures others { KeysGoOn self.old.names.keys self.new.names.keys }
        ensures names { HasKeys self.old.names self.new.names }
        ensures state { self.new ≡ record self.old { names = self.new.names } }
    {
        self.names.table_key(name)
    }

    /// The key of the area that has a name.
    pub fn area_key(&mut self, name: Name) -> Option<AreaKey>
        ensures good { IfSome result (λ key. area_name self.new.names.keys key ≡ Some name) }
        ensures given { IfSome result (λ key. key.count < self.new.names.keys.areas.count) }
        ensures none { IfNone result ((place : _) → thing_named self.old.names name ≡ Some (thing.Area place)
            → CannotGive self.old.names.keys.areas place name) }
        ensures others { KeysGoOn self.old.names.keys self.new.names.keys }
        ensures names { HasKeys self.old.names self.new.names }
        ensures state { self.new ≡ record self.old { names = self.new.names } }
    {
        self.names.area_key(name)
    }

    /// The key of the point that has a name.
    pub fn point_key(&mut self, name: Name) -> Option<PointKey>
        ensures good { IfSome result (λ key. point_name self.new.names.keys key ≡ Some name) }
        ensures given { IfSome result (λ key. key.count < self.new.names.keys.points.count) }
        ensures none { IfNone result ((place : _) → thing_named self.old.names name ≡ Some (thing.Point place)
            → CannotGive self.old.names.keys.points place name) }
        ensures others { KeysGoOn self.old.names.keys self.new.names.keys }
        ensures names { HasKeys self.old.names self.new.names }
        ensures state { self.new ≡ record self.old { names = self.new.names } }
    {
        self.names.point_key(name)
    }

    /// The slot of which a key is good, and where its table is kept. Refuses `BadName` if the key isn't good.
    #[inline(always)]
    pub fn slot_by(&self, keyed: KeyedSlot) -> Result<Located, Refusal>
        ensures good { IfOk result (λ at. keyed_slot self.now.names.keys keyed ≡ Some at.slot) }
        ensures there { IfOk result (λ at. IsTableAt self.now at) }
        ensures stale { IfErr result (λ why. (why ≡ Refusal.BadName) × (keyed_slot self.now.names.keys keyed ≡ None)) }
    {
        let Some(name) = self.names.table_name(keyed.table) else {
            return Err(Refusal::BadName);
        };
        let index = keyed.index;
        Ok(Located {
            slot: Slot { name, index },
            place: keyed.table.place,
        })
    }

    /// The word of which a key is good, and where its area is kept. Refuses `BadName` if the key isn't good.
    #[inline(always)]
    pub fn word_by(&self, keyed: KeyedWord) -> Result<Located, Refusal>
        ensures good { IfOk result (λ at. keyed_word self.now.names.keys keyed ≡ Some at.slot) }
        ensures there { IfOk result (λ at. IsAreaAt self.now at) }
        ensures stale { IfErr result (λ why. (why ≡ Refusal.BadName) × (keyed_word self.now.names.keys keyed ≡ None)) }
    {
        let Some(name) = self.names.area_name(keyed.area) else {
            return Err(Refusal::BadName);
        };
        let index = keyed.index;
        Ok(Located {
            slot: Slot { name, index },
            place: keyed.area.place,
        })
    }

    /// The name of the point of which a key is good, under the key of its point. Refuses `BadName` if the key isn't good.
    #[inline(always)]
    pub fn point_by(&self, keyed: PointKey) -> Result<Kept<Name>, Refusal>
        ensures good { IfOk result (λ at. point_name self.now.names.keys keyed ≡ Some at.value) }
        ensures there { IfOk result (λ at. IsPointAt self.now at) }
        ensures stale { IfErr result (λ why. (why ≡ Refusal.BadName) × (point_name self.now.names.keys keyed ≡ None)) }
    {
        let Some(value) = self.names.point_name(keyed) else {
            return Err(Refusal::BadName);
        };
        Ok(Kept {
            key: keyed.place,
            value,
        })
    }

    /// A slot of the table that is kept there.
    #[inline(always)]
    pub fn slot_at(&self, at: Located) -> Result<Entry<u64>, Refusal>
        requires { IsTableAt self.now at }
        ensures value { result ≡ slot_in self.now at.slot }
        ensures fits { IfOk result (λ e. HasItem self.now.roots.tables e.key e.index) }
    {
        let key = at.place;
        let Some(slots) = self.roots.slots(key) else {
            return Err(Refusal::BadName);
        };
        let index = at.slot.index as usize;
        let Some(value) = item(slots, index) else {
            return Err(Refusal::BadIndex);
        };
        Ok(Entry { key, index, value })
    }

    /// A word of the area that is kept there.
    #[inline(always)]
    pub fn word_at(&self, at: Located) -> Result<Entry<Stored>, Refusal>
        requires { IsAreaAt self.now at }
        ensures value { result ≡ word_in self.now at.slot }
        ensures fits { IfOk result (λ e. HasItem self.now.roots.areas e.key e.index) }
    {
        let key = at.place;
        let Some(words) = self.roots.words(key) else {
            return Err(Refusal::BadName);
        };
        let index = at.slot.index as usize;
        let Some(value) = item(words, index) else {
            return Err(Refusal::BadIndex);
        };
        Ok(Entry { key, index, value })
    }

    /// The point that is kept there.
    #[inline(always)]
    pub fn point_at(&self, at: Kept<Name>) -> Result<Kept<Point>, Refusal>
        requires { IsPointAt self.now at }
        ensures value { result ≡ point_named self.now at.value }
        ensures there { IfOk result (λ p. point_at self.now.points p.key ≡ Some p.value) }
    {
        under(at.key, self.points.get(at.key))
    }

    /// The object to which a slot of the table that is kept there refers.
    #[inline(always)]
    pub fn object_by(&self, at: Located) -> Result<Block<F>, Refusal>
        requires { IsTableAt self.now at }
        ensures value { result ≡ object_in F.layout self.now at.slot }
        ensures valid { IfOk result (λ b. IsTrue ((F.layout b.format).is_valid b.head)) }
        ensures nonzero { IfOk result (λ b. 0 < b.at) }
    {
        let from = self.slot_at(at)?;
        self.object_at(from.value)
    }
}
