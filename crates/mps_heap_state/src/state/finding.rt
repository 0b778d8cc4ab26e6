// What a call finds by its words. What frequent calls find is inlined, so that a name is read where it stands in its call and isn't
// copied on the way.
ghost use Rattle.std.specs.Prelude.{◌≡◌, ◌<◌, Some, IsTrue, IfOk, length};
ghost use Rattle.mps_buffer.specs.Points.{point_at};
ghost use Rattle.mps_root.specs.State.{HasItem, HasPlace};
ghost use Rattle.mps_heap_spec.specs.State.{pool_over, format_over};
ghost use Rattle.mps_heap_spec.specs.Finding.{chain_named, pool_named, point_named, slot_in, word_in, block_place_in, object_at, object_in};

use super::State;
use mps_base::{Addr, Name, Refusal, Slot};
use mps_buffer::Point;
use mps_format::{Format, Pool, format_of_pool};
use mps_heap_spec::{Block, Entry, Kept, Located, item, pool_of_segment, under};
use mps_names::Thing;
use mps_root::Stored;

impl<F: Format> State<F> {
    /// The chain that has a name, with how many generations it has.
    pub fn chain_named(&self, name: Name) -> Result<Kept<u32>, Refusal>
        ensures value { result ≡ chain_named self.now name }
        ensures there { IfOk result (λ on. on.key < length self.now.chains.chains) }
    {
        let Some(Thing::Chain(key)) = self.names.get(name) else {
            return Err(Refusal::BadName);
        };
        under(key, self.pools.generations_on(key))
    }

    /// The pool that has a name.
    #[inline(always)]
    pub fn pool_named(&self, name: Name) -> Result<Kept<Pool<F>>, Refusal>
        ensures { result ≡ pool_named self.now name }
    {
        let Some(Thing::Pool(key)) = self.names.get(name) else {
            return Err(Refusal::BadName);
        };
        under(key, self.pools.get(key))
    }

    /// The point that has a name.
    #[inline(always)]
    pub fn point_named(&self, name: Name) -> Result<Kept<Point>, Refusal>
        ensures value { result ≡ point_named self.now name }
        ensures there { IfOk result (λ p. point_at self.now.points p.key ≡ Some p.value) }
    {
        let Some(Thing::Point(key)) = self.names.get(name) else {
            return Err(Refusal::BadName);
        };
        self.point_at(Kept { key, value: name })
    }

    /// A slot of a table.
    #[inline(always)]
    pub fn slot_in(&self, slot: Slot) -> Result<Entry<u64>, Refusal>
        ensures value { result ≡ slot_in self.now slot }
        ensures fits { IfOk result (λ e. HasItem self.now.roots.tables e.key e.index) }
    {
        let Some(Thing::Table(place)) = self.names.get(slot.name) else {
            return Err(Refusal::BadName);
        };
        self.slot_at(Located { slot, place })
    }

    /// A word of an area.
    pub fn word_in(&self, place: Slot) -> Result<Entry<Stored>, Refusal>
        ensures value { result ≡ word_in self.now place }
        ensures fits { IfOk result (λ e. HasItem self.now.roots.areas e.key e.index) }
    {
        let Some(Thing::Area(key)) = self.names.get(place.name) else {
            return Err(Refusal::BadName);
        };
        self.word_at(Located {
            slot: place,
            place: key,
        })
    }

    /// A place of a table of blocks.
    #[inline(always)]
    pub fn block_place_in(&self, place: Slot) -> Result<Entry<u64>, Refusal>
        ensures value { result ≡ block_place_in self.now place }
        ensures fits { IfOk result (λ e. HasPlace self.now.roots.blocks e.key e.index) }
    {
        let Some(Thing::Blocks(key)) = self.names.get(place.name) else {
            return Err(Refusal::BadName);
        };
        if key >= self.roots.block_tables() {
            return Err(Refusal::BadName);
        }
        let places = self.roots.places(key);
        let index = place.index as usize;
        let Some(value) = item(places, index) else {
            return Err(Refusal::BadIndex);
        };
        Ok(Entry { key, index, value })
    }

    /// The pool of the segment that is held over an address.
    #[inline(always)]
    pub fn pool_over(&self, at: u64) -> Option<Pool<F>>
        ensures { result ≡ pool_over self.now at }
    {
        self.pools.get(pool_of_segment(&self.segs, at)?)
    }

    /// The format of the objects in the segment that is held over an address.
    #[inline(always)]
    pub(crate) fn format_over(&self, at: u64) -> Option<F>
        ensures { result ≡ format_over self.now at }
    {
        format_of_pool(self.pool_over(at)?)
    }

    /// The object at an address that stands in a slot.
    #[inline(always)]
    pub fn object_at(&self, at: u64) -> Result<Block<F>, Refusal>
        ensures value { result ≡ object_at F.layout self.now at }
        ensures valid { IfOk result (λ b. IsTrue ((F.layout b.format).is_valid b.head)) }
        ensures nonzero { IfOk result (λ b. 0 < b.at) }
    {
        if at == 0 {
            return Err(Refusal::NullRef);
        }
        let Some(format) = self.format_over(at) else {
            return Err(Refusal::NullRef);
        };
        let Some(head) = self.segs.item(Addr(at).word()) else {
            return Err(Refusal::NullRef);
        };
        if !format.accepts(head) {
            return Err(Refusal::NullRef);
        }
        Ok(Block { at, format, head })
    }

    /// The object that a slot refers to.
    #[inline(always)]
    pub fn object_in(&self, slot: Slot) -> Result<Block<F>, Refusal>
        ensures value { result ≡ object_in F.layout self.now slot }
        ensures valid { IfOk result (λ b. IsTrue ((F.layout b.format).is_valid b.head)) }
        ensures nonzero { IfOk result (λ b. 0 < b.at) }
    {
        let from = self.slot_in(slot)?;
        self.object_at(from.value)
    }
}
