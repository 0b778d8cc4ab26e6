// Keys, and the calls of inner loops by keys: no name is looked for. Each is the call of the name that its key has, and is refused
// `BadName` if the key isn't good.
#![tactic(auto)]

ghost use Rattle.std.specs.Prelude.{[], ◌≡◌, ◌<◌, ◌≤◌, Err, Some, IfNone, IfSome, IsTrue};
ghost use Rattle.mps_model.specs.World.{World};
ghost use Rattle.mps_model.specs.declared.call.Call.TheVariants as call;
ghost use Rattle.mps_names.specs.Keys.{CannotGive, KeysGoOn, area_name, point_name, table_name};
ghost use Rattle.mps_names.specs.State.{thing_named};
ghost use Rattle.mps_names.specs.declared.names.Thing.TheVariants as thing;
ghost use Rattle.mps_refinement.specs.RightMoving.{IsRightMoving, KeepsRoom};
ghost use Rattle.mps_refinement.specs.UnitsLeft.{ReservesWithin, units_left};
ghost use Rattle.mps_refinement.specs.RightStep.{IsRight};
ghost use Rattle.mps_refinement.specs.StandsFor.{StandsFor};
ghost use Rattle.mps_refinement.specs.Answering.{answer_to, says_block, says_bool, says_committed, says_head, says_number, says_ok, says_word};
ghost use Rattle.mps_refinement.specs.MovesNeeded.{moves_needed};
ghost use Rattle.mps_heap_spec.specs.Collecting.{can_collect};
ghost use Rattle.mps_heap_spec.specs.Keyed.{keyed_point_and_slot, keyed_slot, keyed_slots, keyed_word};
ghost use Rattle.mps_heap.specs.Answers.{says_address};
ghost use Rattle.mps_heap.specs.Results.{RefusesStale};

use super::Heap;
use mps_base::{Addr, Name, Refusal, Trail};
use mps_format::Format;
use mps_heap_access::keyed;
use mps_heap_access::objects::as_address;
use mps_heap_allocating::keyed as allocating;
use mps_heap_spec::{Committed, KeyedSlot, KeyedWord};
use mps_heap_state::units;
use mps_names::{AreaKey, PointKey, TableKey};

impl<F: Format> Heap<F> {
    /// The key of the table that has a name: the same whenever it is asked for, until the table is dropped. None if no table has the name.
    /// There is none either for one that isn't among the first 256, or after 2^64 - 1 keys.
    pub fn table_key(&mut self, name: Name) -> Option<TableKey>
        ensures good { IfSome result (λ key. table_name self.new.names.keys key ≡ Some name) }
        ensures given { IfSome result (λ key. key.count < self.new.names.keys.tables.count) }
        ensures none { IfNone result ((place : _) → thing_named self.old.names name ≡ Some (thing.Table place)
            → CannotGive self.old.names.keys.tables place name) }
        ensures others { KeysGoOn self.old.names.keys self.new.names.keys }
        ensures stands { (w : World) → StandsFor F.layout self.old w → StandsFor F.layout self.new w }
        ensures grains { self.new.segs.grains ≡ self.old.segs.grains }
        ensures state { self.new ≡ record self.old { names = self.new.names } }
    {
        self.state.table_key(name)
    }

    /// The key of the area that has a name; none as for a table.
    pub fn area_key(&mut self, name: Name) -> Option<AreaKey>
        ensures good { IfSome result (λ key. area_name self.new.names.keys key ≡ Some name) }
        ensures given { IfSome result (λ key. key.count < self.new.names.keys.areas.count) }
        ensures none { IfNone result ((place : _) → thing_named self.old.names name ≡ Some (thing.Area place)
            → CannotGive self.old.names.keys.areas place name) }
        ensures others { KeysGoOn self.old.names.keys self.new.names.keys }
        ensures stands { (w : World) → StandsFor F.layout self.old w → StandsFor F.layout self.new w }
        ensures grains { self.new.segs.grains ≡ self.old.segs.grains }
        ensures state { self.new ≡ record self.old { names = self.new.names } }
    {
        self.state.area_key(name)
    }

    /// The key of the point that has a name; none as for a table.
    pub fn point_key(&mut self, name: Name) -> Option<PointKey>
        ensures good { IfSome result (λ key. point_name self.new.names.keys key ≡ Some name) }
        ensures given { IfSome result (λ key. key.count < self.new.names.keys.points.count) }
        ensures none { IfNone result ((place : _) → thing_named self.old.names name ≡ Some (thing.Point place)
            → CannotGive self.old.names.keys.points place name) }
        ensures others { KeysGoOn self.old.names.keys self.new.names.keys }
        ensures stands { (w : World) → StandsFor F.layout self.old w → StandsFor F.layout self.new w }
        ensures grains { self.new.segs.grains ≡ self.old.segs.grains }
        ensures state { self.new ≡ record self.old { names = self.new.names } }
    {
        self.state.point_key(name)
    }

    /// A slot becomes what another is, by the keys of their tables.
    #[inline(always)]
    pub fn copy_by_key(&mut self, target: KeyedSlot, source: KeyedSlot) -> Result<(), Refusal>
        ensures right { IfSome (keyed_slots self.old.names.keys target source) (λ at.
            IsRight F.layout self.old (call.Copy at.0 at.1) [] (answer_to says_ok result) self.new) }
        ensures stale { RefusesStale (keyed_slots self.old.names.keys target source) result self.old self.new }
        ensures grains { self.new.segs.grains ≡ self.old.segs.grains }
        ensures keys { self.new.names.keys ≡ self.old.names.keys }
    {
        let into = self.state.slot_by(target)?;
        let from = self.state.slot_by(source)?;
        keyed::copy(&mut self.state, into, from)
    }

    /// A slot becomes null, by its table's key.
    #[inline(always)]
    pub fn clear_by_key(&mut self, slot: KeyedSlot) -> Result<(), Refusal>
        ensures right { IfSome (keyed_slot self.old.names.keys slot) (λ at.
            IsRight F.layout self.old (call.Clear at) [] (answer_to says_ok result) self.new) }
        ensures stale { RefusesStale (keyed_slot self.old.names.keys slot) result self.old self.new }
        ensures grains { self.new.segs.grains ≡ self.old.segs.grains }
        ensures keys { self.new.names.keys ≡ self.old.names.keys }
    {
        let at = self.state.slot_by(slot)?;
        keyed::clear(&mut self.state, at)
    }

    /// Whether two slots are both null or hold the same object, by the keys of their tables.
    #[inline(always)]
    pub fn same_by_key(&self, slot: KeyedSlot, other: KeyedSlot) -> Result<bool, Refusal>
        ensures right { IfSome (keyed_slots self.now.names.keys slot other) (λ at.
            IsRight F.layout self.now (call.Same at.0 at.1) [] (answer_to says_bool result) self.now) }
        ensures stale { IfNone (keyed_slots self.now.names.keys slot other) (result ≡ Err Refusal.BadName) }
    {
        let at = self.state.slot_by(slot)?;
        let other_at = self.state.slot_by(other)?;
        keyed::same(&self.state, at, other_at)
    }

    /// Whether a slot is null, by its table's key.
    #[inline(always)]
    pub fn is_null_by_key(&self, slot: KeyedSlot) -> Result<bool, Refusal>
        ensures right { IfSome (keyed_slot self.now.names.keys slot) (λ at.
            IsRight F.layout self.now (call.Null at) [] (answer_to says_bool result) self.now) }
        ensures stale { IfNone (keyed_slot self.now.names.keys slot) (result ≡ Err Refusal.BadName) }
    {
        let at = self.state.slot_by(slot)?;
        keyed::is_null(&self.state, at)
    }

    /// The head of the object in a slot, by its table's key. Refuses as `head` does.
    #[inline(always)]
    pub fn head_by_key(&self, slot: KeyedSlot) -> Result<u64, Refusal>
        ensures right { IfSome (keyed_slot self.now.names.keys slot) (λ at.
            IsRight F.layout self.now (call.Head at) [] (answer_to says_head result) self.now) }
        ensures stale { IfNone (keyed_slot self.now.names.keys slot) (result ≡ Err Refusal.BadName) }
    {
        let at = self.state.slot_by(slot)?;
        keyed::head(&self.state, at)
    }

    /// The address of the object in a slot, by its table's key. The object stays there until the next flip.
    #[inline(always)]
    pub fn addr_by_key(&self, slot: KeyedSlot) -> Result<Addr, Refusal>
        ensures right { IfSome (keyed_slot self.now.names.keys slot) (λ at.
            IsRight F.layout self.now (call.Address at) [] (answer_to says_address result) self.now) }
        ensures stale { IfNone (keyed_slot self.now.names.keys slot) (result ≡ Err Refusal.BadName) }
    {
        let at = self.state.slot_by(slot)?;
        as_address(keyed::addr(&self.state, at))
    }

    /// The number in a cell of the object in a slot, by its table's key. Refuses as `num` does.
    #[inline(always)]
    pub fn num_by_key(&self, slot: KeyedSlot, cell: u64) -> Result<u64, Refusal>
        ensures right { IfSome (keyed_slot self.now.names.keys slot) (λ at.
            IsRight F.layout self.now (call.Number at cell) [] (answer_to says_number result) self.now) }
        ensures stale { IfNone (keyed_slot self.now.names.keys slot) (result ≡ Err Refusal.BadName) }
    {
        let at = self.state.slot_by(slot)?;
        keyed::num(&self.state, at, cell)
    }

    /// Writes a number into a cell of the object in a slot, by its table's key. Refuses as `num` does.
    #[inline(always)]
    pub fn set_num_by_key(&mut self, slot: KeyedSlot, cell: u64, n: u64) -> Result<(), Refusal>
        ensures right { IfSome (keyed_slot self.old.names.keys slot) (λ at.
            IsRight F.layout self.old (call.SetNumber at cell n) [] (answer_to says_ok result) self.new) }
        ensures stale { RefusesStale (keyed_slot self.old.names.keys slot) result self.old self.new }
        ensures grains { self.new.segs.grains ≡ self.old.segs.grains }
        ensures keys { self.new.names.keys ≡ self.old.names.keys }
    {
        let at = self.state.slot_by(slot)?;
        keyed::set_num(&mut self.state, at, cell, n)
    }

    /// A slot becomes what a cell of the object in another slot refers to, by the keys of their tables. Refuses and may move as `get` does.
    #[inline(always)]
    pub fn get_by_key(
        &mut self,
        trail: &mut Trail,
        target: KeyedSlot,
        source: KeyedSlot,
        cell: u64,
    ) -> Result<(), Refusal>
        requires fits { moves_needed self.old.segs ≤ trail.old.spare }
        ensures right { IfSome (keyed_slots self.old.names.keys target source) (λ at.
            IsRightMoving F.layout self.old (call.Get at.0 at.1 cell) trail.old.moves trail.new.moves
            (answer_to says_ok result) self.new) }
        ensures stale { IfNone (keyed_slots self.old.names.keys target source)
            ((result ≡ Err Refusal.BadName) × (self.new ≡ self.old) × (trail.new ≡ trail.old)) }
        ensures units { units_left self.new ≤ units_left self.old }
        ensures room { KeepsRoom trail.old trail.new }
        ensures grains { self.new.segs.grains ≡ self.old.segs.grains }
        ensures keys { self.new.names.keys ≡ self.old.names.keys }
    {
        let into = self.state.slot_by(target)?;
        let from = self.state.slot_by(source)?;
        keyed::get(&mut self.state, trail, into, from, cell)
    }

    /// A cell of the object in a slot refers to what another slot has, by the keys of their tables. Refuses as `get` does.
    #[inline(always)]
    pub fn put_by_key(
        &mut self,
        target: KeyedSlot,
        cell: u64,
        source: KeyedSlot,
    ) -> Result<(), Refusal>
        ensures right { IfSome (keyed_slots self.old.names.keys target source) (λ at.
            IsRight F.layout self.old (call.Put at.0 cell at.1) [] (answer_to says_ok result) self.new) }
        ensures stale { RefusesStale (keyed_slots self.old.names.keys target source) result self.old self.new }
        ensures grains { self.new.segs.grains ≡ self.old.segs.grains }
        ensures keys { self.new.names.keys ≡ self.old.names.keys }
    {
        let into = self.state.slot_by(target)?;
        let from = self.state.slot_by(source)?;
        keyed::put(&mut self.state, into, cell, from)
    }

    /// Stores a word in an area by its key, and says whether it holds an object from now on.
    #[inline(always)]
    pub fn poke_by_key(&mut self, place: KeyedWord, word: u64) -> Result<bool, Refusal>
        ensures right { IfSome (keyed_word self.old.names.keys place) (λ at.
            IsRight F.layout self.old (call.Poke at word) [] (answer_to says_block result) self.new) }
        ensures stale { RefusesStale (keyed_word self.old.names.keys place) result self.old self.new }
        ensures grains { self.new.segs.grains ≡ self.old.segs.grains }
        ensures keys { self.new.names.keys ≡ self.old.names.keys }
    {
        let at = self.state.word_by(place)?;
        keyed::poke(&mut self.state, at, word)
    }

    /// A word of an area, by its key.
    #[inline(always)]
    pub fn peek_by_key(&self, place: KeyedWord) -> Result<u64, Refusal>
        ensures right { IfSome (keyed_word self.now.names.keys place) (λ at.
            IsRight F.layout self.now (call.Peek at) [] (answer_to says_word result) self.now) }
        ensures stale { IfNone (keyed_word self.now.names.keys place) (result ≡ Err Refusal.BadName) }
    {
        let at = self.state.word_by(place)?;
        keyed::peek(&self.state, at)
    }

    /// Reserves a block with this head at a point, by its key. Refuses and may poll as `reserve` does.
    #[inline(always)]
    pub fn reserve_by_key(
        &mut self,
        trail: &mut Trail,
        x: PointKey,
        head: u64,
    ) -> Result<(), Refusal>
        requires few_flips { IsTrue (can_collect self.old) }
        requires fits { moves_needed self.old.segs < trail.old.spare }
        ensures right { IfSome (point_name self.old.names.keys x) (λ name.
            IsRightMoving F.layout self.old (call.Reserve name head) trail.old.moves trail.new.moves
            (answer_to says_ok result) self.new) }
        ensures stale { IfNone (point_name self.old.names.keys x)
            ((result ≡ Err Refusal.BadName) × (self.new ≡ self.old) × (trail.new ≡ trail.old)) }
        ensures units { ReservesWithin self.old.running self.old self.new }
        ensures room { KeepsRoom trail.old trail.new }
        ensures grains { self.new.segs.grains ≡ self.old.segs.grains }
        ensures keys { self.new.names.keys ≡ self.old.names.keys }
    {
        let point = self.state.point_by(x)?;
        units::is_whole(&self.state);
        allocating::reserve(&mut self.state, trail, point, head)
    }

    /// Writes a number into a cell of the open reservation of a point, by its key. Refuses as `init_num` does.
    #[inline(always)]
    pub fn init_num_by_key(&mut self, x: PointKey, cell: u64, n: u64) -> Result<(), Refusal>
        ensures right { IfSome (point_name self.old.names.keys x) (λ name.
            IsRight F.layout self.old (call.InitNumber name cell n) [] (answer_to says_ok result) self.new) }
        ensures stale { RefusesStale (point_name self.old.names.keys x) result self.old self.new }
        ensures grains { self.new.segs.grains ≡ self.old.segs.grains }
        ensures keys { self.new.names.keys ≡ self.old.names.keys }
    {
        let point = self.state.point_by(x)?;
        allocating::init_num(&mut self.state, point, cell, n)
    }

    /// Writes what a slot has into a reference cell of the open reservation of a point, by their keys. Refuses as `init_ref` does.
    #[inline(always)]
    pub fn init_ref_by_key(
        &mut self,
        x: PointKey,
        cell: u64,
        source: KeyedSlot,
    ) -> Result<(), Refusal>
        ensures right { IfSome (keyed_point_and_slot self.old.names.keys x source) (λ at.
            IsRight F.layout self.old (call.InitReference at.0 cell at.1) [] (answer_to says_ok result) self.new) }
        ensures stale { RefusesStale (keyed_point_and_slot self.old.names.keys x source) result self.old self.new }
        ensures grains { self.new.segs.grains ≡ self.old.segs.grains }
        ensures keys { self.new.names.keys ≡ self.old.names.keys }
    {
        let point = self.state.point_by(x)?;
        let from = self.state.slot_by(source)?;
        allocating::init_ref(&mut self.state, point, cell, from)
    }

    /// The open reservation of a point becomes an object, by its key, to which a slot then refers, as `commit` says.
    #[inline(always)]
    pub fn commit_by_key(
        &mut self,
        trail: &mut Trail,
        x: PointKey,
        target: KeyedSlot,
    ) -> Result<Committed, Refusal>
        requires fits { 0 < trail.old.spare }
        ensures right { IfSome (keyed_point_and_slot self.old.names.keys x target) (λ at.
            IsRightMoving F.layout self.old (call.Commit at.0 at.1) trail.old.moves trail.new.moves
            (answer_to says_committed result) self.new) }
        ensures stale { IfNone (keyed_point_and_slot self.old.names.keys x target)
            ((result ≡ Err Refusal.BadName) × (self.new ≡ self.old) × (trail.new ≡ trail.old)) }
        ensures room { KeepsRoom trail.old trail.new }
        ensures grains { self.new.segs.grains ≡ self.old.segs.grains }
        ensures keys { self.new.names.keys ≡ self.old.names.keys }
    {
        let point = self.state.point_by(x)?;
        let into = self.state.slot_by(target)?;
        allocating::commit(&mut self.state, trail, point, into)
    }
}
