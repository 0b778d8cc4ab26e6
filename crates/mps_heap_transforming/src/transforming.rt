// The calls that make, drop and apply transforms, and add pairs to them.
ghost use Rattle.std.specs.Prelude.{◌≡◌, ◌+◌, ◌<◌, true, None, Some, IfOk, IsSome, OnOk, length, option_and_then, slice_get};
ghost use Rattle.mps_format.specs.Pools.{format_of_pool};
ghost use Rattle.mps_names.specs.State.{own_room, thing_named};
ghost use Rattle.mps_names.specs.declared.names.Thing.TheVariants as thing;
ghost use Rattle.mps_neighbours.specs.Transforms.{free_number, is_live, new_address};
ghost use Rattle.mps_heap_spec.specs.Coming.{Comes};
ghost use Rattle.mps_heap_spec.specs.Finding.{transform_named};
ghost use Rattle.mps_heap_spec.specs.Making.{IsDropping};
ghost use Rattle.mps_heap_spec.specs.Transforming.{AreTransformsThere, CanTransform, CanTransformFrom, IsApplying, IsTransforming, check_apply, check_transform, has_room_for_transform, is_moved_at, is_parked, pair_added, transform_dropped, with_pair_checked, with_pool_applied, with_pools_applied, with_segs};

use mps_base::{Addr, Name, Refusal, Slot};
use mps_format::{Format, format_of_pool, is_copying};
use mps_heap_state::State;
use mps_names::Thing;
use mps_xform::{AddRefusal, MAX_PAIRS, MAX_TRANSFORMS, Pair};

/// The number of the transform that has a name.
fn transform_named<F: Format>(state: &State<F>, name: Name) -> Result<u32, Refusal>
    ensures value { result ≡ transform_named state.now name }
    ensures named { IfOk result (λ number. thing_named state.now.names name ≡ Some (thing.Transform number)) }
{
    let Some(Thing::Transform(number)) = state.names.get(name) else {
        return Err(Refusal::BadName);
    };
    Ok(number)
}

/// Whether one more transform fits, and so does its name.
fn has_room<F: Format>(state: &State<F>) -> bool
    ensures { result ≡ has_room_for_transform state.now }
{
    state.names.has_own_room_for(Thing::Transform(0)) && state.beside.transforms.has_room()
}

/// Refuses a transform if its name is taken or there are 16.
fn check_transform<F: Format>(state: &State<F>, name: Name) -> Result<(), Refusal>
    ensures value { result ≡ check_transform state.now name }
    ensures free { OnOk result (thing_named state.now.names name ≡ None) }
    ensures room { OnOk result (0 < own_room state.now.names.counts (thing.Transform 0)) }
    ensures number { OnOk result (IsSome (free_number state.now.beside.transforms)) }
{
    state.names.refuse_taken(name)?;
    if !has_room(state) {
        return Err(Refusal::TooMany {
            limit: MAX_TRANSFORMS as u32,
        });
    }
    Ok(())
}

/// Makes a transform without pairs, in the room that there is for its name. Refuses `NameTaken`, and `TooMany` if there are 16.
pub fn transform<F: Format>(state: &mut State<F>, name: Name) -> Result<(), Refusal>
    ensures { IsTransforming state.old name result state.new }
{
    check_transform(state, name)?;
    let number = state.beside.transforms.make();
    state.names.take(name, Thing::Transform(number));
    Ok(())
}

/// Drops a transform with its pairs. Its name is free again. Refuses `BadName` if no transform has this name.
pub fn transdrop<F: Format>(state: &mut State<F>, name: Name) -> Result<(), Refusal>
    requires { AreTransformsThere state.old }
    ensures { IsDropping state.old name (transform_dropped state.old name) result state.new }
{
    let number = transform_named(state, name)?;
    state.beside.transforms.drop_transform(number);
    let _ = state.names.drop_name(name);
    Ok(())
}

/// Whether a collection moves the block at an address.
fn is_moved_at<F: Format>(state: &State<F>, at: u64) -> bool
    ensures { result ≡ is_moved_at state.now at }
{
    match state.pool_over(at) {
        Some(pool) => is_copying(pool),
        None => false,
    }
}

/// Adds a pair to its transform. Refuses `OldTwice` if that has one with this old block, and `TooMany` if there are 4,096 in all.
fn add_pair<F: Format>(state: &mut State<F>, pair: Pair) -> Result<(), Refusal>
    requires { is_live state.old.beside.transforms pair.transform ≡ true }
    ensures { Comes state.old (with_pair_checked state.old pair) result state.new }
{
    match state.beside.transforms.add(pair) {
        Ok(()) => Ok(()),
        Err(AddRefusal::OldTwice) => Err(Refusal::OldTwice),
        Err(AddRefusal::TooMany) => Err(Refusal::TooMany {
            limit: MAX_PAIRS as u32,
        }),
    }
}

/// Adds the pair of the objects in two slots, the old one and the new one, to a transform. Refuses `BadName` if no transform has this
/// name, as slots and objects do, `NotParked` if the arena isn't parked, `OldTwice` if the transform has a pair with this old object, and
/// `TooMany` if all transforms together have 4,096 pairs.
pub fn transadd<F: Format>(
    state: &mut State<F>,
    name: Name,
    old: Slot,
    new: Slot,
) -> Result<(), Refusal>
    requires { AreTransformsThere state.old }
    ensures { Comes state.old (pair_added F.layout state.old name old new) result state.new }
{
    let number = transform_named(state, name)?;
    let from = state.slot_in(old)?;
    let to = state.slot_in(new)?;
    let first = state.object_at(from.value)?;
    let second = state.object_at(to.value)?;
    if !state.arena.is_parked() {
        return Err(Refusal::NotParked);
    }
    let inside = is_moved_at(state, first.at);
    add_pair(
        state,
        Pair {
            transform: number,
            old: Addr(first.at),
            new: Addr(second.at),
            inside,
        },
    )
}

/// The number of the transform that may be applied. Refuses `BadName` if no transform has this name, `NotParked` if the arena isn't parked,
/// and `Open` if a point has a reservation that no flip ended.
fn check_apply<F: Format>(state: &State<F>, name: Name) -> Result<u32, Refusal>
    ensures value { result ≡ check_apply state.now name }
    ensures named { IfOk result (λ number. thing_named state.now.names name ≡ Some (thing.Transform number)) }
    ensures parked { OnOk result (is_parked state.now.arena ≡ true) }
{
    let number = transform_named(state, name)?;
    if !state.arena.is_parked() {
        return Err(Refusal::NotParked);
    }
    if state.points.has_live_reservation() {
        return Err(Refusal::Open);
    }
    Ok(number)
}

/// How many pools there are.
fn count_pools<F: Format>(state: &State<F>) -> u32
    ensures { result ≡ length state.now.pools }
{
    state.pools.tails_are_listed();
    state.pools.chains().are_sound();
    state.pools.count() as u32
}

/// The format of the objects of a pool, if it is automatic.
fn format_of<F: Format>(state: &State<F>, pool: u32) -> Option<F>
    ensures { result ≡ option_and_then format_of_pool (slice_get state.now.pools pool) }
{
    format_of_pool(state.pools.get(pool)?)
}

/// Applies a transform to the references of a pool, if it is automatic, by its own format.
fn apply_to_pool<F: Format>(state: &mut State<F>, transform: u32, pool: u32)
    requires { CanTransformFrom F.layout state.old pool }
    ensures state { state.new ≡ with_segs state.old (with_pool_applied F.layout (new_address state.old.beside.transforms transform)
        (option_and_then format_of_pool (slice_get state.old.pools pool)) pool state.old.segs) }
    ensures again { CanTransformFrom F.layout state.new (pool + 1) }
{
    let Some(format) = format_of(state, pool) else {
        return;
    };
    state
        .beside
        .transforms
        .apply(transform, &format, &mut state.segs, pool);
}

/// Applies a transform to the references of all automatic pools, each once.
fn apply_to_pools<F: Format>(state: &mut State<F>, transform: u32)
    requires { CanTransform F.layout state.old }
    ensures state { state.new ≡ with_segs state.old (with_pools_applied F.layout (new_address state.old.beside.transforms transform)
        state.old.pools (length state.old.pools) state.old.segs) }
    ensures again { CanTransformFrom F.layout state.new (length state.old.pools) }
{
    for pool in 0..count_pools(state) {
        apply_to_pool(state, transform, pool);
    }
}

/// Replaces the old objects of a transform by its new ones, once: each reference to an old one, in objects of all automatic pools and in
/// slots, leads to its new one from then on, and keeps its tag. The transform is dropped then. It doesn't if a word of an area lies in
/// an old object, which is the answer false, and nothing changes. Refuses `BadName` if no transform has this name, `NotParked` if the arena
/// isn't parked, and `Open` if a point has a reservation that no flip ended.
pub fn transapply<F: Format>(state: &mut State<F>, name: Name) -> Result<bool, Refusal>
    requires there { AreTransformsThere state.old }
    requires can { is_parked state.old.arena ≡ true → CanTransform F.layout state.old }
    ensures outcome { IsApplying F.layout state.old name result state.new }
{
    let number = check_apply(state, name)?;
    if state
        .beside
        .transforms
        .blocked(number, &state.segs, &state.roots)
    {
        return Ok(false);
    }
    apply_to_pools(state, number);
    state
        .beside
        .transforms
        .apply_slots(number, &mut state.roots);
    state.beside.transforms.drop_transform(number);
    let _ = state.names.drop_name(name);
    Ok(true)
}
