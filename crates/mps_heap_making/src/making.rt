// The calls that make and drop things.
ghost use Rattle.std.specs.Prelude.{◌≡◌, ◌+◌, ◌<◌, ◌≤◌, None, Some, length, option_map, OnOk, IfErr, IfOk};
ghost use Rattle.std.specs.Option.{option_map_or, ForSome};
ghost use Rattle.mps_names.specs.State.{thing_named, room_for, Updates};
ghost use Rattle.mps_names.specs.declared.names.Thing.TheVariants as thing;
ghost use Rattle.mps_format.specs.declared.pool.Pool.TheVariants as kind_of_pool;
ghost use Rattle.mps_heap_spec.specs.Making.{IsUntouched, IsMaking, IsDropping, check_root, with_root, MakesTable, MakesArea, MakesBlocks, roots_without, root_dropped, point_dropped, without_answer, check_point, MakesPoint, MakesPointIn, check_chain, MakesChain, check_pool, check_pool_on_chain, check_pool_of_size, MakesPool, MakesPoolOn, check_dependency, MakesDependency};
ghost use Rattle.mps_heap_spec.specs.Framing.{MakesPoolOfFrames};
ghost use Rattle.mps_heap_making.specs.Made.{IsMade};

use mps_base::{Kind, Name, Rank, Refusal};
use mps_format::{Format, Pool, is_copying};
use mps_heap_spec::{Kept, may_have_point, refuse_at_limit};
use mps_heap_state::State;
use mps_ld::Ld;
use mps_names::Thing;

/// How many roots, slots of all roots together, chains, points, pools and dependencies there may be.
const MAX_ROOTS: u32 = 256;

const MAX_SLOTS: u32 = 65_536;

const MAX_CHAINS: u32 = 16;

const MAX_POINTS: u32 = 256;

const MAX_POOLS: u32 = 64;

const MAX_DEPENDENCIES: u32 = 256;

/// The most words that a block may have.
const MAX_BLOCK_WORDS: u64 = 65_536;

/// Makes room for one more name.
fn make_room<F: Format>(state: &mut State<F>) -> Result<(), Refusal>
    ensures fits { OnOk result (0 < state.new.names.room) }
    ensures untouched { IsUntouched state.old state.new }
    ensures cause { IfErr result (λ why. why ≡ Refusal.OutOfMemory) }
{
    let Ok(()) = state.names.make_room() else {
        return Err(Refusal::OutOfMemory);
    };
    Ok(())
}

/// Refuses a root of n slots if its name is taken or it passes a limit.
fn check_root<F: Format>(state: &State<F>, name: Name, n: u32) -> Result<(), Refusal>
    ensures value { result ≡ check_root state.now name n }
    ensures free { OnOk result (thing_named state.now.names name ≡ None) }
    ensures few { OnOk result (state.now.live_roots < 256) }
    ensures fits { OnOk result (state.now.live_slots + n ≤ 65536) }
{
    state.names.refuse_taken(name)?;
    refuse_at_limit(state.live_roots, MAX_ROOTS)?;
    if state.live_slots.saturating_add(n as usize) > MAX_SLOTS as usize {
        return Err(Refusal::TooMany { limit: MAX_SLOTS });
    }
    Ok(())
}

/// A root of n slots has a name.
fn name_root<F: Format>(state: &mut State<F>, name: Name, thing: Thing, n: u32)
    requires free { thing_named state.old.names name ≡ None }
    requires room { 0 < room_for state.old.names thing }
    requires few { state.old.live_roots < 256 }
    requires fits { state.old.live_slots + n ≤ 65536 }
    ensures names { Updates state.old.names state.new.names name (Some thing) }
    ensures state { state.new ≡ with_root state.old state.old.roots state.new.names n }
{
    state.names.take(name, thing);
    state.live_roots += 1;
    state.live_slots += n as usize;
}

/// Makes a table of n slots, all null.
pub fn table<F: Format>(state: &mut State<F>, name: Name, n: u32) -> Result<usize, Refusal>
    ensures { IsMaking state.old (check_root state.old name n) (MakesTable state.old name n) result state.new }
{
    check_root(state, name, n)?;
    make_table(state, name, n)
}

fn make_table<F: Format>(state: &mut State<F>, name: Name, n: u32) -> Result<usize, Refusal>
    requires free { thing_named state.old.names name ≡ None }
    requires few { state.old.live_roots < 256 }
    requires fits { state.old.live_slots + n ≤ 65536 }
    ensures { IsMade state.old (MakesTable state.old name n) result state.new }
{
    make_room(state)?;
    let Ok(key) = state.roots.table(n) else {
        return Err(Refusal::OutOfMemory);
    };
    name_root(state, name, Thing::Table(key), n);
    Ok(key)
}

/// Makes an area of n words, all 0.
pub fn area<F: Format>(state: &mut State<F>, name: Name, n: u32) -> Result<usize, Refusal>
    ensures { IsMaking state.old (check_root state.old name n) (MakesArea state.old name n) result state.new }
{
    check_root(state, name, n)?;
    make_area(state, name, n)
}

fn make_area<F: Format>(state: &mut State<F>, name: Name, n: u32) -> Result<usize, Refusal>
    requires free { thing_named state.old.names name ≡ None }
    requires few { state.old.live_roots < 256 }
    requires fits { state.old.live_slots + n ≤ 65536 }
    ensures { IsMade state.old (MakesArea state.old name n) result state.new }
{
    make_room(state)?;
    let Ok(key) = state.roots.area(n) else {
        return Err(Refusal::OutOfMemory);
    };
    name_root(state, name, Thing::Area(key), n);
    Ok(key)
}

/// Makes a table of n places for manual blocks, all empty.
pub fn blocks<F: Format>(state: &mut State<F>, name: Name, n: u32) -> Result<usize, Refusal>
    ensures { IsMaking state.old (check_root state.old name n) (MakesBlocks state.old name n) result state.new }
{
    check_root(state, name, n)?;
    make_blocks(state, name, n)
}

fn make_blocks<F: Format>(state: &mut State<F>, name: Name, n: u32) -> Result<usize, Refusal>
    requires free { thing_named state.old.names name ≡ None }
    requires few { state.old.live_roots < 256 }
    requires fits { state.old.live_slots + n ≤ 65536 }
    ensures { IsMade state.old (MakesBlocks state.old name n) result state.new }
{
    make_room(state)?;
    let Ok(number) = state.roots.blocks(n) else {
        return Err(Refusal::OutOfMemory);
    };
    name_root(state, name, Thing::Blocks(number), n);
    Ok(number)
}

/// Drops the table under a key, if there is one, and returns how many slots it had.
fn drop_table<F: Format>(state: &mut State<F>, key: usize) -> Option<usize>
    ensures value { result ≡ option_map (λ left. left.1) (roots_without state.old (Some (thing.Table key))) }
    ensures state { state.new
        ≡ option_map_or (λ left. record state.old { roots = left.0 }) (roots_without state.old (Some (thing.Table key))) state.old }
{
    let n = state.roots.slots(key)?.len();
    state.roots.drop_table(key);
    Some(n)
}

/// Drops the area under a key, if there is one, and returns how many words it had.
fn drop_area<F: Format>(state: &mut State<F>, key: usize) -> Option<usize>
    ensures value { result ≡ option_map (λ left. left.1) (roots_without state.old (Some (thing.Area key))) }
    ensures state { state.new
        ≡ option_map_or (λ left. record state.old { roots = left.0 }) (roots_without state.old (Some (thing.Area key))) state.old }
{
    let n = state.roots.words(key)?.len();
    state.roots.drop_area(key);
    Some(n)
}

/// Drops the table or the area that a name represents, and returns how many slots it had.
fn drop_kept<F: Format>(state: &mut State<F>, thing: Option<Thing>) -> Option<usize>
    ensures value { result ≡ option_map (λ left. left.1) (roots_without state.old thing) }
    ensures state { state.new ≡ option_map_or (λ left. record state.old { roots = left.0 }) (roots_without state.old thing) state.old }
{
    match thing {
        Some(Thing::Table(key)) => drop_table(state, key),
        Some(Thing::Area(key)) => drop_area(state, key),
        _ => None,
    }
}

/// Drops a table or an area. Its name is free again. Refuses `BadName` for anything else.
pub fn drop_root<F: Format>(state: &mut State<F>, name: Name) -> Result<(), Refusal>
    ensures { IsDropping state.old name (root_dropped state.old name) result state.new }
{
    let thing = state.names.get(name);
    let Some(n) = drop_kept(state, thing) else {
        return Err(Refusal::BadName);
    };
    let _ = state.names.drop_name(name);
    state.live_roots = state.live_roots.saturating_sub(1);
    state.live_slots = state.live_slots.saturating_sub(n);
    Ok(())
}

/// The pool of a point that may be made.
fn check_point<F: Format>(
    state: &State<F>,
    name: Name,
    pool: Name,
    rank: Rank,
) -> Result<Kept<Pool<F>>, Refusal>
    ensures value { result ≡ check_point state.now name pool rank }
    ensures free { OnOk result (thing_named state.now.names name ≡ None) }
    ensures few { OnOk result (state.now.live_points < 256) }
{
    state.names.refuse_taken(name)?;
    let of = state.pool_named(pool)?;
    if !may_have_point(of.value, rank) {
        return Err(Refusal::WrongPool);
    }
    refuse_at_limit(state.live_points, MAX_POINTS)?;
    Ok(of)
}

/// Makes a point of a pool. Refuses `WrongPool` if the pool is manual, or can't have weak blocks and the rank is weak.
pub fn point<F: Format>(
    state: &mut State<F>,
    name: Name,
    pool: Name,
    rank: Rank,
) -> Result<usize, Refusal>
    ensures { IsMaking state.old (without_answer (check_point state.old name pool rank)) (MakesPointIn state.old name pool rank)
        result state.new }
{
    let of = check_point(state, name, pool, rank)?;
    make_point(state, name, of, rank)
}

fn make_point<F: Format>(
    state: &mut State<F>,
    name: Name,
    of: Kept<Pool<F>>,
    rank: Rank,
) -> Result<usize, Refusal>
    requires free { thing_named state.old.names name ≡ None }
    requires few { state.old.live_points < 256 }
    ensures { IsMade state.old (MakesPoint state.old name of rank) result state.new }
{
    make_room(state)?;
    let Ok(key) = state.points.add(of.key, rank, is_copying(of.value)) else {
        return Err(Refusal::OutOfMemory);
    };
    state.names.take(name, Thing::Point(key));
    state.live_points += 1;
    Ok(key as usize)
}

/// Drops a point. Its name is free again. Refuses `Open` if it has an open reservation.
pub fn drop_point<F: Format>(state: &mut State<F>, name: Name) -> Result<(), Refusal>
    ensures { IsDropping state.old name (point_dropped state.old name) result state.new }
{
    let point = state.point_named(name)?;
    if point.value.reservation.is_some() {
        return Err(Refusal::Open);
    }
    state.points.drop_point(point.key);
    let _ = state.names.drop_name(name);
    state.live_points = state.live_points.saturating_sub(1);
    Ok(())
}

/// Refuses a chain if its name is taken or there are 16.
fn check_chain<F: Format>(state: &State<F>, name: Name) -> Result<(), Refusal>
    ensures value { result ≡ check_chain state.now name }
    ensures free { OnOk result (thing_named state.now.names name ≡ None) }
    ensures few { OnOk result (length state.now.chains.chains < 16) }
{
    state.names.refuse_taken(name)?;
    refuse_at_limit(state.pools.chain_count(), MAX_CHAINS)
}

/// Makes a chain whose generations have these capacities, in grains. Refuses `NameTaken` if its name is taken, and `TooMany` if there are
/// 16.
pub fn chain<F: Format>(
    state: &mut State<F>,
    name: Name,
    capacities: &[u32],
) -> Result<usize, Refusal>
    requires nonempty { 0 < length capacities.now }
    requires at_most { length capacities.now ≤ 8 }
    ensures { IsMaking state.old (check_chain state.old name) (MakesChain state.old name capacities.now) result state.new }
{
    check_chain(state, name)?;
    make_chain(state, name, capacities)
}

fn make_chain<F: Format>(
    state: &mut State<F>,
    name: Name,
    capacities: &[u32],
) -> Result<usize, Refusal>
    requires free { thing_named state.old.names name ≡ None }
    requires few { length state.old.chains.chains < 16 }
    requires nonempty { 0 < length capacities.now }
    requires at_most { length capacities.now ≤ 8 }
    ensures { IsMade state.old (MakesChain state.old name capacities.now) result state.new }
{
    make_room(state)?;
    let Ok(number) = state.pools.chain(capacities) else {
        unreachable!()
    };
    state.names.take(name, Thing::Chain(number));
    Ok(number as usize)
}

/// Refuses a pool if its name is taken or there are 64.
fn check_pool<F: Format>(state: &State<F>, name: Name) -> Result<(), Refusal>
    ensures value { result ≡ check_pool state.now name }
    ensures free { OnOk result (thing_named state.now.names name ≡ None) }
    ensures few { OnOk result (length state.now.pools < 64) }
{
    state.names.refuse_taken(name)?;
    refuse_at_limit(state.pools.count(), MAX_POOLS)
}

/// Refuses a pool of blocks of one size if its name is taken, the size isn't 1 to 65,536 words, or there are 64 pools.
fn check_pool_of_size<F: Format>(state: &State<F>, name: Name, words: u64) -> Result<(), Refusal>
    ensures value { result ≡ check_pool_of_size state.now name words }
    ensures free { OnOk result (thing_named state.now.names name ≡ None) }
    ensures few { OnOk result (length state.now.pools < 64) }
    ensures at_most { OnOk result (words ≤ 65536) }
{
    state.names.refuse_taken(name)?;
    if words == 0 || words > MAX_BLOCK_WORDS {
        return Err(Refusal::BadSize);
    }
    refuse_at_limit(state.pools.count(), MAX_POOLS)
}

/// Makes a pool on a chain, or on none.
fn make_pool<F: Format>(
    state: &mut State<F>,
    name: Name,
    pool: Pool<F>,
    chain: Option<u32>,
) -> Result<usize, Refusal>
    requires free { thing_named state.old.names name ≡ None }
    requires few { length state.old.pools < 64 }
    requires known { ForSome chain (λ number. number < length state.old.chains.chains) }
    ensures { IsMade state.old (MakesPool state.old name pool chain) result state.new }
{
    let number = state.pools.count();
    make_room(state)?;
    let Ok(()) = state.pools.add(pool, chain) else {
        return Err(Refusal::OutOfMemory);
    };
    state.names.take(name, Thing::Pool(number as u32));
    Ok(number)
}

/// Makes an automatic pool on no chain.
pub fn pool<F: Format>(
    state: &mut State<F>,
    name: Name,
    kind: Kind,
    format: F,
) -> Result<usize, Refusal>
    ensures { IsMaking state.old (check_pool state.old name) (MakesPool state.old name (kind_of_pool.Automatic kind format) None)
        result state.new }
{
    check_pool(state, name)?;
    make_pool(state, name, Pool::Automatic { kind, format }, None)
}

/// The chain of a pool that may be made.
fn check_pool_on_chain<F: Format>(
    state: &State<F>,
    name: Name,
    chain: Name,
) -> Result<Kept<u32>, Refusal>
    ensures value { result ≡ check_pool_on_chain state.now name chain }
    ensures free { OnOk result (thing_named state.now.names name ≡ None) }
    ensures few { OnOk result (length state.now.pools < 64) }
    ensures known { IfOk result (λ on. on.key < length state.now.chains.chains) }
{
    state.names.refuse_taken(name)?;
    let on = state.chain_named(chain)?;
    refuse_at_limit(state.pools.count(), MAX_POOLS)?;
    Ok(on)
}

/// Makes an automatic pool on a chain. Refuses `NameTaken` if its name is taken, `BadName` if there is no such chain, and `TooMany` if
/// there are 64 pools.
pub fn pool_on_chain<F: Format>(
    state: &mut State<F>,
    name: Name,
    kind: Kind,
    format: F,
    chain: Name,
) -> Result<usize, Refusal>
    ensures { IsMaking state.old (without_answer (check_pool_on_chain state.old name chain))
        (MakesPoolOn state.old name chain (kind_of_pool.Automatic kind format)) result state.new }
{
    let on = check_pool_on_chain(state, name, chain)?;
    make_pool(state, name, Pool::Automatic { kind, format }, Some(on.key))
}

/// Makes a manual pool of blocks of one size. Refuses `BadSize` if that isn't 1 to 65,536 words.
pub fn pool_mfs<F: Format>(state: &mut State<F>, name: Name, words: u64) -> Result<usize, Refusal>
    ensures { IsMaking state.old (check_pool_of_size state.old name words) (MakesPool state.old name (kind_of_pool.OneSize words) None)
        result state.new }
{
    check_pool_of_size(state, name, words)?;
    let words = words as u32;
    make_pool(state, name, Pool::OneSize { words }, None)
}

/// Makes a manual pool of blocks of any sizes.
pub fn pool_mvff<F: Format>(state: &mut State<F>, name: Name) -> Result<usize, Refusal>
    ensures { IsMaking state.old (check_pool state.old name) (MakesPool state.old name kind_of_pool.AnySize None) result state.new }
{
    check_pool(state, name)?;
    make_pool(state, name, Pool::AnySize, None)
}

/// Makes a manual pool of blocks of any sizes that go by frames, of which none is open.
pub fn pool_snc<F: Format>(state: &mut State<F>, name: Name) -> Result<usize, Refusal>
    ensures { IsMaking state.old (check_pool state.old name) (MakesPoolOfFrames state.old name) result state.new }
{
    check_pool(state, name)?;
    make_pool_of_frames(state, name)
}

/// Makes a pool of blocks of any sizes, and has it be one of frames. The room of its frames is taken first.
fn make_pool_of_frames<F: Format>(state: &mut State<F>, name: Name) -> Result<usize, Refusal>
    requires free { thing_named state.old.names name ≡ None }
    requires few { length state.old.pools < 64 }
    ensures { IsMade state.old (MakesPoolOfFrames state.old name) result state.new }
{
    let Ok(made) = state.beside.frames.new_pool() else {
        return Err(Refusal::OutOfMemory);
    };
    let number = make_pool(state, name, Pool::AnySize, None)?;
    state.beside.frames.add_pool(number as u32, made);
    Ok(number)
}

/// Refuses a dependency if its name is taken or there are 256.
fn check_dependency<F: Format>(state: &State<F>, name: Name) -> Result<(), Refusal>
    ensures value { result ≡ check_dependency state.now name }
    ensures free { OnOk result (thing_named state.now.names name ≡ None) }
    ensures few { OnOk result (length state.now.dependencies < 256) }
{
    state.names.refuse_taken(name)?;
    refuse_at_limit(state.dependencies.len(), MAX_DEPENDENCIES)
}

/// Makes a dependency on nothing.
pub fn ld<F: Format>(state: &mut State<F>, name: Name) -> Result<usize, Refusal>
    ensures { IsMaking state.old (check_dependency state.old name) (MakesDependency state.old name) result state.new }
{
    check_dependency(state, name)?;
    make_dependency(state, name)
}

fn make_dependency<F: Format>(state: &mut State<F>, name: Name) -> Result<usize, Refusal>
    requires free { thing_named state.old.names name ≡ None }
    requires few { length state.old.dependencies < 256 }
    ensures { IsMade state.old (MakesDependency state.old name) result state.new }
{
    let number = state.dependencies.len();
    make_room(state)?;
    let Ok(()) = state.dependencies.push(Ld::new(&state.epochs)) else {
        return Err(Refusal::OutOfMemory);
    };
    state.names.take(name, Thing::Dependency(number as u32));
    Ok(number)
}
