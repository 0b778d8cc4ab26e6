// The calls on allocation caches.
ghost use Rattle.std.specs.Prelude.{◌≡◌, ◌*◌, ◌<◌, ◌≤◌, None, Some, IfOk, OnOk, Contains, length, slice_index};
ghost use Rattle.std.specs.List.{All};
ghost use Rattle.mps_base.specs.Address.{word_of};
ghost use Rattle.mps_names.specs.State.{thing_named};
ghost use Rattle.mps_root.specs.State.{HasPlace};
ghost use Rattle.mps_sac.specs.State.{blocks_of_size, classes_of, count_in, last_of, max_caches, max_cached, max_cached_in_all, max_classes, next_blocks, without_last_of_size, without_next};
ghost use Rattle.std.specs.Option.{MatchOption};
ghost use Rattle.mps_heap_spec.specs.Caching.{IsCacheFree, IsCacheMaking, are_class_sizes, block_from_cache, cache_flushed, cache_named, check_cache, kept_from, may_have_cache, moves_of_flush, taken_into, with_cached, words_cleared};
ghost use Rattle.mps_heap_spec.specs.Coming.{ComesMoving};
ghost use Rattle.mps_heap_spec.specs.Finding.{with_words};
ghost use Rattle.mps_heap_caching.specs.Flushed.{flushed_from};

use mps_base::{Addr, Name, Refusal, Slot, Trail};
use mps_format::{Format, Pool};
use mps_heap_manual::manual::{block_in, free_block, set_place};
use mps_heap_spec::{Entry, Kept, pool_of_segment};
use mps_heap_state::State;
use mps_names::Thing;
use mps_sac::ClassSize;

/// How many caches there may be.
const MAX_CACHES: u32 = 16;

/// The most words that a block may have.
const MAX_BLOCK_WORDS: u32 = 65_536;

/// Whether the sizes of classes rise, from above a size, and are those of blocks.
fn are_class_sizes(above: u32, classes: &[ClassSize]) -> bool
    ensures { result ≡ are_class_sizes above classes.now }
{
    match classes.split_first() {
        None => true,
        Some((class, rest)) => {
            let words = class.words;
            above < words && 1 <= words && words <= MAX_BLOCK_WORDS && are_class_sizes(words, rest)
        }
    }
}

/// Whether a cache may stand over a pool with a number: one of blocks of any sizes, which isn't one of frames.
fn may_have_cache<F: Format>(state: &State<F>, number: u32, pool: Pool<F>) -> bool
    ensures { result ≡ may_have_cache state.now (record { key = number; value = pool }) }
{
    matches!(pool, Pool::AnySize) && !state.beside.frames.is_pool(number)
}

/// The pool of a cache that may be made.
fn check_cache<F: Format>(
    state: &State<F>,
    name: Name,
    pool: Name,
    classes: &[ClassSize],
) -> Result<Kept<Pool<F>>, Refusal>
    ensures value { result ≡ check_cache state.now name pool classes.now }
    ensures free { OnOk result (thing_named state.now.names name ≡ None) }
    ensures few { OnOk result (length state.now.beside.caches < max_caches) }
    ensures fits { OnOk result (state.now.names.counts.caches < max_caches) }
{
    state.names.refuse_taken(name)?;
    let of = state.pool_named(pool)?;
    if !may_have_cache(state, of.key, of.value) {
        return Err(Refusal::WrongPool);
    }
    if !are_class_sizes(0, classes) {
        return Err(Refusal::BadSize);
    }
    let count = state.beside.caches.count();
    if count >= MAX_CACHES || !state.names.has_own_room_for(Thing::Cache(count)) {
        return Err(Refusal::TooMany { limit: MAX_CACHES });
    }
    Ok(of)
}

/// Makes a cache over a pool of blocks of any sizes, with classes of these sizes, all empty. Refuses `NameTaken`, `BadName` if there is no
/// such pool, `WrongPool` if it hasn't blocks of any sizes or is one of frames, `BadSize` if the sizes don't rise or one isn't 1 to
/// 65,536, and `TooMany` if there are 16 caches.
pub fn cache<F: Format>(
    state: &mut State<F>,
    name: Name,
    pool: Name,
    classes: &[ClassSize],
) -> Result<(), Refusal>
    requires few { length classes.now ≤ max_classes }
    requires limits { All (λ size. size.limit ≤ max_cached) classes.now }
    ensures outcome { IsCacheMaking state.old name pool classes.now result state.new }
{
    let of = check_cache(state, name, pool, classes)?;
    let number = state.beside.caches.add(of.key, classes);
    state.names.take(name, Thing::Cache(number));
    Ok(())
}

/// The cache that has a name, with the number of its pool.
fn cache_named<F: Format>(state: &State<F>, name: Name) -> Result<Kept<u32>, Refusal>
    ensures value { result ≡ cache_named state.now name }
    ensures there { IfOk result (λ q. q.key < length state.now.beside.caches) }
{
    let Some(key) = state.names.cache(name) else {
        return Err(Refusal::BadName);
    };
    if key >= state.beside.caches.count() {
        return Err(Refusal::BadName);
    }
    Ok(Kept {
        key,
        value: state.beside.caches.pool(key),
    })
}

/// Puts the block that was cached last in a cache's class of `words` words into a place, with all words 0. If the class is missing or
/// empty, makes a block in the cache's pool, as `alloc` does. Refuses `BadName` if there is no such cache, `BadSize` if the size
/// isn't 1 to 65,536, `NameTaken` if the place has a block, and `CommitLimit` and `NoRun` if a new block has no room.
pub fn calloc<F: Format>(
    state: &mut State<F>,
    trail: &mut Trail,
    cache: Name,
    words: u64,
    place: Slot,
) -> Result<(), Refusal>
    requires { 1 < trail.old.spare }
    ensures { ComesMoving state.old trail.old (block_from_cache state.old trail.old cache words place) result state.new trail.new }
{
    let from = cache_named(state, cache)?;
    let into = state.block_place_in(place)?;
    take_into(state, trail, from, words, into)
}

/// The same, once the cache and the place were found.
fn take_into<F: Format>(
    state: &mut State<F>,
    trail: &mut Trail,
    from: Kept<u32>,
    words: u64,
    into: Entry<u64>,
) -> Result<(), Refusal>
    requires place { HasPlace state.old.roots.blocks into.key into.index }
    requires there { from.key < length state.old.beside.caches }
    requires fits { 1 < trail.old.spare }
    ensures { ComesMoving state.old trail.old (taken_into state.old trail.old from words into) result state.new trail.new }
{
    let Some(takes) = state.pools.manual().takes(from.value, words) else {
        return Err(Refusal::BadName);
    };
    if !takes {
        return Err(Refusal::BadSize);
    }
    if into.value != 0 {
        return Err(Refusal::NameTaken);
    }
    let words = words as u32;
    let Some(at) = take_cached(state, from.key, words) else {
        let manual = state.pools.manual();
        let at = manual.alloc(&mut state.segs, trail, from.value, words)?;
        set_place(state, into, at.0);
        return Ok(());
    };
    clear(state, at, words);
    set_place(state, into, at.0);
    Ok(())
}

/// Takes the block that was cached last in a cache's class of a size; nothing changes if there is none.
#[tactic(auto, using(crate::proofs::Outcomes::nothing_taken))]
fn take_cached<F: Format>(state: &mut State<F>, number: u32, words: u32) -> Option<Addr>
    requires { number < length state.old.beside.caches }
    ensures value { MatchOption result (last_of (blocks_of_size (classes_of state.old.beside.caches number) words) ≡ None)
        (λ at. last_of (blocks_of_size (classes_of state.old.beside.caches number) words) ≡ Some at.0) }
    ensures state { MatchOption result (state.new ≡ state.old)
        (λ _. state.new ≡ with_cached state.old number (without_last_of_size (classes_of state.old.beside.caches number) words)) }
{
    state.beside.caches.take(number, words)
}

/// Writes 0 in n words from an address on, if the arena has them.
fn clear<F: Format>(state: &mut State<F>, at: Addr, n: u32)
    requires { 0 < n }
    ensures { state.new ≡ with_words state.old (words_cleared state.old.segs.words at.0 n) }
{
    let last = at.word() + n as usize - 1;
    if state.segs.item(last).is_some() {
        state.segs.clear(at, n);
    }
}

/// Caches the block in a place, or frees it if the class of its size is missing or full; the place is empty then. Refuses `BadName` if
/// there is no such cache, `NotABlock` if the place is empty, and `WrongPool` if the block isn't of the cache's pool.
pub fn cfree<F: Format>(
    state: &mut State<F>,
    trail: &mut Trail,
    cache: Name,
    place: Slot,
) -> Result<(), Refusal>
    requires { 1 < trail.old.spare }
    ensures outcome { IsCacheFree state.old trail.old cache place result state.new trail.new }
{
    let into = cache_named(state, cache)?;
    let from = state.block_place_in(place)?;
    let at = block_in(state, from)?;
    let words = state.segs.block_words(Addr(at));
    keep_from(state, trail, into, words, from, at)
}

/// The same, once the cache, the place and its block of n words were found.
fn keep_from<F: Format>(
    state: &mut State<F>,
    trail: &mut Trail,
    into: Kept<u32>,
    words: u32,
    from: Entry<u64>,
    at: u64,
) -> Result<(), Refusal>
    requires place { HasPlace state.old.roots.blocks from.key from.index }
    requires there { into.key < length state.old.beside.caches }
    requires block { Contains state.old.segs.blocks (record { from = word_of at; count = words }) }
    requires fits { 1 < trail.old.spare }
    ensures { ComesMoving state.old trail.old (kept_from state.old trail.old into words from at) result state.new trail.new }
{
    let Some(pool) = pool_of_segment(&state.segs, at) else {
        return Err(Refusal::NotABlock);
    };
    if pool != into.value {
        return Err(Refusal::WrongPool);
    }
    if pool as usize >= state.pools.manual().pools() {
        return Err(Refusal::NotABlock);
    }
    if !state.beside.caches.keep(into.key, words, Addr(at)) {
        let manual = state.pools.manual();
        manual.free(&mut state.segs, trail, pool, Addr(at));
    }
    set_place(state, from, 0);
    Ok(())
}

/// How many moves a flush of a cache needs room for: two for each block that it has; 0 if there is no such cache.
pub fn moves_of_cflush<F: Format>(state: &State<F>, cache: Name) -> u32
    ensures value { result ≡ moves_of_flush state.now cache }
    ensures at_most { result ≤ 2 * max_cached_in_all }
{
    match cache_named(state, cache) {
        Ok(of) => 2 * state.beside.caches.cached(of.key),
        Err(_) => 0,
    }
}

/// Frees all blocks of a cache, class by class, the one cached last first. Refuses `BadName` if there is no such cache. The trail has room
/// for `moves_of_cflush`.
pub fn cflush<F: Format>(
    state: &mut State<F>,
    trail: &mut Trail,
    cache: Name,
) -> Result<(), Refusal>
    requires fits { moves_of_flush state.old cache ≤ trail.old.spare }
    ensures outcome { ComesMoving state.old trail.old (cache_flushed state.old trail.old cache) result state.new trail.new }
{
    let of = cache_named(state, cache)?;
    if of.value as usize >= state.pools.manual().pools() {
        return Err(Refusal::BadName);
    }
    flush(state, trail, of.key, of.value);
    Ok(())
}

/// Frees all blocks of the cache with a number, which stands over the pool with a number.
fn flush<F: Format>(state: &mut State<F>, trail: &mut Trail, number: u32, pool: u32)
    requires there { number < length state.old.beside.caches }
    requires listed { pool < length state.old.sizes }
    requires fits { 2 * count_in (classes_of state.old.beside.caches number) ≤ trail.old.spare }
    ensures state { state.new ≡ (flushed_from (slice_index state.old.sizes pool) number state.old trail.old).state }
    ensures moves { trail.new ≡ (flushed_from (slice_index state.old.sizes pool) number state.old trail.old).trail }
{
    while let Some(at) = take_next(state, number) {
        free_block(state, trail, pool, at.0);
    }
}

/// Takes the block that a flush of the cache with a number frees next; nothing changes if there is none.
#[tactic(auto, using(crate::proofs::Flushing::nothing_next))]
fn take_next<F: Format>(state: &mut State<F>, number: u32) -> Option<Addr>
    requires { number < length state.old.beside.caches }
    ensures value { MatchOption result (last_of (next_blocks (classes_of state.old.beside.caches number)) ≡ None)
        (λ at. last_of (next_blocks (classes_of state.old.beside.caches number)) ≡ Some at.0) }
    ensures state { MatchOption result (state.new ≡ state.old)
        (λ _. state.new ≡ with_cached state.old number (without_next (classes_of state.old.beside.caches number))) }
{
    state.beside.caches.next(number)
}
