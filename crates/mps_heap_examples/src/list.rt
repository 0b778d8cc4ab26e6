// A list of numbers in a heap.
ghost use Rattle.std.specs.Prelude.{◌≡◌, ◌+◌, ◌*◌, ◌%◌, ◌^◌, ◌<◌, ◌≤◌, if◌then◌else◌, IfOk, IfSome, IsTrue, Some, ℕ, List, [], ◌∷◌, length, take};
ghost use Rattle.std.specs.List.{sum};
ghost use Rattle.mps_heap.specs.Collect.{most_moves};
ghost use Rattle.mps_heap.specs.Keys.{table_name};
ghost use Rattle.mps_heap.specs.RightMoving.{KeepsRoom};
ghost use Rattle.mps_heap_examples.specs.Listed.{HasLiveNumbers, HasNumbers, MayHaveNumbers};
ghost use Rattle.mps_laws.specs.Held.{letter, slot_of_t};

use crate::Tail;
use mps_base::{Kind, Name, Rank, Refusal, Slot, Trail};
use mps_heap::{Heap, KeyedSlot, TableKey};
use std::alloc::{AllocError, Global};

/// The head of an item: four words, of which cell 1 is its number, cell 2 the next item, and cell 3 null.
pub const HEAD: u64 = 33;

/// The cell of an item's number.
pub const NUMBER: u64 = 1;

/// The cell of the next item.
pub const NEXT: u64 = 2;

/// The tag of the reference to the next item in an item that is marked.
const MARKED: u8 = 1;

/// The name that has one letter.
pub const fn named(code: u8) -> Name
    ensures { result ≡ letter code }
{
    Name {
        bytes: [code, 0, 0, 0, 0, 0, 0, 0, 0, 0, 0, 0, 0, 0, 0, 0],
    }
}

/// The slot that refers to the first item of the list.
pub fn first() -> Slot
    ensures { result ≡ slot_of_t 0 }
{
    Slot {
        name: named(b't'),
        index: 0,
    }
}

/// The slot that goes along the list.
pub fn cursor() -> Slot
    ensures { result ≡ slot_of_t 1 }
{
    Slot {
        name: named(b't'),
        index: 1,
    }
}

/// Makes what the list needs, which is empty: a pool of its items, two slots, and a point.
pub fn make(heap: &mut Heap<Tail>) -> Result<(), Refusal>
    ensures grains { heap.new.segs.grains ≡ heap.old.segs.grains }
    ensures empty { MayHaveNumbers heap.old → IfOk result (λ done. HasNumbers heap.new []) }
{
    heap.pool(named(b'p'), Kind::Amc, Tail)?;
    heap.table(named(b't'), 2)?;
    heap.point(named(b'x'), named(b'p'), Rank::Exact)
}

/// Puts a number before the others; false, and nothing is done, if the heap can't count one flip more, as its poll may flip. A trail is
/// emptied before each call that may move, so that its whole room is spare. It is enough for a collection and one move more.
pub fn push(heap: &mut Heap<Tail>, trail: &mut Trail, number: u64) -> Result<bool, Refusal>
    requires room { most_moves heap.old.segs.grains < trail.old.spare + length trail.old.moves }
    ensures room { KeepsRoom trail.old trail.new }
    ensures grains { heap.new.segs.grains ≡ heap.old.segs.grains }
    ensures pushed { (numbers : List ℕ) → HasNumbers heap.old numbers → IfOk result (λ done.
        HasNumbers heap.new (if done then number ∷ numbers else numbers)) }
{
    if !heap.can_collect() {
        return Ok(false);
    }
    let point = named(b'x');
    trail.clear();
    heap.reserve(trail, point, HEAD)?;
    heap.init_num(point, NUMBER, number)?;
    heap.init_ref(point, NEXT, first())?;
    trail.clear();
    let _ = heap.commit(trail, point, first())?;
    Ok(true)
}

/// Drops the first item. The whole room of the trail is enough for a collection.
pub fn pop(heap: &mut Heap<Tail>, trail: &mut Trail) -> Result<(), Refusal>
    requires room { most_moves heap.old.segs.grains ≤ trail.old.spare + length trail.old.moves }
    ensures room { KeepsRoom trail.old trail.new }
    ensures grains { heap.new.segs.grains ≡ heap.old.segs.grains }
    ensures popped { (number : ℕ) (numbers : List ℕ) → HasNumbers heap.old (number ∷ numbers) → IfOk result (λ done.
        HasNumbers heap.new numbers) }
{
    trail.clear();
    heap.get(trail, first(), first(), NEXT)
}

/// Marks the first items of the list up to one that is marked, at most `most` of them, and returns how many they are. As items come
/// before the others, these are the new ones. A mark is the tag of the reference to the next item: it takes no word of an item, and
/// stays where the item moves.
pub fn mark_new(heap: &mut Heap<Tail>, trail: &mut Trail, most: u64) -> Result<u64, Refusal>
    requires room { most_moves heap.old.segs.grains ≤ trail.old.spare + length trail.old.moves }
    ensures room { KeepsRoom trail.old trail.new }
    ensures grains { heap.new.segs.grains ≡ heap.old.segs.grains }
{
    heap.copy(cursor(), first())?;
    for count in 0..most {
        if heap.is_null(cursor())? || heap.tag(cursor(), NEXT)? == MARKED {
            return Ok(count);
        }
        heap.set_tag(cursor(), NEXT, MARKED)?;
        trail.clear();
        heap.get(trail, cursor(), cursor(), NEXT)?;
    }
    Ok(most)
}

/// Collects all that was dropped, if that can be done, with a trail that has room for what is there. Returns whether it was done. Each
/// item of the list is live then.
pub fn collect(alloc: Global, heap: &mut Heap<Tail>) -> Result<bool, AllocError>
    ensures grains { heap.new.segs.grains ≡ heap.old.segs.grains }
    ensures kept { (numbers : List ℕ) → HasNumbers heap.old numbers → HasNumbers heap.new numbers }
    ensures live { (numbers : List ℕ) → HasNumbers heap.old numbers → IfOk result (λ done. IsTrue done → HasLiveNumbers heap.new numbers) }
{
    if !heap.can_collect() {
        return Ok(false);
    }
    let mut trail = Trail::new(alloc, 2 * heap.moves_needed())?;
    heap.collect(&mut trail);
    Ok(true)
}

/// Collects up to `times` times with one trail, and returns how often. The whole room of the trail is enough for each, since the arena
/// stays as large as it is.
pub fn collect_often(heap: &mut Heap<Tail>, trail: &mut Trail, times: u64) -> u64
    requires room { 2 * most_moves heap.old.segs.grains ≤ trail.old.spare + length trail.old.moves }
    ensures room { KeepsRoom trail.old trail.new }
    ensures grains { heap.new.segs.grains ≡ heap.old.segs.grains }
    ensures kept { (numbers : List ℕ) → HasNumbers heap.old numbers → HasNumbers heap.new numbers }
{
    for done in 0..times {
        if !heap.can_collect() {
            return done;
        }
        trail.clear();
        heap.collect(trail);
    }
    times
}

/// The sum of the first numbers of the list, at most `most` of them, modulo 2^64. This is a runtime's inner loop: it takes no memory, and
/// each call in it is a few look-ups.
pub fn sum(heap: &mut Heap<Tail>, trail: &mut Trail, most: u64) -> Result<u64, Refusal>
    requires room { most_moves heap.old.segs.grains ≤ trail.old.spare + length trail.old.moves }
    ensures room { KeepsRoom trail.old trail.new }
    ensures grains { heap.new.segs.grains ≡ heap.old.segs.grains }
    ensures summed { (numbers : List ℕ) → HasNumbers heap.old numbers → IfOk result (λ total.
        (total ≡ sum (take most numbers) % 2 ^ 64) × HasNumbers heap.new numbers) }
{
    let cursor = cursor();
    let mut total = 0u64;
    heap.copy(cursor, first())?;
    for count in 0..most {
        if heap.is_null(cursor)? {
            return Ok(total);
        }
        total = total.wrapping_add(heap.num(cursor, NUMBER)?);
        trail.clear();
        heap.get(trail, cursor, cursor, NEXT)?;
    }
    Ok(total)
}

/// `sum` by the key of the list's table: no name is looked for in it. As no call in it makes the key stale, it is as good at the end as
/// it was.
pub fn sum_by_key(
    heap: &mut Heap<Tail>,
    trail: &mut Trail,
    table: TableKey,
    most: u64,
) -> Result<u64, Refusal>
    requires room { most_moves heap.old.segs.grains ≤ trail.old.spare + length trail.old.moves }
    ensures room { KeepsRoom trail.old trail.new }
    ensures grains { heap.new.segs.grains ≡ heap.old.segs.grains }
    ensures good { table_name heap.new.names.keys table ≡ table_name heap.old.names.keys table }
    ensures summed { table_name heap.old.names.keys table ≡ Some (letter 116) → (numbers : List ℕ) → HasNumbers heap.old numbers
        → IfOk result (λ total. (total ≡ sum (take most numbers) % 2 ^ 64) × HasNumbers heap.new numbers) }
{
    let first = KeyedSlot { table, index: 0 };
    let cursor = KeyedSlot { table, index: 1 };
    let mut total = 0u64;
    heap.copy_by_key(cursor, first)?;
    for count in 0..most {
        if heap.is_null_by_key(cursor)? {
            return Ok(total);
        }
        total = total.wrapping_add(heap.num_by_key(cursor, NUMBER)?);
        trail.clear();
        heap.get_by_key(trail, cursor, cursor, NEXT)?;
    }
    Ok(total)
}

/// Puts two numbers into the list, with up to a hundred collections after each, and returns the sum of the first two; none if the heap
/// can't count the flips of that. One trail serves for all of it.
pub fn sum_of_two(
    heap: &mut Heap<Tail>,
    trail: &mut Trail,
    one: u64,
    other: u64,
) -> Result<Option<u64>, Refusal>
    requires room { 2 * most_moves heap.old.segs.grains < trail.old.spare + length trail.old.moves }
    ensures room { KeepsRoom trail.old trail.new }
    ensures grains { heap.new.segs.grains ≡ heap.old.segs.grains }
    ensures summed { (numbers : List ℕ) → HasNumbers heap.old numbers → IfOk result (λ found. IfSome found (λ total.
        total ≡ (one + other) % 2 ^ 64)) }
    ensures pushed { (numbers : List ℕ) → HasNumbers heap.old numbers → IfOk result (λ found. IfSome found (λ total.
        HasNumbers heap.new (other ∷ one ∷ numbers))) }
{
    if !push(heap, trail, one)? {
        return Ok(None);
    }
    collect_often(heap, trail, 100);
    if !push(heap, trail, other)? {
        return Ok(None);
    }
    collect_often(heap, trail, 100);
    let total = sum(heap, trail, 2)?;
    Ok(Some(total))
}
