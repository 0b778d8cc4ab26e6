// A heap over a format that isn't one of the three, through all of its life; and the words that a heap lends.
ghost use Rattle.std.specs.Prelude.{◌≡◌, ◌+◌, IfOk, []};
ghost use Rattle.mps_heap.specs.Collect.{most_moves};

use crate::list::named;
use crate::{
    HEAD, Tail, add_to_first, collect, collect_often, find_again, is_where_noted, make, mark_new,
    note_first, pin_and_collect, pop, push, read_second, set_and_collect, set_first, sum,
    sum_by_key, sum_of_two,
};
use mps_base::{Addr, Kind, Rank, Refusal, Slot, Trail};
use mps_format::{Format, Leaf};
use mps_heap::{Heap, KeyedSlot, KeyedWord, TableKey};
use std::alloc::{AllocError, Global};
use std::process::Abort;

/// A slot of the table `t`.
fn slot(index: u64) -> Slot {
    Slot {
        name: named(b't'),
        index,
    }
}

/// A place of the table of blocks `b`.
fn place(index: u64) -> Slot {
    Slot {
        name: named(b'b'),
        index,
    }
}

/// Allocates a block in a place, with a trail of its own.
fn allocate(alloc: Global, heap: &mut Heap<Tail>, words: u64, at: Slot) -> Result<(), Refusal> {
    let mut trail = Trail::new(alloc, 2).map_err(|_| Refusal::OutOfMemory)?;
    heap.alloc(&mut trail, named(b'v'), words, at)
}

/// A trail with room for what a call on the heap may move.
fn trail_for<F: Format>(alloc: Global, heap: &Heap<F>) -> Result<Trail, Refusal>
    ensures { IfOk result (λ trail. trail ≡ record { moves = []; spare = most_moves heap.now.segs.grains + 1 }) }
{
    Trail::new(alloc, heap.most_moves() + 1).map_err(|_| Refusal::OutOfMemory)
}

/// The sum of the first numbers of the list, with a trail of its own.
fn sum_of(alloc: Global, heap: &mut Heap<Tail>, most: u64) -> Result<u64, Refusal> {
    let mut trail = trail_for(alloc, heap)?;
    sum(heap, &mut trail, most)
}

/// The same by the key of the list's table.
fn sum_with(
    alloc: Global,
    heap: &mut Heap<Tail>,
    table: TableKey,
    most: u64,
) -> Result<u64, Refusal> {
    let mut trail = trail_for(alloc, heap)?;
    sum_by_key(heap, &mut trail, table, most)
}

/// Pushes a number by the keys of the list's table and point, with a trail of its own.
fn push_by_key(alloc: Global, heap: &mut Heap<Tail>, number: u64) -> Result<bool, Refusal> {
    let mut trail = trail_for(alloc, heap)?;
    let Some(table) = heap.table_key(named(b't')) else {
        return Ok(false);
    };
    let Some(point) = heap.point_key(named(b'x')) else {
        return Ok(false);
    };
    if !heap.can_collect() {
        return Ok(false);
    }
    let first = KeyedSlot { table, index: 0 };
    heap.reserve_by_key(&mut trail, point, HEAD)?;
    heap.init_num_by_key(point, 1, number)?;
    heap.init_ref_by_key(point, 2, first)?;
    trail.clear();
    let _ = heap.commit_by_key(&mut trail, point, first)?;
    Ok(true)
}

/// Drops the first item, with a trail of its own.
fn pop_one(alloc: Global, heap: &mut Heap<Tail>) -> Result<(), Refusal> {
    let mut trail = trail_for(alloc, heap)?;
    pop(heap, &mut trail)
}

/// Marks the new items, with a trail of its own.
fn mark(alloc: Global, heap: &mut Heap<Tail>, most: u64) -> Result<u64, Refusal> {
    let mut trail = trail_for(alloc, heap)?;
    mark_new(heap, &mut trail, most)
}

/// Pushes the numbers 1 to 5, with one trail.
fn push_five(alloc: Global, heap: &mut Heap<Tail>) -> Result<bool, Refusal> {
    let mut trail = trail_for(alloc, heap)?;
    push(heap, &mut trail, 1)?;
    push(heap, &mut trail, 2)?;
    push(heap, &mut trail, 3)?;
    push(heap, &mut trail, 4)?;
    push(heap, &mut trail, 5)
}

/// A list is made, read and changed.
fn use_list(rt: &impl Abort, alloc: Global, heap: &mut Heap<Tail>) {
    assert!(rt; make(heap).is_ok());
    assert!(rt; sum_of(alloc, heap, 10) == Ok(0));
    assert!(rt; push_five(alloc, heap) == Ok(true));
    assert!(rt; sum_of(alloc, heap, 10) == Ok(15));
    assert!(rt; sum_of(alloc, heap, 2) == Ok(9));
    assert!(rt; heap.head(slot(0)) == Ok(HEAD));
    assert!(rt; heap.set_num(slot(0), 1, 20) == Ok(()));
    assert!(rt; heap.put(slot(0), 3, slot(0)) == Ok(()));
    assert!(rt; heap.put(slot(0), 1, slot(0)) == Err(Refusal::NotARef));
    assert!(rt; heap.num(slot(0), 3) == Err(Refusal::NotANumber));
    assert!(rt; sum_of(alloc, heap, 10) == Ok(30));
    assert!(rt; heap.lend_leaf(slot(0)) == Err(Refusal::WrongPool));
    assert!(rt; heap.live() == (5, 20));
}

/// Labels are made, and an object is labelled.
fn use_labels(rt: &impl Abort, heap: &mut Heap<Tail>) {
    assert!(rt; heap.intern(named(b'l')) == Ok(0));
    assert!(rt; heap.intern(named(b'm')) == Ok(1));
    assert!(rt; heap.intern(named(b'l')) == Err(Refusal::NameTaken));
    assert!(rt; heap.label(slot(0), named(b'm')) == Ok((Addr(0x1080), 1)));
    assert!(rt; heap.label(slot(1), named(b'n')) == Err(Refusal::NullRef));
    assert!(rt; heap.label(slot(0), named(b't')) == Err(Refusal::BadName));
}

/// The words of a manual block are borrowed, and written by a loan.
fn use_block(rt: &impl Abort, alloc: Global, heap: &mut Heap<Tail>) {
    assert!(rt; heap.pool_mvff(named(b'v')) == Ok(()));
    assert!(rt; heap.blocks(named(b'b'), 2) == Ok(()));
    assert!(rt; heap.lend(place(0)) == Err(Refusal::NotABlock));
    assert!(rt; heap.lend(place(2)) == Err(Refusal::BadIndex));
    assert!(rt; heap.lend(slot(0)) == Err(Refusal::BadName));
    assert!(rt; allocate(alloc, heap, 4, place(0)) == Ok(()));
    assert!(rt; allocate(alloc, heap, 2, place(1)) == Ok(()));
    assert!(rt; heap.store(place(0), 2, 9) == Ok(()));
    assert!(rt; heap.lend(place(0)) == Ok(&[0, 0, 9, 0]));
    let filled = heap.lend_mut(place(0), |words: &mut [u64]| {
        words.fill(7);
        words.len()
    });
    assert!(rt; filled == Ok(4));
    assert!(rt; heap.load(place(0), 3) == Ok(7));
    assert!(rt; heap.lend(place(1)) == Ok(&[0, 0]));
}

/// Allocates a block of a pool of frames in a place, and frees what is there, each with a trail of its own.
fn allocate_framed(alloc: Global, heap: &mut Heap<Tail>, at: Slot) -> Result<(), Refusal> {
    let mut trail = Trail::new(alloc, 2).map_err(|_| Refusal::OutOfMemory)?;
    heap.alloc(&mut trail, named(b's'), 3, at)
}

fn free_one(alloc: Global, heap: &mut Heap<Tail>, at: Slot) -> Result<(), Refusal> {
    let mut trail = Trail::new(alloc, 2).map_err(|_| Refusal::OutOfMemory)?;
    heap.free(&mut trail, at)
}

/// Closes a frame of the pool `s`, with a trail of its own.
fn close(alloc: Global, heap: &mut Heap<Tail>, frame: u64) -> Result<(), Refusal> {
    let pool = named(b's');
    let room = heap.moves_of_pop(pool, frame);
    let mut trail = Trail::new(alloc, room).map_err(|_| Refusal::OutOfMemory)?;
    heap.pop(&mut trail, pool, frame)
}

/// Frames of a pool are opened and closed, and a block of it isn't freed alone.
fn use_frames(rt: &impl Abort, alloc: Global, heap: &mut Heap<Tail>) {
    assert!(rt; heap.pool_snc(named(b's')) == Ok(()));
    assert!(rt; heap.pool_snc(named(b's')) == Err(Refusal::NameTaken));
    assert!(rt; heap.push(named(b's')) == Ok(0));
    assert!(rt; heap.push(named(b's')) == Ok(1));
    assert!(rt; heap.push(named(b'v')) == Err(Refusal::WrongPool));
    assert!(rt; heap.push(named(b'b')) == Err(Refusal::BadName));
    assert!(rt; allocate_framed(alloc, heap, place(1)) == Err(Refusal::NameTaken));
    assert!(rt; free_one(alloc, heap, place(1)) == Ok(()));
    assert!(rt; allocate_framed(alloc, heap, place(1)) == Ok(()));
    assert!(rt; free_one(alloc, heap, place(1)) == Err(Refusal::WrongPool));
    assert!(rt; heap.load(place(1), 2) == Ok(0));
    assert!(rt; close(alloc, heap, 1) == Ok(()));
    assert!(rt; heap.load(place(1), 2) == Err(Refusal::NotABlock));
    assert!(rt; close(alloc, heap, 1) == Err(Refusal::BadIndex));
    assert!(rt; close(alloc, heap, 0) == Ok(()));
    assert!(rt; free_one(alloc, heap, place(0)) == Ok(()));
}

#[test]
fn a_heap_over_a_format_of_its_own(rt: HostRuntime) -> Result<(), AllocError> {
    let mut heap = Heap::<Tail>::new(rt.alloc(), 8, 8)?;
    use_list(&rt, rt.alloc(), &mut heap);
    use_labels(&rt, &mut heap);
    use_block(&rt, rt.alloc(), &mut heap);
    use_frames(&rt, rt.alloc(), &mut heap);
    heap.finish();
    Ok(())
}

/// Pushes a number, with a trail of its own.
fn push_one(alloc: Global, heap: &mut Heap<Tail>, number: u64) -> Result<bool, Refusal> {
    let mut trail = trail_for(alloc, heap)?;
    push(heap, &mut trail, number)
}

/// Calls of a runtime with one trail, a hundred collections among them, and then the sum of the list.
fn live_with_one_trail(alloc: Global, heap: &mut Heap<Tail>) -> Result<u64, Refusal> {
    let mut trail = Trail::new(alloc, 2 * heap.most_moves() + 1).map_err(|_| Refusal::OutOfMemory)?;
    push(heap, &mut trail, 20)?;
    let times = collect_often(heap, &mut trail, 100);
    push(heap, &mut trail, times)?;
    collect_often(heap, &mut trail, 1);
    sum(heap, &mut trail, 10)
}

/// Two numbers are pushed, collected often, and added.
fn push_two(alloc: Global, heap: &mut Heap<Tail>) -> Result<Option<u64>, Refusal> {
    let mut trail = Trail::new(alloc, 2 * heap.most_moves() + 1).map_err(|_| Refusal::OutOfMemory)?;
    sum_of_two(heap, &mut trail, 20, 30)
}

/// A runtime collects: what is in the list stays, and what was dropped is gone.
fn collect_list(rt: &impl Abort, alloc: Global, heap: &mut Heap<Tail>) {
    assert!(rt; make(heap).is_ok());
    assert!(rt; push_five(alloc, heap) == Ok(true));
    assert!(rt; mark(alloc, heap, 10) == Ok(5));
    assert!(rt; pop_one(alloc, heap) == Ok(()));
    assert!(rt; pop_one(alloc, heap) == Ok(()));
    assert!(rt; sum_of(alloc, heap, 10) == Ok(6));
    assert!(rt; heap.live() == (5, 20));
    assert!(rt; matches!(collect(alloc, heap), Ok(true)));
    assert!(rt; sum_of(alloc, heap, 10) == Ok(6));
    assert!(rt; heap.live() == (3, 12));
    assert!(rt; push_one(alloc, heap, 10) == Ok(true));
    assert!(rt; sum_of(alloc, heap, 10) == Ok(16));
    assert!(rt; mark(alloc, heap, 10) == Ok(1));
    assert!(rt; live_with_one_trail(alloc, heap) == Ok(136));
    assert!(rt; heap.live() == (6, 24));
    assert!(rt; push_two(alloc, heap) == Ok(Some(50)));
    assert!(rt; heap.live() == (8, 32));
}

/// The list is summed by the key of its table, until that is dropped.
fn sum_by_keys(rt: &impl Abort, alloc: Global, heap: &mut Heap<Tail>) {
    assert!(rt; heap.table_key(named(b't')).is_none());
    assert!(rt; make(heap).is_ok());
    assert!(rt; push_five(alloc, heap) == Ok(true));
    let Some(table) = heap.table_key(named(b't')) else {
        assert!(rt; false);
        return;
    };
    assert!(rt; sum_with(alloc, heap, table, 10) == Ok(15));
    assert!(rt; matches!(collect(alloc, heap), Ok(true)));
    assert!(rt; sum_with(alloc, heap, table, 2) == Ok(9));
    assert!(rt; heap.drop_root(named(b't')) == Ok(()));
    assert!(rt; sum_with(alloc, heap, table, 10) == Err(Refusal::BadName));
    assert!(rt; heap.table(named(b't'), 2) == Ok(()));
    assert!(rt; sum_with(alloc, heap, table, 10) == Err(Refusal::BadName));
    assert!(rt; heap.table_key(named(b'x')).is_none());
}

/// What an object has is written and read by keys.
fn write_by_keys(rt: &impl Abort, alloc: Global, heap: &mut Heap<Tail>) {
    assert!(rt; make(heap).is_ok());
    assert!(rt; push_by_key(alloc, heap, 20) == Ok(true));
    let Some(table) = heap.table_key(named(b't')) else {
        assert!(rt; false);
        return;
    };
    let first = KeyedSlot { table, index: 0 };
    let second = KeyedSlot { table, index: 1 };
    assert!(rt; heap.head_by_key(first) == Ok(HEAD));
    assert!(rt; heap.addr_by_key(first) == heap.addr(slot(0)));
    assert!(rt; heap.set_num_by_key(first, 1, 30) == Ok(()));
    assert!(rt; heap.put_by_key(first, 3, first) == Ok(()));
    assert!(rt; heap.num_by_key(first, 1) == Ok(30));
    assert!(rt; heap.same_by_key(first, second) == Ok(false));
    assert!(rt; heap.copy_by_key(second, first) == Ok(()));
    assert!(rt; heap.same_by_key(first, second) == Ok(true));
    assert!(rt; heap.clear_by_key(second) == Ok(()));
    assert!(rt; heap.is_null_by_key(second) == Ok(true));
    assert!(rt; heap.num_by_key(second, 1) == Err(Refusal::NullRef));
}

/// A word of an area is stored and read by a key.
fn poke_by_key(rt: &impl Abort, heap: &mut Heap<Tail>) {
    assert!(rt; heap.area(named(b'a'), 1) == Ok(()));
    let Some(area) = heap.area_key(named(b'a')) else {
        assert!(rt; false);
        return;
    };
    let place = KeyedWord { area, index: 0 };
    assert!(rt; heap.poke_by_key(place, 7) == Ok(false));
    assert!(rt; heap.peek_by_key(place) == Ok(7));
    assert!(rt; heap.drop_root(named(b'a')) == Ok(()));
    assert!(rt; heap.peek_by_key(place) == Err(Refusal::BadName));
}

#[test]
fn a_list_by_keys(rt: HostRuntime) -> Result<(), AllocError> {
    let mut heap = Heap::<Tail>::new(rt.alloc(), 8, 8)?;
    sum_by_keys(&rt, rt.alloc(), &mut heap);
    heap.finish();
    let mut other = Heap::<Tail>::new(rt.alloc(), 8, 8)?;
    write_by_keys(&rt, rt.alloc(), &mut other);
    poke_by_key(&rt, &mut other);
    other.finish();
    Ok(())
}

#[test]
fn what_was_dropped_is_collected(rt: HostRuntime) -> Result<(), AllocError> {
    let mut heap = Heap::<Tail>::new(rt.alloc(), 8, 8)?;
    collect_list(&rt, rt.alloc(), &mut heap);
    heap.finish();
    Ok(())
}

/// Reads the second item, with a trail of its own.
fn read_one(alloc: Global, heap: &mut Heap<Tail>) -> Result<Addr, Refusal> {
    let mut trail = trail_for(alloc, heap)?;
    read_second(heap, &mut trail)
}

/// Writes the first number and reads it after a collection, with a trail of its own.
fn set_one(alloc: Global, heap: &mut Heap<Tail>, number: u64) -> Result<u64, Refusal> {
    let mut trail = Trail::new(alloc, 2 * heap.most_moves() + 1).map_err(|_| Refusal::OutOfMemory)?;
    set_and_collect(heap, &mut trail, number)
}

/// Finds the first item again after a collection, with a trail of its own.
fn find_one(alloc: Global, heap: &mut Heap<Tail>) -> Result<Option<Addr>, Refusal> {
    let mut trail = Trail::new(alloc, 2 * heap.most_moves() + 1).map_err(|_| Refusal::OutOfMemory)?;
    find_again(heap, &mut trail)
}

/// The first item is written where it lies, and its address is trusted until it may have moved.
fn use_addresses(rt: &impl Abort, alloc: Global, heap: &mut Heap<Tail>) {
    assert!(rt; make(heap).is_ok());
    assert!(rt; set_first(heap, 20) == Err(Refusal::NullRef));
    assert!(rt; push_five(alloc, heap) == Ok(true));
    assert!(rt; set_first(heap, 20) == Ok(()));
    assert!(rt; add_to_first(heap, 3) == heap.addr(slot(0)));
    assert!(rt; heap.num(slot(0), 1) == Ok(23));
    assert!(rt; read_one(alloc, heap) == heap.addr(slot(0)));
    assert!(rt; heap.num(slot(1), 1) == Ok(4));
    assert!(rt; set_one(alloc, heap, 30) == Ok(30));
    assert!(rt; note_first(heap) == Err(Refusal::BadName));
    assert!(rt; heap.ld(named(b'd')) == Ok(()));
    assert!(rt; note_first(heap) == heap.addr(slot(0)));
    assert!(rt; is_where_noted(heap) == Ok(true));
    assert!(rt; find_one(alloc, heap) == Ok(None));
    assert!(rt; is_where_noted(heap) == Ok(false));
}

/// Pins the first item and collects, with a trail of its own.
fn pin_one(alloc: Global, heap: &mut Heap<Tail>) -> Result<Addr, Refusal> {
    let mut trail = Trail::new(alloc, 2 * heap.most_moves() + 1).map_err(|_| Refusal::OutOfMemory)?;
    pin_and_collect(heap, &mut trail)
}

/// The first item lies where it lay, since a word of an area has its address, and the second one is moved.
fn pin_first(rt: &impl Abort, alloc: Global, heap: &mut Heap<Tail>) {
    assert!(rt; make(heap).is_ok());
    assert!(rt; push_five(alloc, heap) == Ok(true));
    assert!(rt; pin_one(alloc, heap) == Err(Refusal::BadName));
    assert!(rt; heap.area(named(b'a'), 1) == Ok(()));
    let first = heap.addr(slot(0));
    assert!(rt; read_one(alloc, heap) == first);
    let second = heap.addr(slot(1));
    assert!(rt; pin_one(alloc, heap) == first);
    assert!(rt; heap.addr(slot(0)) == first);
    assert!(rt; heap.addr(slot(1)) != second);
    assert!(rt; sum_of(alloc, heap, 10) == Ok(15));
}

/// An item of a pool that doesn't move is found again.
fn find_still(rt: &impl Abort, alloc: Global, heap: &mut Heap<Tail>) {
    assert!(rt; heap.pool(named(b'p'), Kind::Ams, Tail) == Ok(()));
    assert!(rt; heap.table(named(b't'), 2) == Ok(()));
    assert!(rt; heap.point(named(b'x'), named(b'p'), Rank::Exact) == Ok(()));
    assert!(rt; heap.ld(named(b'd')) == Ok(()));
    assert!(rt; push_five(alloc, heap) == Ok(true));
    assert!(rt; find_one(alloc, heap) == Ok(Some(Addr(0x1080))));
}

#[test]
fn addresses_of_the_first_item(rt: HostRuntime) -> Result<(), AllocError> {
    let mut heap = Heap::<Tail>::new(rt.alloc(), 8, 8)?;
    use_addresses(&rt, rt.alloc(), &mut heap);
    heap.finish();
    let mut pinned = Heap::<Tail>::new(rt.alloc(), 8, 8)?;
    pin_first(&rt, rt.alloc(), &mut pinned);
    pinned.finish();
    let mut still = Heap::<Tail>::new(rt.alloc(), 8, 8)?;
    find_still(&rt, rt.alloc(), &mut still);
    still.finish();
    Ok(())
}

/// Makes an object of three words without references, whose numbers are 7 and 0, with a trail of its own.
fn make_leaf(alloc: Global, heap: &mut Heap<Leaf>) -> Result<(), Refusal> {
    heap.pool(named(b'p'), Kind::Lo, Leaf)?;
    heap.table(named(b't'), 2)?;
    heap.point(named(b'x'), named(b'p'), Rank::Exact)?;
    let mut trail = trail_for(alloc, heap)?;
    if !heap.can_collect() {
        return Err(Refusal::NotOpen);
    }
    heap.reserve(&mut trail, named(b'x'), 0x303)?;
    heap.init_num(named(b'x'), 1, 7)?;
    trail.clear();
    let _ = heap.commit(&mut trail, named(b'x'), slot(0))?;
    Ok(())
}

#[test]
fn the_numbers_of_a_leaf_object(rt: HostRuntime) -> Result<(), AllocError> {
    let mut heap = Heap::<Leaf>::new(rt.alloc(), 1, 1)?;
    assert!(rt; make_leaf(rt.alloc(), &mut heap) == Ok(()));
    assert!(rt; heap.lend_leaf(slot(0)) == Ok(&[7, 0]));
    assert!(rt; heap.lend_leaf(slot(1)) == Err(Refusal::NullRef));
    heap.finish();
    Ok(())
}
