// The first item of a list: its number, where it lies, and for how long that is right.
ghost use Rattle.std.specs.Prelude.{◌≡◌, ◌+◌, ◌*◌, ◌%◌, ◌^◌, ◌≤◌, ℕ, List, ◌∷◌, Contains, IfErr, IfOk, IfSome, IsTrue, length};
ghost use Rattle.mps_heap.specs.Collect.{most_moves};
ghost use Rattle.mps_heap.specs.RightMoving.{KeepsRoom};
ghost use Rattle.mps_heap_examples.specs.Addresses.{FirstIsNotedAt, FirstLiesAt, Represents, refusals_of_writing};
ghost use Rattle.mps_heap_examples.specs.Listed.{HasNumbers};
ghost use Rattle.mps_model.specs.History.{with_client_remembered};
ghost use Rattle.mps_model.specs.World.{World};

use crate::Tail;
use crate::list::{NEXT, NUMBER, cursor, first, named};
use mps_base::{Addr, Refusal, Slot, Trail};
use mps_heap::Heap;

/// Writes a number into the first item. It stays where it lies. There are four refusals, and after each the heap represents what it did:
/// only a running collection remembers once more what the client holds.
pub fn set_first(heap: &mut Heap<Tail>, number: u64) -> Result<(), Refusal>
    ensures grains { heap.new.segs.grains ≡ heap.old.segs.grains }
    ensures set { (old : ℕ) (numbers : List ℕ) → HasNumbers heap.old (old ∷ numbers) → IfOk result (λ done.
        HasNumbers heap.new (number ∷ numbers)) }
    ensures stays { (at : ℕ) → FirstLiesAt heap.old at → FirstLiesAt heap.new at }
    ensures listed { (w : World) → Represents heap.old w → IfErr result (λ why. Contains refusals_of_writing why) }
    ensures unchanged { (w : World) → Represents heap.old w → IfErr result (λ why. Represents heap.new (with_client_remembered w)) }
{
    heap.set_num(first(), NUMBER, number)
}

/// Adds to the number of the first item, and returns where that lies. The address is taken before the item is read and written, and is
/// right afterwards, since no call in between makes a move.
pub fn add_to_first(heap: &mut Heap<Tail>, more: u64) -> Result<Addr, Refusal>
    ensures grains { heap.new.segs.grains ≡ heap.old.segs.grains }
    ensures there { (w : World) → Represents heap.old w → IfOk result (λ at. FirstLiesAt heap.new at.0) }
    ensures added { (number : ℕ) (numbers : List ℕ) → HasNumbers heap.old (number ∷ numbers) → IfOk result (λ at.
        HasNumbers heap.new ((number + more) % 2 ^ 64 ∷ numbers)) }
{
    let at = heap.addr(first())?;
    let number = heap.num(first(), NUMBER)?;
    set_first(heap, number.wrapping_add(more))?;
    Ok(at)
}

/// Writes a number into the first item, collects if that can be done, and reads it. It is what was written, wherever the item lies then.
pub fn set_and_collect(
    heap: &mut Heap<Tail>,
    trail: &mut Trail,
    number: u64,
) -> Result<u64, Refusal>
    requires room { 2 * most_moves heap.old.segs.grains ≤ trail.old.spare + length trail.old.moves }
    ensures room { KeepsRoom trail.old trail.new }
    ensures grains { heap.new.segs.grains ≡ heap.old.segs.grains }
    ensures same { (old : ℕ) (numbers : List ℕ) → HasNumbers heap.old (old ∷ numbers) → IfOk result (λ found. found ≡ number) }
{
    heap.set_num(first(), NUMBER, number)?;
    if !heap.can_collect() {
        return Ok(number);
    }
    trail.clear();
    heap.collect(trail);
    heap.num(first(), NUMBER)
}

/// Writes the address of the first item into a word of an area, as a runtime's stack may hold it, and collects if that can be done. The
/// item lies where it lay, since the word pins it.
pub fn pin_and_collect(heap: &mut Heap<Tail>, trail: &mut Trail) -> Result<Addr, Refusal>
    requires room { 2 * most_moves heap.old.segs.grains ≤ trail.old.spare + length trail.old.moves }
    ensures room { KeepsRoom trail.old trail.new }
    ensures grains { heap.new.segs.grains ≡ heap.old.segs.grains }
    ensures there { (w : World) → Represents heap.old w → IfOk result (λ at. FirstLiesAt heap.new at.0) }
{
    let at = heap.addr(first())?;
    let word = Slot {
        name: named(b'a'),
        index: 0,
    };
    heap.poke(word, at.0)?;
    if !heap.can_collect() {
        return Ok(at);
    }
    trail.clear();
    heap.collect(trail);
    Ok(at)
}

/// Reads the second item into slot 1, and returns where the first one lies. The address is taken before that. While a collection runs
/// the read may move objects, but it has no flip: so the address is right afterwards.
pub fn read_second(heap: &mut Heap<Tail>, trail: &mut Trail) -> Result<Addr, Refusal>
    requires room { most_moves heap.old.segs.grains ≤ trail.old.spare + length trail.old.moves }
    ensures room { KeepsRoom trail.old trail.new }
    ensures grains { heap.new.segs.grains ≡ heap.old.segs.grains }
    ensures there { (w : World) → Represents heap.old w → IfOk result (λ at. FirstLiesAt heap.new at.0) }
{
    let at = heap.addr(first())?;
    trail.clear();
    heap.get(trail, cursor(), first(), NEXT)?;
    Ok(at)
}

/// Notes where the first item lies, as a table does that hashes by addresses: the dependency `d` has this address from then on.
pub fn note_first(heap: &mut Heap<Tail>) -> Result<Addr, Refusal>
    ensures grains { heap.new.segs.grains ≡ heap.old.segs.grains }
    ensures noted { (w : World) → Represents heap.old w → IfOk result (λ at. FirstIsNotedAt heap.new at.0) }
{
    let dependency = named(b'd');
    heap.ld_reset(dependency)?;
    heap.ld_add(dependency, first())?;
    heap.addr(first())
}

/// Whether the first item still lies where that was noted, as far as the dependency tells. If it says so the address is right.
pub fn is_where_noted(heap: &Heap<Tail>) -> Result<bool, Refusal>
    ensures right { (at : ℕ) → FirstIsNotedAt heap.now at → IfOk result (λ fresh. IsTrue fresh → FirstLiesAt heap.now at) }
{
    let stale = heap.ld_stale(named(b'd'))?;
    Ok(!stale)
}

/// Notes where the first item lies, collects, and returns the address if it is still right. There is none if the item may have moved, or
/// the heap can't count one flip more.
pub fn find_again(heap: &mut Heap<Tail>, trail: &mut Trail) -> Result<Option<Addr>, Refusal>
    requires room { 2 * most_moves heap.old.segs.grains ≤ trail.old.spare + length trail.old.moves }
    ensures room { KeepsRoom trail.old trail.new }
    ensures grains { heap.new.segs.grains ≡ heap.old.segs.grains }
    ensures found { (w : World) → Represents heap.old w → IfOk result (λ found. IfSome found (λ at. FirstLiesAt heap.new at.0)) }
{
    let at = note_first(heap)?;
    if !heap.can_collect() {
        return Ok(None);
    }
    trail.clear();
    heap.collect(trail);
    if is_where_noted(heap)? {
        return Ok(Some(at));
    }
    Ok(None)
}
