// The words of manual blocks and of leaf objects are borrowed.
ghost use Rattle.std.specs.Prelude.{◌≡◌, ◌%◌, ℕ, IfOk, MatchResult, Contains};
ghost use Rattle.std.specs.Fn.{FnOnceReturnsAtMut};
ghost use Rattle.mps_base.specs.Address.{word_of, bytes_of_word};
ghost use Rattle.mps_heap_manual.specs.Lending.{block_named, leaf_named, IsBlockBorrowed, IsBlockWritten, IsLeafBorrowed, IsNoBlock, IsNoLeaf};

use mps_base::{Addr, Refusal, Slot};
use mps_format::{Format, is_leaf};
use mps_heap_spec::begins_block;
use mps_heap_state::State;
use mps_manual::Manual;

/// The address of the manual block in a place.
#[tactic(auto, using(crate::proofs::Borrowing::begins_at_word))]
fn block_named<F: Format>(state: &State<F>, place: Slot) -> Result<Addr, Refusal>
    ensures value { MatchResult result (λ at. block_named state.now place ≡ Ok at.0) (λ why. IsNoBlock state.now place why) }
    ensures block { IfOk result (λ at. (words : ℕ) × Contains state.now.segs.blocks (record { from = word_of at.0; count = words })) }
    ensures aligned { IfOk result (λ at. at.0 % bytes_of_word ≡ 0) }
{
    let from = state.block_place_in(place)?;
    if from.value == 0 || !begins_block(&state.segs, from.value) {
        return Err(Refusal::NotABlock);
    }
    Ok(Addr(from.value))
}

/// Lends the words of the block in a place, and no others. Refuses `NotABlock` if the place is empty.
pub fn lend<F: Format>(state: &State<F>, place: Slot) -> Result<&[u64], Refusal>
    ensures { MatchResult result (λ words. IsBlockBorrowed state.now place words.now) (λ why. IsNoBlock state.now place why) }
{
    let at = block_named(state, place)?;
    Ok(Manual::lend(&state.segs, at))
}

/// Lends the words of the block in a place, and no others, to be written by a closure. Refuses as `lend` does.
pub fn lend_mut<F: Format, R, W: FnOnce(&mut [u64]) -> R>(
    state: &mut State<F>,
    place: Slot,
    write: W,
) -> Result<R, Refusal>
    requires callable { W.IsAlwaysCallable write }
    ensures { MatchResult result
        (λ r. IsBlockWritten state.old place (λ words left. FnOnceReturnsAtMut W.FnOnce write words r left) state.new)
        (λ why. IsNoBlock state.old place why × (state.new ≡ state.old)) }
{
    let at = block_named(state, place)?;
    Ok(write(Manual::lend_mut(&mut state.segs, at)))
}

/// The address of the object in a slot, if it is of a leaf pool.
#[tactic(auto, using(crate::proofs::Borrowing::begins_at_word))]
fn leaf_named<F: Format>(state: &State<F>, slot: Slot) -> Result<Addr, Refusal>
    ensures value { MatchResult result (λ at. leaf_named F.layout state.now slot ≡ Ok at.0)
        (λ why. IsNoLeaf F.layout state.now slot why) }
    ensures block { IfOk result (λ at. (words : ℕ) × Contains state.now.segs.blocks (record { from = word_of at.0; count = words })) }
    ensures aligned { IfOk result (λ at. at.0 % bytes_of_word ≡ 0) }
{
    let object = state.object_in(slot)?;
    let pool = state.pool_over(object.at).ok_or(Refusal::WrongPool)?;
    if !is_leaf(pool) {
        return Err(Refusal::WrongPool);
    }
    if !begins_block(&state.segs, object.at) {
        return Err(Refusal::NullRef);
    }
    Ok(Addr(object.at))
}

/// Lends the words after the head of the object in a slot. Refuses `NullRef` if the slot is null, and `WrongPool` if the
/// object's pool isn't a leaf pool.
pub fn lend_leaf<F: Format>(state: &State<F>, slot: Slot) -> Result<&[u64], Refusal>
    ensures { MatchResult result (λ words. IsLeafBorrowed F.layout state.now slot words.now)
        (λ why. IsNoLeaf F.layout state.now slot why) }
{
    let at = leaf_named(state, slot)?;
    let whole = Manual::lend(&state.segs, at);
    match whole.split_first() {
        Some((_, cells)) => Ok(cells),
        None => Ok(whole),
    }
}
