// The calls on the arena.
ghost use Rattle.std.specs.Prelude.{◌≡◌, length, false, is_some, MatchResult};
ghost use Rattle.mps_base.specs.Run.{total};
ghost use Rattle.mps_heap_spec.specs.declared.arena.ArenaState.TheVariants as arena;
ghost use Rattle.mps_heap_spec.specs.Coming.{Comes};
ghost use Rattle.mps_heap_spec.specs.Arena.{held_grains, limit_set, with_arena, with_arena_anew, BlockBegins, IsNotDumped};

use mps_base::{Addr, Refusal};
use mps_format::Format;
use mps_heap_spec::{ArenaState, begins_block};
use mps_heap_state::State;

/// Sets the commit limit, in grains. Refuses `BelowCommitted` if more grains than that are held.
pub fn limit<F: Format>(state: &mut State<F>, limit: u32) -> Result<(), Refusal>
    ensures { Comes state.old (limit_set state.old limit) result state.new }
{
    state.segs.set_limit(limit)
}

/// How many grains are held.
pub fn committed<F: Format>(state: &State<F>) -> u32
    ensures { result ≡ held_grains state.now }
{
    state.segs.committed()
}

/// The arena does this by itself, and no transform has a pair any more.
fn set_arena<F: Format>(state: &mut State<F>, arena: ArenaState)
    ensures { state.new ≡ with_arena_anew state.old arena }
{
    state.arena = arena;
    state.beside.transforms.empty_all();
}

/// The arena is clamped: it does nothing by itself. No transform has a pair any more.
pub fn clamp<F: Format>(state: &mut State<F>)
    ensures { state.new ≡ with_arena_anew state.old arena.Clamped }
{
    set_arena(state, ArenaState::Clamped);
}

/// The arena is parked: it has no collection in progress, and does nothing by itself. Transforms keep their pairs.
pub fn park<F: Format>(state: &mut State<F>)
    ensures { state.new ≡ with_arena state.old arena.Parked }
{
    state.arena = ArenaState::Parked;
}

/// The arena is unclamped. No transform has a pair any more.
pub fn release<F: Format>(state: &mut State<F>)
    ensures { state.new ≡ with_arena_anew state.old arena.Unclamped }
{
    set_arena(state, ArenaState::Unclamped);
}

/// How many blocks there are, and how many words they have together.
pub fn live<F: Format>(state: &State<F>) -> (u64, u64)
    ensures { result ≡ (length state.now.segs.blocks, total state.now.segs.blocks) }
{
    (
        state.segs.live_blocks() as u64,
        state.segs.live_words() as u64,
    )
}

/// How many words the block has that begins at an address. Refuses `Running` if a collection runs, and `NotABlock` if none begins
/// there.
pub fn dump<F: Format>(state: &State<F>, at: u64) -> Result<u32, Refusal>
    ensures { MatchResult result (λ words. (is_some state.now.running ≡ false) × BlockBegins state.now at words)
        (λ why. IsNotDumped state.now at why) }
{
    if state.running.is_some() {
        return Err(Refusal::Running);
    }
    if !begins_block(&state.segs, at) {
        return Err(Refusal::NotABlock);
    }
    Ok(state.segs.block_words(Addr(at)))
}
