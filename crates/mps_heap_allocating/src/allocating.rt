// The calls by which a client allocates objects.
ghost use Rattle.std.specs.Prelude.{◌≡◌, ◌+◌, ◌*◌, ◌<◌, ◌≤◌, false, is_some, None, Ok, Some, IsTrue, IfOk};
ghost use Rattle.mps_base.specs.Address.{max_block_words, word_of, words_of_grain};
ghost use Rattle.mps_buffer.specs.Points.{point_at};
ghost use Rattle.mps_buffer.specs.Tokens.{IsClosedAt};
ghost use Rattle.mps_seg.specs.Table.{IsMarked};
ghost use Rattle.mps_heap_spec.specs.State.{IsReady};
ghost use Rattle.mps_heap_spec.specs.Coming.{Comes, ComesMoving};
ghost use Rattle.mps_heap_spec.specs.Finding.{point_named};
ghost use Rattle.mps_heap_spec.specs.Polling.{CanPoll, HasPolled, HasReserved, MayFlip, due_in, polls_for, units_of_poll};
ghost use Rattle.mps_heap_spec.specs.Units.{CanDoUnits};
ghost use Rattle.mps_heap_spec.specs.Allocating.{check_reserve, after_reserve, block_held, with_reserved_word, with_reserved_reference, number_initialised, reference_initialised, after_commit, keeping_new};

use mps_base::{Addr, Name, Refusal, Slot, Trail};
use mps_buffer::{Held, Point};
use mps_format::{Format, format_of_pool};
use mps_heap_spec::{
    Block, CellFound, Committed, Kept, Reserving, number_cell_at, reference_cell_at,
    reservation_of, takes_head, write_reference, write_word,
};
use mps_heap_state::State;
use mps_heap_state::units::{begin, do_units};
use mps_policy::due_now;
use mps_trace::Condemn;

/// How many units a poll asks of the collection that runs.
const UNITS_OF_POLL: u64 = 64;

/// The point at which a block is to be reserved, and the size of the block.
#[inline(always)]
fn check_reserve<F: Format>(state: &State<F>, name: Name, head: u64) -> Result<Reserving, Refusal>
    ensures value { result ≡ check_reserve F.layout state.now name head }
    ensures closed { IfOk result (λ r. IsClosedAt state.now.points r.point.key r.point.value) }
    ensures nonzero { IfOk result (λ r. 0 < r.words) }
    ensures at_most { IfOk result (λ r. r.words ≤ max_block_words) }
{
    let point = state.point_named(name)?;
    check_point(state, name, point, head)
}

/// The same for the point that has the name.
#[inline(always)]
pub(crate) fn check_point<F: Format>(
    state: &State<F>,
    name: Name,
    point: Kept<Point>,
    head: u64,
) -> Result<Reserving, Refusal>
    requires named { Ok point ≡ point_named state.now name }
    requires there { point_at state.now.points point.key ≡ Some point.value }
    ensures value { result ≡ check_reserve F.layout state.now name head }
    ensures closed { IfOk result (λ r. IsClosedAt state.now.points r.point.key r.point.value) }
    ensures nonzero { IfOk result (λ r. 0 < r.words) }
    ensures at_most { IfOk result (λ r. r.words ≤ max_block_words) }
{
    let Some(pool) = state.pools.get(point.value.pool) else {
        return Err(Refusal::BadName);
    };
    let Some(format) = format_of_pool(pool) else {
        return Err(Refusal::WrongPool);
    };
    if !takes_head(pool, format, head) {
        return Err(Refusal::BadHead);
    }
    if point.value.reservation.is_some() {
        return Err(Refusal::Open);
    }
    let words = format.words(head);
    Ok(Reserving { point, words })
}

/// Whether a poll may have work: a collection runs, or there is a chain.
#[inline(always)]
pub(crate) fn has_work<F: Format>(state: &State<F>) -> bool
    ensures { result ≡ false → (is_some state.now.running ≡ false) × (due_in state.now ≡ None) }
{
    state.running.is_some() || state.pools.chain_count() != 0
}

/// Whether a poll does nothing: no collection runs, and no generation is due.
fn is_idle<F: Format>(state: &State<F>) -> bool
    ensures { IsTrue result → (is_some state.now.running ≡ false) × (due_in state.now ≡ None) }
{
    state.running.is_none() && due_now(state.pools.chains(), &state.segs).is_none()
}

/// Whether a `reserve` that passed its checks polls: in an unclamped arena, if nothing that is held has a place for the block.
fn polls<F: Format>(state: &State<F>, key: u32, words: u32) -> bool
    requires there { (p : Point) × IsClosedAt state.now.points key p }
    requires nonzero { 0 < words }
    ensures { (p : Point) → point_at state.now.points key ≡ Some p
        → result ≡ polls_for state.now (Ok (record { point = record { key = key; value = p }; words = words })) }
{
    state.arena.is_unclamped() && !state.points.fits(&state.segs, key, words)
}

/// A poll: the collection that runs does 64 units, or fewer if it ends in them, and their moves are followed. If none runs, one of the
/// generation that is due begins.
fn poll<F: Format>(state: &mut State<F>, trail: &mut Trail)
    requires units { CanDoUnits F.layout state.old trail.old units_of_poll }
    requires flip { MayFlip F.layout state.old trail.old }
    ensures { HasPolled F.layout state.old trail.old state.new trail.new }
{
    if state.running.is_some() {
        do_units(state, trail, UNITS_OF_POLL);
        return;
    }
    if let Some(due) = due_now(state.pools.chains(), &state.segs) {
        let what = Condemn::Generations {
            chain: due.chain,
            oldest: due.generation,
        };
        begin(state, trail, what);
    }
}

/// Reserves a block for which the checks passed.
#[inline(always)]
pub(crate) fn reserve_checked<F: Format>(
    state: &mut State<F>,
    trail: &mut Trail,
    name: Name,
    head: u64,
    key: u32,
    words: u32,
) -> Result<(), Refusal>
    requires checked { (p : Point) × IsClosedAt state.old.points key p
        × (check_reserve F.layout state.old name head ≡ Ok (record { point = record { key = key; value = p }; words = words })) }
    requires nonzero { 0 < words }
    requires at_most { words ≤ max_block_words }
    requires ready { IsReady state.old }
    requires fits { 0 < trail.old.spare }
    ensures { ComesMoving state.old trail.old (after_reserve F.layout state.old trail.old name head) result state.new trail.new }
{
    state
        .points
        .reserve(&mut state.segs, trail, key, head, words)?;
    Ok(())
}

/// A `reserve` that polls: it is judged anew after the poll.
fn reserve_after_poll<F: Format>(
    state: &mut State<F>,
    trail: &mut Trail,
    name: Name,
    head: u64,
) -> Result<(), Refusal>
    requires polls { IsTrue (polls_for state.old (check_reserve F.layout state.old name head)) }
    requires can { CanPoll F.layout state.old trail.old }
    ensures { HasReserved F.layout state.old trail.old name head result state.new trail.new }
{
    poll(state, trail);
    let r = check_reserve(state, name, head)?;
    reserve_checked(state, trail, name, head, r.point.key, r.words)
}

/// A `reserve` that passed its checks and polls. Where the poll does nothing the checks need not be made again.
fn reserve_polling<F: Format>(
    state: &mut State<F>,
    trail: &mut Trail,
    name: Name,
    head: u64,
    key: u32,
    words: u32,
) -> Result<(), Refusal>
    requires checked { (p : Point) × IsClosedAt state.old.points key p
        × (check_reserve F.layout state.old name head ≡ Ok (record { point = record { key = key; value = p }; words = words })) }
    requires polls { IsTrue (polls_for state.old (check_reserve F.layout state.old name head)) }
    requires nonzero { 0 < words }
    requires at_most { words ≤ max_block_words }
    requires ready { IsReady state.old }
    requires fits { 0 < trail.old.spare }
    requires can { CanPoll F.layout state.old trail.old }
    ensures { HasReserved F.layout state.old trail.old name head result state.new trail.new }
{
    if is_idle(state) {
        return reserve_checked(state, trail, name, head, key, words);
    }
    reserve_after_poll(state, trail, name, head)
}

/// A `reserve` that passed its checks, where a poll may have work. Not inlined, to keep a `reserve` small where none has.
#[inline(never)]
pub(crate) fn reserve_with_work<F: Format>(
    state: &mut State<F>,
    trail: &mut Trail,
    name: Name,
    head: u64,
    key: u32,
    words: u32,
) -> Result<(), Refusal>
    requires checked { (p : Point) × IsClosedAt state.old.points key p
        × (check_reserve F.layout state.old name head ≡ Ok (record { point = record { key = key; value = p }; words = words })) }
    requires nonzero { 0 < words }
    requires at_most { words ≤ max_block_words }
    requires ready { IsReady state.old }
    requires fits { 0 < trail.old.spare }
    requires can { CanPoll F.layout state.old trail.old }
    ensures { HasReserved F.layout state.old trail.old name head result state.new trail.new }
{
    if polls(state, key, words) {
        return reserve_polling(state, trail, name, head, key, words);
    }
    reserve_checked(state, trail, name, head, key, words)
}

/// Reserves a block with this head at a point. Refuses `BadHead` if the pool takes no such block, `Open` if the point has an
/// open reservation, and `CommitLimit` and `NoRun` if there is no room. It polls first, if its checks pass, and is then judged anew.
#[inline(always)]
pub fn reserve<F: Format>(
    state: &mut State<F>,
    trail: &mut Trail,
    name: Name,
    head: u64,
) -> Result<(), Refusal>
    requires ready { IsReady state.old }
    requires fits { 0 < trail.old.spare }
    requires can { CanPoll F.layout state.old trail.old }
    ensures { HasReserved F.layout state.old trail.old name head result state.new trail.new }
{
    let r = check_reserve(state, name, head)?;
    if has_work(state) {
        return reserve_with_work(state, trail, name, head, r.point.key, r.words);
    }
    reserve_checked(state, trail, name, head, r.point.key, r.words)
}

/// The block that a reservation is to become.
pub(crate) fn block_held<F: Format>(
    state: &State<F>,
    point: Point,
    held: Held,
) -> Result<Block<F>, Refusal>
    ensures value { result ≡ block_held F.layout state.now point held }
    ensures valid { IfOk result (λ b. IsTrue ((F.layout b.format).is_valid b.head)) }
{
    let Some(pool) = state.pools.get(point.pool) else {
        return Err(Refusal::NotOpen);
    };
    let Some(format) = format_of_pool(pool) else {
        return Err(Refusal::NotOpen);
    };
    if !format.accepts(held.head) {
        return Err(Refusal::NotOpen);
    }
    Ok(Block {
        at: held.at.0,
        format,
        head: held.head,
    })
}

/// Writes a word of a reservation; nothing if a flip ended it.
pub(crate) fn set_reserved_word<F: Format>(
    state: &mut State<F>,
    held: Held,
    word: usize,
    value: u64,
)
    ensures { state.new ≡ with_reserved_word F.layout state.old held word value }
{
    if held.flips == state.points.flips() {
        write_word(&mut state.segs, word, value);
    }
}

/// A reference of a reservation refers to an address, and the summary of its segment gains the zone of that, if it isn't null; nothing
/// changes if a flip ended the reservation.
pub(crate) fn set_reserved_reference<F: Format>(
    state: &mut State<F>,
    held: Held,
    block: &Block<F>,
    cell: CellFound,
    to: u64,
)
    ensures { state.new ≡ with_reserved_reference F.layout state.old held block.now cell to }
{
    if held.flips == state.points.flips() {
        write_reference(&mut state.segs, block, cell, to);
    }
}

/// Writes the number in cell `k` of the reservation of a point. Refuses `NotOpen` if it has none.
pub fn init_num<F: Format>(
    state: &mut State<F>,
    name: Name,
    k: u64,
    value: u64,
) -> Result<(), Refusal>
    ensures { Comes state.old (number_initialised F.layout state.old name k value) result state.new }
{
    let point = state.point_named(name)?;
    let held = reservation_of(point.value)?;
    let block = block_held(state, point.value, held)?;
    let cell = number_cell_at(&state.segs, &block, k)?;
    set_reserved_word(state, held, cell.word, value);
    Ok(())
}

/// Cell `k` of the reservation of a point refers to what a slot has.
pub fn init_ref<F: Format>(
    state: &mut State<F>,
    name: Name,
    k: u64,
    source: Slot,
) -> Result<(), Refusal>
    ensures { Comes state.old (reference_initialised F.layout state.old name k source) result state.new }
{
    let point = state.point_named(name)?;
    let from = state.slot_in(source)?;
    let held = reservation_of(point.value)?;
    let block = block_held(state, point.value, held)?;
    let cell = reference_cell_at(&state.segs, &block, k)?;
    set_reserved_reference(state, held, &block, cell, from.value);
    Ok(())
}

/// A block that was made while a collection runs is kept, if it lies in a condemned segment: the collection doesn't free it.
#[inline(always)]
pub(crate) fn keep_new<F: Format>(state: &mut State<F>, at: Addr)
    requires { word_of at.0 < words_of_grain * (state.old.segs.grains + 1) }
    ensures { state.new ≡ keeping_new state.old at.0 }
{
    if state.running.is_some() && state.segs.is_white(at) {
        state.segs.keep(at);
    }
}

/// The reservation of a point becomes an object, to which a slot refers from now on; if a flip came since the reserve, it is given
/// up and the slot stays.
#[inline(always)]
pub fn commit<F: Format>(
    state: &mut State<F>,
    trail: &mut Trail,
    name: Name,
    target: Slot,
) -> Result<Committed, Refusal>
    requires ready { IsReady state.old }
    requires fits { 0 < trail.old.spare }
    ensures came { ComesMoving state.old trail.old (after_commit state.old trail.old name target) result state.new trail.new }
    ensures tables { IsMarked state.old.segs.grains state.old.segs.marks state.old.segs.condemned state.old.segs.summaries }
{
    state.segs.tables_are_whole();
    let point = state.point_named(name)?;
    let slot = state.slot_in(target)?;
    let _held = reservation_of(point.value)?;
    match state.points.commit(&mut state.segs, trail, point.key) {
        Ok(at) => {
            state.segs.blocks_are_in_order();
            keep_new(state, at);
            state.set_slot(slot, at.0);
            Ok(Committed::AsBlock)
        }
        Err(_) => Ok(Committed::AsFlipped),
    }
}
