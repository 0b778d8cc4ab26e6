// The blocks that are live at a place of a log.

ghost use Rattle.std.specs.Prelude.{◌≡◌, ◌<◌, slice_index, option_map};
ghost use Rattle.mps_model.specs.Replay.{store_after, after_making, after_moving, after_touching, after_freeing};
ghost use Rattle.mps_blocks.specs.Entries.{store_of};
ghost use Rattle.mps_blocks.specs.Replaying.{Gives};

use mps_address_map::AddressMap;
use mps_event::RecordRef;
use std::alloc::Global;
use std::marker::Model;

/// A live block: its size in words, and the number of its pool.
#[derive(Clone, Copy, Debug, PartialEq, Eq)]
pub(crate) struct Extent {
    pub(crate) words: u64,
    pub(crate) pool: u64,
}

/// Why a record could not be replayed.
#[derive(Clone, Copy, Debug, PartialEq, Eq)]
pub(crate) enum ReplayFault {
    BadReplay,
    OutOfMemory,
}

/// The live blocks by their addresses, and how many names were interned.
#[derive(Drop)]
pub(crate) struct Replay {
    live: AddressMap<Extent>,
    interned: u64,
}

impl Model for Replay {
    ghost use Rattle.std.specs.Prelude.{⊤};
    ghost use Rattle.mps_model.specs.Replayed.{State};
    ghost use Rattle.mps_blocks.specs.Entries.{store_of};

    ghost Value = { State };

    ghost view = { λ r. record { blocks = store_of r.live; interned = r.interned } };
}

impl Replay {
    ghost use Rattle.mps_model.specs.Replayed.{at_the_start, replayed_after, after_interning, after_labelling};

    /// Before the first record.
    pub(crate) fn new(alloc: Global, secret: u64) -> Replay
        ensures { result ≡ at_the_start }
    {
        Replay {
            live: AddressMap::new(alloc, secret),
            interned: 0,
        }
    }

    /// The live blocks by their addresses.
    pub(crate) fn into_live(self) -> AddressMap<Extent>
        ensures { store_of result ≡ self.blocks }
    {
        self.live
    }

    /// What a record does to the blocks and the names.
    pub(crate) fn apply(&mut self, entry: &RecordRef<'_>) -> Result<(), ReplayFault>
        requires { self.old.interned < 18446744073709551615 }
        ensures { Gives (replayed_after self.old entry.now) self.new result }
    {
        match entry.code() {
            96 => self.intern(field_at(entry, 0)),
            97 => self.label(field_at(entry, 0), field_at(entry, 1)),
            _ => apply_to_blocks(&mut self.live, entry),
        }
    }

    fn intern(&mut self, id: u64) -> Result<(), ReplayFault>
        requires { self.old.interned < 18446744073709551615 }
        ensures { Gives (after_interning self.old id) self.new result }
    {
        if id != self.interned {
            return Err(ReplayFault::BadReplay);
        }
        self.interned += 1;
        Ok(())
    }

    fn label(&self, at: u64, id: u64) -> Result<(), ReplayFault>
        ensures { Gives (after_labelling self.now at id) self.now result }
    {
        if id >= self.interned {
            return Err(ReplayFault::BadReplay);
        }
        touch(&self.live, at)
    }
}

/// What a record does to the live blocks.
fn apply_to_blocks(live: &mut AddressMap<Extent>, entry: &RecordRef<'_>) -> Result<(), ReplayFault>
    ensures { Gives (store_after (store_of live.old) entry.now) (store_of live.new) result }
{
    match entry.code() {
        80 | 81 => make(
            live,
            field_at(entry, 0),
            Extent {
                words: field_at(entry, 1),
                pool: field_at(entry, 2),
            },
        ),
        82 => relocate(live, field_at(entry, 0), field_at(entry, 1)),
        83 | 84 => touch(live, field_at(entry, 0)),
        85 => free(live, field_at(entry, 0)),
        _ => Ok(()),
    }
}

/// Makes a block.
#[inline(always)]
fn make(live: &mut AddressMap<Extent>, at: u64, extent: Extent) -> Result<(), ReplayFault>
    ensures { Gives (after_making (store_of live.old) at extent.words extent.pool) (store_of live.new) result }
{
    match live.insert(at, extent) {
        Ok(None) => Ok(()),
        Ok(Some(_)) => Err(ReplayFault::BadReplay),
        Err(_) => Err(ReplayFault::OutOfMemory),
    }
}

/// Moves a block.
fn relocate(live: &mut AddressMap<Extent>, from: u64, to: u64) -> Result<(), ReplayFault>
    ensures { Gives (after_moving (store_of live.old) from to) (store_of live.new) result }
{
    if from == to {
        return Err(ReplayFault::BadReplay);
    }
    match live.remove(from) {
        None => Err(ReplayFault::BadReplay),
        Some(extent) => make(live, to, extent),
    }
}

/// Leaves a block as it is.
fn touch(live: &AddressMap<Extent>, at: u64) -> Result<(), ReplayFault>
    ensures { Gives (after_touching (store_of live.now) at) (store_of live.now) result }
{
    match live.get(at) {
        Some(_) => Ok(()),
        None => Err(ReplayFault::BadReplay),
    }
}

/// Frees a block.
fn free(live: &mut AddressMap<Extent>, at: u64) -> Result<(), ReplayFault>
    ensures { Gives (after_freeing (store_of live.old) at) (store_of live.new) result }
{
    match live.remove(at) {
        Some(_) => Ok(()),
        None => Err(ReplayFault::BadReplay),
    }
}

/// A field of a record, 0 where it has none there.
fn field_at(entry: &RecordRef<'_>, i: u16) -> u64
    ensures { result ≡ slice_index entry.now.fields i }
{
    if i < entry.count() { entry.field(i) } else { 0 }
}
