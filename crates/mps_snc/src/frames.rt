// The pools of frames of an arena.
#![tactic(auto)]

ghost use Rattle.std.specs.Prelude.{◌≡◌, ◌-◌, ◌<◌, ◌≤◌, None, Some, is_some, length, take, slice_index_or, IsSome, IsOk, IsTrue, IfOk, IfErr, OnOk, MatchResult};
ghost use Rattle.std.specs.Option.{MatchOption};
ghost use Rattle.mps_snc.specs.State.{PoolState, new_pool, no_pools, max_pools, max_notes, max_frames, pool_at, state_of, with_pool, with_block, with_frame, with_frames, without_last_block, last_of, opened_at, has_room, noted, frames_count};

use crate::pool::{Block, Pool};
use mps_base::Refusal;
use std::alloc::{AllocError, Global};
use std::marker::Model;

/// The most pools of an arena.
pub const MAX_POOLS: usize = 64;

/// The most blocks of all pools of frames.
pub const MAX_NOTES: usize = 65_536;

/// The most open frames of all pools.
pub const MAX_FRAMES: usize = 4_096;

/// The pools of frames of an arena, by the numbers of the pools. Only `new` and `new_pool` allocate.
#[derive(Drop)]
pub struct Frames {
    alloc: Global,
    pools: Vec<Option<Pool>>,
    open_frames: u32,
}

impl Model for Frames {
    ghost use Rattle.std.specs.Prelude.{◌≡◌, ◌≤◌, length};
    ghost use Rattle.mps_snc.specs.State.{Pools, max_pools, max_frames, frames_count};

    ghost Value = { Pools };

    ghost view = { λ f. f.pools.items };

    ghost invariant = { λ f. (length f.pools.items ≡ max_pools) × (f.open_frames ≡ frames_count f.pools.items)
        × (f.open_frames ≤ max_frames) };
}

impl Frames {
    /// No pool of frames.
    pub fn new(alloc: Global) -> Result<Frames, AllocError>
        ensures { IfOk result (λ frames. frames ≡ no_pools) }
    {
        let mut pools = Vec::with_capacity(alloc, MAX_POOLS)?;
        for _ in 0..MAX_POOLS {
            pools.push(None)?;
        }
        Ok(Frames {
            alloc,
            pools,
            open_frames: 0,
        })
    }

    /// A pool without blocks and frames, with room for all that there may be.
    pub fn new_pool(&self) -> Result<Pool, AllocError>
        ensures { IfOk result (λ made. made ≡ new_pool) }
    {
        Pool::new(self.alloc)
    }

    /// A pool is one of frames, without blocks and frames; what it had before is gone.
    pub fn add_pool(&mut self, pool: u32, made: Pool)
        requires within { pool < max_pools }
        requires empty { made ≡ new_pool }
        ensures { self.new ≡ with_pool self.old pool new_pool }
    {
        if self.is_pool(pool) {
            self.open_frames -= self.frames(pool);
        }
        self.pools[pool as usize] = Some(made);
    }

    /// Whether a pool is one of frames.
    pub fn is_pool(&self, pool: u32) -> bool
        ensures { result ≡ is_some (pool_at self.now pool) }
    {
        let Some(Some(_)) = self.pools.get(pool as usize) else {
            return false;
        };
        true
    }

    /// How many frames of a pool are open.
    pub fn frames(&self, pool: u32) -> u32
        requires { IsSome (pool_at self.now pool) }
        ensures { result ≡ length (state_of self.now pool).frames }
    {
        let Some(frames) = &self.pools[pool as usize] else {
            unreachable!()
        };
        frames.frames()
    }

    /// How many blocks of a pool were made since a frame was opened.
    pub fn made_since(&self, pool: u32, frame: u32) -> u32
        requires there { IsSome (pool_at self.now pool) }
        requires opened { frame < length (state_of self.now pool).frames }
        ensures value { result ≡ length (state_of self.now pool).blocks - opened_at (state_of self.now pool) frame }
        ensures few { result ≤ max_notes }
    {
        let Some(frames) = &self.pools[pool as usize] else {
            unreachable!()
        };
        frames.made_since(frame)
    }

    /// Whether one more block of a pool can be noted: of one that isn't of frames nothing is.
    pub fn has_room(&self, pool: u32) -> bool
        ensures { result ≡ has_room (pool_at self.now pool) }
    {
        let Some(Some(frames)) = self.pools.get(pool as usize) else {
            return true;
        };
        frames.has_room()
    }

    /// A block of a pool was made, which a place holds. It is noted if the pool is one of frames.
    pub fn note(&mut self, pool: u32, block: Block)
        requires { IsTrue (has_room (pool_at self.old pool)) }
        ensures { self.new ≡ noted self.old pool block }
    {
        if !self.is_pool(pool) {
            return;
        }
        let Some(frames) = &mut self.pools[pool as usize] else {
            unreachable!()
        };
        frames.note(block);
    }

    /// Opens a frame of a pool, and returns how many were open. Refuses `TooMany` where 4,096 are open in all pools.
    pub fn push(&mut self, pool: u32) -> Result<u32, Refusal>
        requires { IsSome (pool_at self.old pool) }
        ensures state { MatchResult result (λ number. (number ≡ length (state_of self.old pool).frames)
            × (self.new ≡ with_pool self.old pool (with_frame (state_of self.old pool)))) (λ _. self.new ≡ self.old) }
        ensures fits { frames_count self.old < max_frames → IsOk result }
        ensures few { OnOk result (frames_count self.old < max_frames) }
        ensures full { IfErr result (λ why. (why ≡ Refusal.TooMany max_frames) × (frames_count self.old ≡ max_frames)) }
    {
        if self.open_frames as usize == MAX_FRAMES {
            return Err(Refusal::TooMany {
                limit: MAX_FRAMES as u32,
            });
        }
        let Some(frames) = &mut self.pools[pool as usize] else {
            unreachable!()
        };
        let number = frames.frames();
        frames.push();
        self.open_frames += 1;
        Ok(number)
    }

    /// Takes the last block of a pool that was made since a frame was opened. Where there is none, closes that frame and those above.
    pub fn pop(&mut self, pool: u32, frame: u32) -> Option<Block>
        requires there { IsSome (pool_at self.old pool) }
        requires opened { frame < length (state_of self.old pool).frames }
        ensures { MatchOption result
            ((length (state_of self.old pool).blocks ≤ opened_at (state_of self.old pool) frame)
            × (self.new ≡ with_pool self.old pool (with_frames (state_of self.old pool) (take frame (state_of self.old pool).frames))))
            (λ block. (opened_at (state_of self.old pool) frame < length (state_of self.old pool).blocks)
            × (last_of (state_of self.old pool).blocks ≡ Some block)
            × (self.new ≡ with_pool self.old pool (without_last_block (state_of self.old pool)))) }
    {
        let Some(frames) = &mut self.pools[pool as usize] else {
            unreachable!()
        };
        let before = frames.frames();
        let popped = frames.pop(frame);
        let closed = before - frames.frames();
        self.open_frames -= closed;
        popped
    }
}
