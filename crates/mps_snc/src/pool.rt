// One pool of frames.
#![tactic(auto)]

ghost use Rattle.std.specs.Prelude.{◌≡◌, ◌-◌, ◌<◌, ◌≤◌, ◌++◌, ◌∷◌, [], Some, length, take, nat_lt, slice_index, IfOk};
ghost use Rattle.std.specs.Option.{MatchOption};
ghost use Rattle.mps_snc.specs.State.{PoolState, new_pool, max_notes, max_frames, last_of, opened_at, with_block, without_last_block, with_frame, with_frames};

use crate::frames::{MAX_FRAMES, MAX_NOTES};
use mps_base::Addr;
use std::alloc::{AllocError, Global};
use std::marker::Model;

/// A place of a table of blocks: the number of the table, and the index in it.
#[derive(Clone, Copy, Debug, PartialEq, Eq)]
pub struct Place {
    pub table: usize,
    pub index: usize,
}

/// A block of a pool of frames, and the place that holds it.
#[derive(Clone, Copy, Debug, PartialEq, Eq)]
pub struct Block {
    pub at: Addr,
    pub place: Place,
}

/// The blocks of a pool in the order of making, and its open frames, each as the number of blocks at its opening. There is room for all
/// that there may be.
#[derive(Drop)]
pub struct Pool {
    blocks: Vec<Block>,
    frames: Vec<usize>,
}

impl Model for Pool {
    ghost use Rattle.std.specs.Prelude.{◌≤◌, length, vec_capacity};
    ghost use Rattle.mps_snc.specs.State.{PoolState, max_notes, max_frames};

    ghost Value = { PoolState };

    ghost view = { λ p. record { blocks = p.blocks.items; frames = p.frames.items } };

    ghost invariant = { λ p. (length p.frames.items ≤ max_frames) × (length p.blocks.items ≤ max_notes)
        × (max_notes ≤ vec_capacity p.blocks) × (max_frames ≤ vec_capacity p.frames) };
}

impl Pool {
    /// No block and no frame.
    pub(crate) fn new(alloc: Global) -> Result<Pool, AllocError>
        ensures { IfOk result (λ pool. pool ≡ new_pool) }
    {
        Ok(Pool {
            blocks: Vec::with_capacity(alloc, MAX_NOTES)?,
            frames: Vec::with_capacity(alloc, MAX_FRAMES)?,
        })
    }

    /// How many frames are open.
    pub(crate) fn frames(&self) -> u32
        ensures value { result ≡ length self.now.frames }
        ensures few { result ≤ max_frames }
    {
        self.frames.len() as u32
    }

    /// Whether one more block can be noted.
    pub(crate) fn has_room(&self) -> bool
        ensures { result ≡ nat_lt (length self.now.blocks) max_notes }
    {
        self.blocks.len() < MAX_NOTES
    }

    /// How many blocks were made since a frame was opened.
    pub(crate) fn made_since(&self, frame: u32) -> u32
        requires { frame < length self.now.frames }
        ensures value { result ≡ length self.now.blocks - opened_at self.now frame }
        ensures few { result ≤ max_notes }
    {
        let before = self.frames[frame as usize];
        self.blocks.len().saturating_sub(before) as u32
    }

    /// A block was made.
    pub(crate) fn note(&mut self, block: Block)
        requires { length self.old.blocks < max_notes }
        ensures { self.new ≡ with_block self.old block }
    {
        let Ok(()) = self.blocks.push(block) else {
            unreachable!()
        };
    }

    /// Opens a frame.
    pub(crate) fn push(&mut self)
        requires { length self.old.frames < max_frames }
        ensures { self.new ≡ with_frame self.old }
    {
        let Ok(()) = self.frames.push(self.blocks.len()) else {
            unreachable!()
        };
    }

    /// Takes the last block that was made since a frame was opened. Where there is none, closes that frame and those above.
    pub(crate) fn pop(&mut self, frame: u32) -> Option<Block>
        requires { frame < length self.old.frames }
        ensures { MatchOption result
            ((length self.old.blocks ≤ opened_at self.old frame) × (self.new ≡ with_frames self.old (take frame self.old.frames)))
            (λ block. (opened_at self.old frame < length self.old.blocks) × (last_of self.old.blocks ≡ Some block)
            × (self.new ≡ without_last_block self.old)) }
    {
        if self.blocks.len() > self.frames[frame as usize] {
            return self.blocks.pop();
        }
        self.frames.truncate(frame as usize);
        None
    }
}
