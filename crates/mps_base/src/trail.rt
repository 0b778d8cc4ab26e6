// The moves that a call makes, in order.
ghost use Rattle.std.specs.Prelude.{◌≡◌, ◌<◌, [], IfOk};

use crate::Move;
use std::alloc::{AllocError, Global};
use std::marker::Model;
use std::mem::size_of;

/// A list of moves whose room was reserved, so that a call which appends to it takes no memory. Contracts see the list
/// and its spare room.
#[derive(Drop)]
pub struct Trail {
    moves: Vec<Move>,
    room: usize,
}

const _: () = prove!(size_of::<Move>() <= 32);

impl Model for Trail {
    ghost use Rattle.std.specs.Prelude.{◌≤◌, ◌-◌, length, vec_capacity};
    ghost use Rattle.mps_base.specs.Trail.{Moves};

    ghost Value = { Moves };

    ghost view = { λ t. record { moves = t.moves.items; spare = t.room - length t.moves.items } };

    ghost invariant = { λ t. (length t.moves.items ≤ t.room) × (t.room ≤ vec_capacity t.moves) };
}

impl Trail {
    ghost use Rattle.mps_base.specs.Trail.{with_move, emptied};

    /// An empty trail with room for n moves. A move takes at most 32 bytes.
    pub fn new(alloc: Global, room: u32) -> Result<Trail, AllocError>
        ensures { IfOk result (λ trail. trail ≡ record { moves = []; spare = room }) }
    {
        let room = room as usize;
        Ok(Trail {
            moves: Vec::with_capacity(alloc, room)?,
            room,
        })
    }

    /// The moves, the earliest first.
    pub fn moves(&self) -> &[Move]
        ensures { result.now ≡ self.now.moves }
    {
        &self.moves
    }

    /// Appends a move.
    pub fn push(&mut self, m: Move)
        requires { 0 < self.old.spare }
        ensures { self.new ≡ with_move self.old m }
    {
        self.moves.push_reserved(m);
    }

    /// Empties the trail; its whole room is spare again.
    pub fn clear(&mut self)
        ensures { self.new ≡ emptied self.old }
    {
        self.moves.clear();
    }
}
