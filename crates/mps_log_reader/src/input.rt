// An input that is read in pieces into a buffer.

ghost use Rattle.std.specs.Prelude.{◌≡◌, ◌≤◌, ◌<◌, ◌+◌, ◌-◌, ◌++◌, ◌⊎◌, [], length, take, drop, true, false, IfOk, IfSome, OnOk, OnErr};
ghost use Rattle.std.specs.Option.{option_map};
ghost use Rattle.std.specs.Bool.{OnTrue, OnFalse};
ghost use Rattle.mps_desk.specs.Desk.{HasRisen, OnlyReads};
ghost use Rattle.mps_log_reader.specs.Input.{Buffered, ReadsMore, IsReadable};

use mps_desk::{Desk, Failed};
use std::alloc::{AllocError, Global};
use std::marker::Model;

/// The bytes that the buffer holds.
const BUFFER_BYTES: usize = 65536;

/// What was read of the opened input and not taken yet, in a buffer of 64 KiB. Contracts see these bytes, whether all
/// was read, and whether a read failed.
#[derive(Drop)]
pub struct Input {
    room: Vec<u8>,
    from: usize,
    to: usize,
    ended: bool,
    failed: bool,
}

impl Model for Input {
    ghost use Rattle.std.specs.Prelude.{◌≡◌, ◌≤◌, ◌-◌, take, drop, length};
    ghost use Rattle.mps_log_reader.specs.Input.{Buffered};

    ghost Value = { Buffered };

    ghost view = { λ i. record { pending = take (i.to - i.from) (drop i.from i.room.items); ended = i.ended; failed = i.failed } };

    ghost invariant = { λ i. (length i.room.items ≡ 65536) × (i.from ≤ i.to) × (i.to ≤ 65536) };
}

impl Input {
    /// Nothing was read yet.
    pub fn new(alloc: Global) -> Result<Input, AllocError>
        ensures { IfOk result (λ input. input ≡ record { pending = []; ended = false; failed = false }) }
    {
        let room = vec![in alloc; 0u8; BUFFER_BYTES]?;
        Ok(Input {
            room,
            from: 0,
            to: 0,
            ended: false,
            failed: false,
        })
    }

    /// What was read and not taken yet.
    pub fn pending(&self) -> &[u8]
        ensures { result.now ≡ self.now.pending }
    {
        &self.room[self.from..self.to]
    }

    /// Whether all was read.
    pub fn has_ended(&self) -> bool
        ensures { result ≡ self.now.ended }
    {
        self.ended
    }

    /// Whether a read failed. Nothing more is read then.
    pub fn has_failed(&self) -> bool
        ensures { result ≡ self.now.failed }
    {
        self.failed
    }

    /// Takes n bytes from the front.
    pub fn take(&mut self, count: usize)
        requires { count ≤ length self.old.pending }
        ensures { self.new ≡ record self.old { pending = drop count self.old.pending } }
    {
        self.from += count;
    }

    /// Reads until n bytes are pending, or all was read, or a read failed.
    #[inline(always)]
    pub fn fill<D: Desk>(&mut self, count: usize, desk: &mut D)
        requires { count ≤ 65536 }
        ensures read { ReadsMore (D.outside desk.old) (D.outside desk.new) self.old self.new }
        ensures enough { self.new.ended ≡ false → self.new.failed ≡ false → count ≤ length self.new.pending }
        // Where all had been read, it stays so, and no read fails.
        ensures unchanged { self.old.ended ≡ true → self.new ≡ self.old }
    {
        while self.needs(count) {
            self.read_once(desk);
        }
    }

    /// Whether more is to be read.
    fn needs(&self, count: usize) -> bool
        ensures more { OnTrue result (IsReadable self.now × (length self.now.pending < count)) }
        ensures enough { OnFalse result (self.now.ended ≡ false → self.now.failed ≡ false → count ≤ length self.now.pending) }
    {
        self.to - self.from < count && !self.ended && !self.failed
    }

    /// Reads some more bytes.
    #[inline(never)]
    fn read_once<D: Desk>(&mut self, desk: &mut D)
        requires { length self.old.pending < 65536 }
        ensures read { ReadsMore (D.outside desk.old) (D.outside desk.new) self.old self.new }
        ensures progress { IsReadable self.new → length self.old.pending < length self.new.pending }
    {
        move_to_front(&mut self.room, self.from, self.to);
        self.to -= self.from;
        self.from = 0;
        match read_after(&mut self.room, self.to, desk) {
            Ok(0) => self.ended = true,
            Ok(count) => self.to += count,
            Err(_) => self.failed = true,
        }
    }
}

/// Moves the bytes between two indices to the front.
fn move_to_front(room: &mut [u8], from: usize, to: usize)
    requires ordered { from ≤ to }
    requires fits { to ≤ length room.old }
    ensures size { length room.new ≡ length room.old }
    ensures moved { take (to - from) room.new ≡ take (to - from) (drop from room.old) }
{
    let count = to - from;
    if count <= from {
        copy_to_front(room, from, count);
    } else {
        room[..to].rotate_left(from);
    }
}

/// Copies n bytes to the front, from an index that is n or more.
fn copy_to_front(room: &mut [u8], from: usize, count: usize)
    requires apart { count ≤ from }
    requires fits { from + count ≤ length room.old }
    ensures size { length room.new ≡ length room.old }
    ensures copied { take count room.new ≡ take count (drop from room.old) }
{
    let (front, rest) = room.split_at_mut(from);
    front[..count].copy_from_slice(&rest[..count]);
}

/// Reads some bytes after those that are there, and returns how many: 0 at the end.
fn read_after<D: Desk>(room: &mut [u8], to: usize, desk: &mut D) -> Result<usize, Failed>
    requires { to < length room.old }
    ensures fits { IfOk result (λ count. to + count ≤ length room.old) }
    ensures size { length room.new ≡ length room.old }
    ensures unchanged { take to room.new ≡ take to room.old }
    ensures read { IfOk result (λ count. (D.outside desk.old).input
        ≡ option_map (λ left. take count (drop to room.new) ++ left) (D.outside desk.new).input) }
    ensures end { IfOk result (λ count. count ≡ 0 → IfSome (D.outside desk.old).input (λ left. left ≡ [])) }
    ensures failed { OnErr result ((D.outside desk.new).input ≡ (D.outside desk.old).input) }
    ensures counted { (D.outside desk.old).in_faults ≤ (D.outside desk.new).in_faults }
    ensures steady { OnOk result ((D.outside desk.new).in_faults ≡ (D.outside desk.old).in_faults) }
    ensures cause { OnErr result (HasRisen (D.outside desk.old).in_faults (D.outside desk.new).in_faults) }
    ensures others { OnlyReads (D.outside desk.old) (D.outside desk.new) }
{
    desk.read(&mut room[to..])
}
