// Bytes that wait to be handed on.
ghost use Rattle.std.specs.Prelude.{◌≡◌, ◌≢◌, ◌+◌, ◌-◌, ◌<◌, ◌≤◌, [], ◌++◌, true, false, length, take, drop, IsTrue, vec_capacity, vec_len};
ghost use Rattle.mps_gathering.specs.Held.{HasRoom, max_held_bytes};

use std::alloc::Global;
use std::marker::Model;

/// The most bytes that wait.
const MAX_HELD_BYTES: usize = 65_536;

/// The most bytes of a piece that are held one by one, which costs less than a call.
const SHORT_BYTES: usize = 3;

/// Bytes that were taken and aren't handed on yet. Once that failed, what is left of them stays, and no more are taken.
#[derive(Drop)]
pub struct Held {
    bytes: Vec<u8>,
    failed: bool,
}

impl Model for Held {
    ghost use Rattle.std.specs.Prelude.{◌≤◌, vec_len, vec_capacity};
    ghost use Rattle.mps_gathering.specs.Held.{Waiting};

    ghost Value = { Waiting };

    ghost view = { λ h. record { bytes = h.bytes.items; failed = h.failed; room = vec_capacity h.bytes } };

    ghost invariant = { λ h. vec_len h.bytes ≤ 65536 };
}

impl Held {
    pub fn new(alloc: Global) -> Held
        ensures nothing_waits { result.bytes ≡ [] }
        ensures going { result.failed ≡ false }
    {
        Held {
            bytes: Vec::new(alloc),
            failed: false,
        }
    }

    /// Handing on held bytes failed.
    pub fn has_failed(&self) -> bool
        ensures { result ≡ self.now.failed }
    {
        self.failed
    }

    /// No bytes wait.
    pub fn is_empty(&self) -> bool
        ensures empty { IsTrue result → self.now.bytes ≡ [] }
        ensures some { result ≡ false → self.now.bytes ≢ [] }
    {
        self.bytes.is_empty()
    }

    pub fn bytes(&self) -> &[u8]
        ensures { result.now ≡ self.now.bytes }
    {
        &self.bytes
    }

    /// Takes the piece, where there is room for it beside the bytes that wait: in memory that is there already it always
    /// fits, up to the most bytes that wait; for more there may be no memory.
    #[inline(always)]
    pub fn hold(&mut self, piece: &[u8]) -> bool
        ensures held { IsTrue result → self.new.bytes ≡ self.old.bytes ++ piece.now }
        ensures going { IsTrue result → self.old.failed ≡ false }
        ensures bounded { IsTrue result → length self.new.bytes ≤ max_held_bytes }
        ensures fits { HasRoom self.old (length piece.now) → result ≡ true }
        ensures left { result ≡ false → self.new.bytes ≡ self.old.bytes }
        ensures failed { self.new.failed ≡ self.old.failed }
    {
        let left = MAX_HELD_BYTES.saturating_sub(self.bytes.len());
        if self.failed || piece.len() > left {
            return false;
        }
        if piece.len() <= SHORT_BYTES && piece.len() <= self.bytes.capacity() - self.bytes.len() {
            push_all(&mut self.bytes, piece);
            return true;
        }
        self.bytes.extend_from_slice(piece).is_ok()
    }

    /// Lets go the first bytes, which were handed on. Where some are left, handing them on failed.
    pub fn hand_on(&mut self, count: usize)
        requires { count ≤ length self.old.bytes }
        ensures left { self.new.bytes ≡ drop count self.old.bytes }
        ensures going { self.new.failed ≡ false → self.new.bytes ≡ [] }
        ensures fault { self.new.failed ≡ true → count < length self.old.bytes }
    {
        if count == self.bytes.len() {
            self.bytes.clear();
            self.failed = false;
            return;
        }
        let left = self.bytes.len() - count;
        self.bytes.as_mut_slice().copy_within(count.., 0);
        self.bytes.truncate(left);
        self.failed = true;
    }

    /// Handing on failed: no more bytes are taken.
    pub fn fail(&mut self)
        ensures failed { self.new.failed ≡ true }
        ensures left { self.new.bytes ≡ self.old.bytes }
    {
        self.failed = true;
    }
}

/// Puts a piece after the bytes, in memory that is there already.
#[inline(always)]
fn push_all(bytes: &mut Vec<u8>, piece: &[u8])
    requires { length bytes.old.items + length piece.now ≤ vec_capacity bytes.old }
    ensures items { bytes.new.items ≡ bytes.old.items ++ piece.now }
    ensures capacity { vec_capacity bytes.new ≡ vec_capacity bytes.old }
{
    for byte in piece {
        bytes.push_reserved(*byte);
    }
}
