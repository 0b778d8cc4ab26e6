// What is known of a point.
ghost use Rattle.std.specs.Prelude.{◌≡◌};

use mps_base::{Addr, Rank};
use mps_seg::Buffer;

/// A reservation: where it lies, its head, its size in words, and how many flips there were when it was made. It covers its words as
/// long as there are no more.
#[derive(Clone, Copy)]
pub struct Held {
    pub at: Addr,
    pub head: u64,
    pub words: u32,
    pub flips: u64,
}

/// A point: its pool and rank, whether its pool moves blocks, the words at hand, which only a point of such a pool has, and its open
/// reservation.
#[derive(Clone, Copy)]
pub struct Point {
    pub pool: u32,
    pub rank: Rank,
    pub is_copying: bool,
    pub buffer: Buffer,
    pub reservation: Option<Held>,
}

/// The token of a reservation. It can't be copied or let go: `commit` or `abandon` takes it, so one of the two is called exactly once.
pub struct Reserved {
    point: u32,
    held: Held,
}

impl Reserved {
    /// The token of the open reservation of a point.
    pub(crate) fn new(point: u32, held: Held) -> Reserved
        ensures { result ≡ record { point = point; held = held } }
    {
        Reserved { point, held }
    }

    /// The point and the reservation; the token is spent.
    pub(crate) fn spend(self) -> (u32, Held)
        ensures { result ≡ (self.point, self.held) }
    {
        let Reserved { point, held } = self;
        (point, held)
    }

    /// Where the reservation lies.
    pub fn at(&self) -> Addr
        ensures { result ≡ self.now.held.at }
    {
        self.held.at
    }
}
