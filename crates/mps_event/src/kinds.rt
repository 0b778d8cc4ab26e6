// The kinds of events, and which of them to print.

use crate::event::Event;
use bitflags::{Flag, Flags, bitflag_items};

/// A set of kinds of events. Contracts see its bits.
#[derive(Clone, Copy, PartialEq, Eq, Debug)]
pub struct Kinds(u8);

bitflag_items! {
    impl Kinds: u8 {
        const ARENA = 1;
        const POOL = 2;
        const TRACE = 4;
        const SEG = 8;
        const REF = 16;
        const OBJECT = 32;
        const USER = 64;
    }
}

impl Flags for Kinds {
    ghost use Rattle.std.specs.Prelude.{⊤, [], ◌∷◌, codes};

    type Bits = u8;

    ghost exact = { ⊤ };

    ghost table = { (codes "ARENA", 1) ∷ (codes "POOL", 2) ∷ (codes "TRACE", 4) ∷ (codes "SEG", 8) ∷ (codes "REF", 16)
        ∷ (codes "OBJECT", 32) ∷ (codes "USER", 64) ∷ [] };

    ghost set_of = { λ kinds. kinds.0 };

    fn flags<'a>() -> &'a [Flag<Kinds>] {
        Kinds::FLAGS
    }

    fn bits(&self) -> u8 {
        self.0
    }

    fn from_bits_retain(bits: u8) -> Kinds {
        Kinds(bits)
    }
}

impl Kinds {
    ghost use Rattle.std.specs.Prelude.{◌≡◌};
    ghost use Rattle.mps_event.specs.Kinds.{kind_of, is_among};
    ghost use Rattle.mps_event.specs.KindSet.{bits_of};

    /// The kind of an event.
    pub fn of_event(event: Event) -> Kinds
        ensures { bits_of result ≡ kind_of event }
    {
        match event {
            Event::ArenaCreate | Event::LimitSet => Kinds::ARENA,
            Event::PoolCreate => Kinds::POOL,
            Event::Flip | Event::End => Kinds::TRACE,
            Event::SegAlloc | Event::SegFree => Kinds::SEG,
            Event::Splat => Kinds::REF,
            Event::Commit | Event::Alloc | Event::Move | Event::Stay | Event::Post | Event::Free =>
                Kinds::OBJECT,
            Event::Intern | Event::Label => Kinds::USER,
        }
    }

    /// Whether the set has the kind of an event.
    pub fn has(self, event: Event) -> bool
        ensures { result ≡ is_among (bits_of self) event }
    {
        self.contains(Kinds::of_event(event))
    }
}
