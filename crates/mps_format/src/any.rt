// One of the three formats, chosen when the program runs.
use crate::{Format, Front, Leaf, Mapped};
use mps_base::Addr;

// The numbers of the formats.
const FRONT_NUMBER: u32 = 1;

const MAPPED_NUMBER: u32 = 2;

const LEAF_NUMBER: u32 = 3;

/// One of the three formats. Its laws are those of the format that it is.
#[derive(Clone, Copy, Debug, PartialEq, Eq)]
pub enum AnyFormat {
    Front(Front),
    Mapped(Mapped),
    Leaf(Leaf),
}

impl AnyFormat {
    ghost use Rattle.std.specs.Prelude.{◌≡◌, ◌≤◌};
    ghost use Rattle.mps_format.specs.AnyFormat.{number_of};

    /// The format with this number: 1 is `front`, 2 is `mapped`, 3 is `leaf`.
    pub fn numbered(number: u32) -> AnyFormat
        requires low { 1 ≤ number }
        requires high { number ≤ 3 }
        ensures { number_of result ≡ number }
    {
        match number {
            FRONT_NUMBER => AnyFormat::Front(Front),
            MAPPED_NUMBER => AnyFormat::Mapped(Mapped),
            _ => AnyFormat::Leaf(Leaf),
        }
    }

    /// The number of the format: 1 for `front`, 2 for `mapped`, 3 for `leaf`.
    pub fn number(&self) -> u32
        ensures { result ≡ number_of self.now }
    {
        match self {
            AnyFormat::Front(_) => FRONT_NUMBER,
            AnyFormat::Mapped(_) => MAPPED_NUMBER,
            AnyFormat::Leaf(_) => LEAF_NUMBER,
        }
    }
}

impl Format for AnyFormat {
    ghost use Rattle.mps_format.specs.AnyFormat.{any_layout, any_is_lawful};

    ghost layout = { any_layout };

    #[inline(always)]
    fn accepts(&self, head: u64) -> bool {
        match self {
            AnyFormat::Front(f) => f.accepts(head),
            AnyFormat::Mapped(f) => f.accepts(head),
            AnyFormat::Leaf(f) => f.accepts(head),
        }
    }

    #[inline(always)]
    fn words(&self, head: u64) -> u32 {
        match self {
            AnyFormat::Front(f) => f.words(head),
            AnyFormat::Mapped(f) => f.words(head),
            AnyFormat::Leaf(f) => f.words(head),
        }
    }

    fn skip(&self, mem: &[u64]) -> u32 {
        match self {
            AnyFormat::Front(f) => f.skip(mem),
            AnyFormat::Mapped(f) => f.skip(mem),
            AnyFormat::Leaf(f) => f.skip(mem),
        }
    }

    #[inline(always)]
    fn ref_from(&self, head: u64, from: u32) -> Option<u32> {
        match self {
            AnyFormat::Front(f) => f.ref_from(head, from),
            AnyFormat::Mapped(f) => f.ref_from(head, from),
            AnyFormat::Leaf(f) => f.ref_from(head, from),
        }
    }

    fn next_ref(&self, block: &[u64], from: u32) -> Option<u32> {
        match self {
            AnyFormat::Front(f) => f.next_ref(block, from),
            AnyFormat::Mapped(f) => f.next_ref(block, from),
            AnyFormat::Leaf(f) => f.next_ref(block, from),
        }
    }

    fn forward(&self, block: &mut [u64], to: Addr) {
        match self {
            AnyFormat::Front(f) => f.forward(block, to),
            AnyFormat::Mapped(f) => f.forward(block, to),
            AnyFormat::Leaf(f) => f.forward(block, to),
        }
    }

    fn forwarded(&self, mem: &[u64]) -> Option<Addr> {
        match self {
            AnyFormat::Front(f) => f.forwarded(mem),
            AnyFormat::Mapped(f) => f.forwarded(mem),
            AnyFormat::Leaf(f) => f.forwarded(mem),
        }
    }

    fn pad(&self, mem: &mut [u64]) {
        match self {
            AnyFormat::Front(f) => f.pad(mem),
            AnyFormat::Mapped(f) => f.pad(mem),
            AnyFormat::Leaf(f) => f.pad(mem),
        }
    }

    fn target(&self, word: u64) -> Addr {
        match self {
            AnyFormat::Front(f) => f.target(word),
            AnyFormat::Mapped(f) => f.target(word),
            AnyFormat::Leaf(f) => f.target(word),
        }
    }

    fn retarget(&self, word: u64, to: Addr) -> u64 {
        match self {
            AnyFormat::Front(f) => f.retarget(word, to),
            AnyFormat::Mapped(f) => f.retarget(word, to),
            AnyFormat::Leaf(f) => f.retarget(word, to),
        }
    }

    ghost lawful = { any_is_lawful };
}
