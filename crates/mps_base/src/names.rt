// The names of a client's things, and what kinds of pool and point there are.
#![tactic(auto)]

ghost use Rattle.std.specs.Prelude.{◌≡◌};
ghost use Rattle.mps_base.specs.PoolKind.{traits_of};

/// A name: a letter a to z and then at most 15 letters a to z, digits or underscores. The bytes after its last one are 0.
#[derive(Clone, Copy, Debug, PartialEq, Eq, Hash)]
pub struct Name {
    pub bytes: [u8; 16],
}

/// An entry of a table, an area or a table of blocks, by its index, counted from 0. An entry of a table of blocks is a
/// place.
#[derive(Clone, Copy, Debug, PartialEq, Eq)]
pub struct Slot {
    pub name: Name,
    pub index: u64,
}

/// The kind of an automatic pool.
#[derive(Clone, Copy, Debug, PartialEq, Eq)]
pub enum Kind {
    /// Automatic, mostly copying.
    Amc,
    /// Automatic, mostly copying, for blocks without references.
    Amcz,
    /// Automatic, mark and sweep.
    Ams,
    /// Automatic, with weak references; never moves a block.
    Awl,
    /// Leaf only: automatic, for blocks without references that never move.
    Lo,
}

/// What the blocks of a kind of automatic pool are to a collection.
#[derive(Clone, Copy, Debug, PartialEq, Eq)]
pub struct KindTraits {
    /// A collection moves them.
    pub moves: bool,
    /// They have no references.
    pub leaf: bool,
    /// Some of them may be weak.
    pub weak: bool,
}

impl Kind {
    /// What the blocks of a pool of this kind are to a collection.
    #[inline(always)]
    pub fn traits(self) -> KindTraits
        ensures { result ≡ traits_of self }
    {
        let (moves, leaf, weak) = match self {
            Kind::Amc => (true, false, false),
            Kind::Amcz => (true, true, false),
            Kind::Ams => (false, false, false),
            Kind::Awl => (false, false, true),
            Kind::Lo => (false, true, false),
        };
        KindTraits { moves, leaf, weak }
    }
}

/// The rank of the references in an allocation point's blocks.
#[derive(Clone, Copy, Debug, PartialEq, Eq)]
pub enum Rank {
    /// A reference keeps its target alive.
    Exact,
    /// A reference is splatted if its target is not reached otherwise.
    Weak,
}
