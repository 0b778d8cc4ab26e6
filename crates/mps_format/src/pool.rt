// What a heap's pools are, what kinds of pool may do, and what a collection knows of a pool.
#![tactic(auto)]

ghost use Rattle.std.specs.Prelude.{◌≡◌};
ghost use Rattle.mps_format.specs.Pools.{format_of_pool, is_automatic_pool, is_copying_pool, is_leaf_pool, is_weak_pool, policy_of_pool, size_of_pool, is_moved_or_manual};

use crate::Format;
use mps_base::Kind;

/// A pool.
#[derive(Clone, Copy)]
pub enum Pool<F> {
    /// An automatic pool, whose blocks are objects in a client's format.
    Automatic { kind: Kind, format: F },
    /// A manual pool of blocks of `words` words.
    OneSize { words: u32 },
    /// A manual pool of blocks of any sizes.
    AnySize,
}

/// What a collection knows of an automatic pool: the format of its objects, and whether it moves them.
#[derive(Clone, Copy)]
pub struct Policy<F> {
    pub format: F,
    pub moves: bool,
}

/// The format of the objects of a pool, if it is automatic.
#[inline(always)]
pub fn format_of_pool<F: Format>(pool: Pool<F>) -> Option<F>
    ensures { result ≡ format_of_pool pool }
{
    match pool {
        Pool::Automatic { format, .. } => Some(format),
        Pool::OneSize { .. } => None,
        Pool::AnySize => None,
    }
}

/// Whether a pool is automatic.
pub fn is_automatic<F: Format>(pool: Pool<F>) -> bool
    ensures { result ≡ is_automatic_pool pool }
{
    match pool {
        Pool::Automatic { .. } => true,
        Pool::OneSize { .. } => false,
        Pool::AnySize => false,
    }
}

/// Whether a collection moves the blocks of a pool.
pub fn is_copying<F: Format>(pool: Pool<F>) -> bool
    ensures { result ≡ is_copying_pool pool }
{
    match pool {
        Pool::Automatic { kind, .. } => kind.traits().moves,
        Pool::OneSize { .. } => false,
        Pool::AnySize => false,
    }
}

/// What a collection knows of a pool, where it is automatic: the format of its objects, and whether it moves them.
pub fn policy_of_pool<F: Format>(pool: Pool<F>) -> Option<Policy<F>>
    ensures { result ≡ policy_of_pool pool }
{
    let moves = is_copying(pool);
    match pool {
        Pool::Automatic { format, .. } => Some(Policy { format, moves }),
        Pool::OneSize { .. } => None,
        Pool::AnySize => None,
    }
}

/// Whether the objects of a pool have no references.
#[inline(always)]
pub fn is_leaf<F: Format>(pool: Pool<F>) -> bool
    ensures { result ≡ is_leaf_pool pool }
{
    match pool {
        Pool::Automatic { kind, .. } => kind.traits().leaf,
        Pool::OneSize { .. } => false,
        Pool::AnySize => false,
    }
}

/// Whether the objects of a pool may be weak.
pub fn is_weak<F: Format>(pool: Pool<F>) -> bool
    ensures { result ≡ is_weak_pool pool }
{
    match pool {
        Pool::Automatic { kind, .. } => kind.traits().weak,
        Pool::OneSize { .. } => false,
        Pool::AnySize => false,
    }
}

/// The size of a pool's blocks, 0 where that is open.
pub fn size_of_pool<F: Format>(pool: Pool<F>) -> u32
    ensures { result ≡ size_of_pool pool }
{
    match pool {
        Pool::Automatic { .. } => 0,
        Pool::OneSize { words } => words,
        Pool::AnySize => 0,
    }
}

/// Whether a collection moves the blocks of a pool, or leaves them alone since a client frees them.
pub fn is_moved_or_manual<F: Format>(pool: Pool<F>) -> bool
    ensures { result ≡ is_moved_or_manual pool }
{
    !is_automatic(pool) || is_copying(pool)
}
