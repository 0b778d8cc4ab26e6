// Items of lists by their indices, and what is kept under a key.
#![tactic(auto)]

ghost use Rattle.std.specs.Prelude.{◌≡◌, Some, slice_get, IfOk};
ghost use Rattle.mps_heap_spec.specs.Finding.{under};

use crate::found::Kept;
use mps_base::Refusal;

/// The item at an index, if there is one.
#[inline(always)]
pub fn item<T: Copy>(items: &[T], index: usize) -> Option<T>
    ensures { result ≡ slice_get items.now index }
{
    items.get(index).copied()
}

/// What is kept under a key. Refuses `BadName` if nothing is.
#[inline(always)]
pub fn under<T>(key: u32, kept: Option<T>) -> Result<Kept<T>, Refusal>
    ensures value { result ≡ under key kept }
    ensures there { IfOk result (λ found. kept ≡ Some found.value) }
    ensures same { IfOk result (λ found. found.key ≡ key) }
{
    match kept {
        Some(value) => Ok(Kept { key, value }),
        None => Err(Refusal::BadName),
    }
}
