// Which addresses may have a name in a pair.
#![tactic(auto)]

ghost use Rattle.std.specs.Prelude.{◌≡◌, false, replicate, IfOk};
ghost use Rattle.mps_dep.specs.Marks.{marks_count};

use mps_bits::Bits;
use std::alloc::{AllocError, Global};

/// How many marks there are: 16 KiB of bits. Addresses 1 MiB apart have the same.
pub(crate) const MARKS: usize = 131_072;

/// No mark.
pub(crate) fn no_marks(alloc: Global) -> Result<Bits, AllocError>
    ensures { IfOk result (λ marks. marks ≡ replicate marks_count false) }
{
    Bits::new(alloc, MARKS)
}
