// The format whose heads have a bit per cell.
ghost use Rattle.std.specs.Prelude.{◌≡◌, ℕ, ◌^◌, ◌<◌, ◌≤◌, nat_lt, IfSome, IfNone};
ghost use Rattle.std.specs.Int.{bit_at};

use crate::Format;
use crate::head_word::{
    MAPPED, extra_of_head, size_of_head, tag_of_head, target_of_forwarded, target_of_word,
    word_with_target, write_forwarded, write_pad,
};
use mps_base::Addr;

/// Whether the number has at most this many bits, of 32.
fn fits_bits(mask: u32, bits: u32) -> bool
    requires { bits ≤ 32 }
    ensures { result ≡ nat_lt mask (2 ^ bits) }
{
    bits == 32 || mask < 1 << bits
}

/// The least bit of the mask that is 1 and isn't below `from`.
fn first_set_bit(mask: u32, from: u32) -> Option<u32>
    ensures sound { IfSome result (λ k. (from ≤ k) × (bit_at mask k ≡ 1) × ((j : ℕ) → from ≤ j → j < k → bit_at mask j ≡ 0)) }
    ensures none { IfNone result ((j : ℕ) → from ≤ j → bit_at mask j ≡ 0) }
{
    if from >= 32 {
        return None;
    }
    let rest = mask >> from;
    if rest == 0 {
        None
    } else {
        Some(from + rest.trailing_zeros())
    }
}

/// The format `mapped`: a head has a mask of up to 32 bits, in which bit k says whether cell k is a reference.
#[derive(Clone, Copy, Debug, PartialEq, Eq)]
pub struct Mapped;

impl Format for Mapped {
    ghost use Rattle.mps_format.specs.Mapped.{mapped_layout};
    ghost use Rattle.mps_format.specs.Laws.{mapped_is_lawful};

    ghost layout = { λ _. mapped_layout };

    #[inline(always)]
    fn accepts(&self, head: u64) -> bool {
        let size = size_of_head(head);
        let mask = extra_of_head(head);
        tag_of_head(head) == MAPPED
            && 2 <= size
            && size <= 32
            && mask % 2 == 0
            && fits_bits(mask, size)
    }

    #[inline(always)]
    fn words(&self, head: u64) -> u32 {
        size_of_head(head)
    }

    fn skip(&self, mem: &[u64]) -> u32 {
        size_of_head(mem[0])
    }

    #[inline(always)]
    fn ref_from(&self, head: u64, from: u32) -> Option<u32> {
        first_set_bit(extra_of_head(head), from)
    }

    fn next_ref(&self, block: &[u64], from: u32) -> Option<u32> {
        self.ref_from(block[0], from)
    }

    fn forward(&self, block: &mut [u64], to: Addr) {
        write_forwarded(block, to)
    }

    fn forwarded(&self, mem: &[u64]) -> Option<Addr> {
        target_of_forwarded(mem)
    }

    fn pad(&self, mem: &mut [u64]) {
        write_pad(mem)
    }

    fn target(&self, word: u64) -> Addr {
        target_of_word(word)
    }

    fn retarget(&self, word: u64, to: Addr) -> u64 {
        word_with_target(word, to)
    }

    ghost lawful = { λ _. mapped_is_lawful };
}
