// The format without references.
use crate::Format;
use crate::head_word::{
    LEAF, MAX_WORDS, extra_of_head, size_of_head, tag_of_head, target_of_forwarded, target_of_word,
    word_with_target, write_forwarded, write_pad,
};
use mps_base::Addr;

/// The format `leaf`: no cell is a reference.
#[derive(Clone, Copy, Debug, PartialEq, Eq)]
pub struct Leaf;

impl Format for Leaf {
    ghost use Rattle.mps_format.specs.Leaf.{leaf_layout};
    ghost use Rattle.mps_format.specs.Laws.{leaf_is_lawful};

    ghost layout = { λ _. leaf_layout };

    #[inline(always)]
    fn accepts(&self, head: u64) -> bool {
        let size = size_of_head(head);
        tag_of_head(head) == LEAF && 2 <= size && size <= MAX_WORDS && extra_of_head(head) == 0
    }

    #[inline(always)]
    fn words(&self, head: u64) -> u32 {
        size_of_head(head)
    }

    fn skip(&self, mem: &[u64]) -> u32 {
        size_of_head(mem[0])
    }

    #[inline(always)]
    fn ref_from(&self, _head: u64, _from: u32) -> Option<u32> {
        None
    }

    fn next_ref(&self, _block: &[u64], _from: u32) -> Option<u32> {
        None
    }

    fn forward(&self, block: &mut [u64], to: Addr) {
        write_forwarded(block, to)
    }

    fn forwarded(&self, mem: &[u64]) -> Option<Addr> {
        target_of_forwarded(mem)
    }

    fn pad(&self, mem: &mut [u64]) {
        write_pad(mem)
    }

    fn target(&self, word: u64) -> Addr {
        target_of_word(word)
    }

    fn retarget(&self, word: u64, to: Addr) -> u64 {
        word_with_target(word, to)
    }

    ghost lawful = { λ _. leaf_is_lawful };
}
