// The format whose references are the first cells after the head.
use crate::Format;
use crate::head_word::{
    FRONT, MAX_WORDS, extra_of_head, size_of_head, tag_of_head, target_of_forwarded,
    target_of_word, word_with_target, write_forwarded, write_pad,
};
use mps_base::Addr;

/// The format `front`: a head says how many of the cells from 1 on are references.
#[derive(Clone, Copy, Debug, PartialEq, Eq)]
pub struct Front;

impl Format for Front {
    ghost use Rattle.mps_format.specs.Front.{front_layout};
    ghost use Rattle.mps_format.specs.Laws.{front_is_lawful};

    ghost layout = { λ _. front_layout };

    #[inline(always)]
    fn accepts(&self, head: u64) -> bool {
        let size = size_of_head(head);
        tag_of_head(head) == FRONT && 2 <= size && size <= MAX_WORDS && extra_of_head(head) < size
    }

    #[inline(always)]
    fn words(&self, head: u64) -> u32 {
        size_of_head(head)
    }

    fn skip(&self, mem: &[u64]) -> u32 {
        size_of_head(mem[0])
    }

    #[inline(always)]
    fn ref_from(&self, head: u64, from: u32) -> Option<u32> {
        let first = from.max(1);
        if first <= extra_of_head(head) {
            Some(first)
        } else {
            None
        }
    }

    fn next_ref(&self, block: &[u64], from: u32) -> Option<u32> {
        self.ref_from(block[0], from)
    }

    fn forward(&self, block: &mut [u64], to: Addr) {
        write_forwarded(block, to)
    }

    fn forwarded(&self, mem: &[u64]) -> Option<Addr> {
        target_of_forwarded(mem)
    }

    fn pad(&self, mem: &mut [u64]) {
        write_pad(mem)
    }

    fn target(&self, word: u64) -> Addr {
        target_of_word(word)
    }

    fn retarget(&self, word: u64, to: Addr) -> u64 {
        word_with_target(word, to)
    }

    ghost lawful = { λ _. front_is_lawful };
}
