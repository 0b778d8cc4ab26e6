// A format of a runtime's own.
use mps_base::Addr;
use mps_format::Format;

/// A format whose last two cells are references. A head is eight times the size in words and 1.
#[derive(Clone, Copy)]
pub struct Tail;

impl Format for Tail {
    ghost use Rattle.mps_format.specs.TailExample.{tail_layout, tail_is_lawful};

    ghost layout = { λ _. tail_layout };

    fn accepts(&self, head: u64) -> bool {
        let size = head / 8;
        head % 8 == 1 && 3 <= size && size <= 65_536
    }

    fn words(&self, head: u64) -> u32 {
        (head / 8) as u32
    }

    fn skip(&self, mem: &[u64]) -> u32 {
        (mem[0] / 8) as u32
    }

    fn ref_from(&self, head: u64, from: u32) -> Option<u32> {
        let size = self.words(head);
        let first = from.max(size - 2);
        if first < size { Some(first) } else { None }
    }

    fn next_ref(&self, block: &[u64], from: u32) -> Option<u32> {
        self.ref_from(block[0], from)
    }

    fn forward(&self, block: &mut [u64], to: Addr) {
        block[0] = block[0] + 1;
        block[1] = to.0;
    }

    fn forwarded(&self, mem: &[u64]) -> Option<Addr> {
        let head = *mem.first()?;
        let size = head / 8;
        if head % 8 == 2 && 2 <= size && size <= 65_536 && size as usize <= mem.len() {
            Some(Addr(mem[1]))
        } else {
            None
        }
    }

    fn pad(&self, mem: &mut [u64]) {
        mem[0] = 8 * mem.len() as u64 + 3;
    }

    fn target(&self, word: u64) -> Addr {
        Addr(word - word % 8)
    }

    fn retarget(&self, word: u64, to: Addr) -> u64 {
        to.0 + word % 8
    }

    ghost lawful = { λ _. tail_is_lawful };
}
