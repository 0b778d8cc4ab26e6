// The trait by which the collector knows a client's objects.
ghost use Rattle.std.specs.Prelude.{◌≡◌, ℕ, ◌%◌, IsTrue, IfSome, IfNone, OnSome, length, slice_index};
ghost use Rattle.mps_format.specs.Layout.{Layout, IsLawful, IsPadLength};
ghost use Rattle.mps_format.specs.Blocks.{IsBlock, BeginsBlock, BeginsForwarded, BeginsPad, BeginsWhole};
ghost use Rattle.mps_format.specs.References.{IsFirstReference, HasNoReference};

use mps_base::Addr;

/// A client object format: which words are heads, and what a head says of its block. Sizes are in words and count the
/// head, which is cell 0. No method takes memory.
pub trait Format: Copy {
    /// What the format says of words.
    ghost layout: { Self → Layout };

    /// Whether the word is the head of a block.
    fn accepts(&self, head: u64) -> bool
        ensures { result ≡ (layout self.now).is_valid head };

    /// The size of a block with this head, in words.
    fn words(&self, head: u64) -> u32
        requires { IsTrue ((layout self.now).is_valid head) }
        ensures { result ≡ (layout self.now).size head };

    /// The length in words of the block, forwarded block or pad that begins `mem`.
    fn skip(&self, mem: &[u64]) -> u32
        requires { BeginsWhole (layout self.now) mem.now }
        ensures block { BeginsBlock (layout self.now) mem.now → result ≡ (layout self.now).size (slice_index mem.now 0) }
        ensures forwarded { (size : ℕ) → BeginsForwarded (layout self.now) mem.now size → result ≡ size }
        ensures pad { (pad : ℕ) → BeginsPad (layout self.now) mem.now pad → result ≡ pad };

    /// The first reference cell of a block with this head, from the cell `from` on.
    fn ref_from(&self, head: u64, from: u32) -> Option<u32>
        requires { IsTrue ((layout self.now).is_valid head) }
        ensures sound { IfSome result (λ k. IsFirstReference (layout self.now) head from k) }
        ensures none { IfNone result (HasNoReference (layout self.now) head from) };

    /// The first reference cell of the block, from the cell `from` on. The slice is the block exactly.
    fn next_ref(&self, block: &[u64], from: u32) -> Option<u32>
        requires { IsBlock (layout self.now) block.now }
        ensures sound { IfSome result (λ k. IsFirstReference (layout self.now) (slice_index block.now 0) from k) }
        ensures none { IfNone result (HasNoReference (layout self.now) (slice_index block.now 0) from) };

    /// Leaves a forwarded block of the same size, whose target is `to`. The slice is a block exactly. What the words
    /// from word 2 on then hold is open.
    fn forward(&self, block: &mut [u64], to: Addr)
        requires { IsBlock (layout self.now) block.old }
        ensures forwarded { BeginsForwarded (layout self.now) block.new (length block.old) }
        ensures target { slice_index block.new 1 ≡ to.0 };

    /// The target of the forwarded block that begins `mem`, or None exactly if no forwarded block begins it.
    fn forwarded(&self, mem: &[u64]) -> Option<Addr>
        ensures complete { (size : ℕ) → BeginsForwarded (layout self.now) mem.now size
            → result ≡ Some (record { 0 = slice_index mem.now 1 }) }
        ensures sound { OnSome result ((size : ℕ) × BeginsForwarded (layout self.now) mem.now size) };

    /// Makes 1 to 65,536 words one pad. What the words from word 1 on then hold is open.
    fn pad(&self, mem: &mut [u64])
        requires { IsPadLength (length mem.old) }
        ensures { BeginsPad (layout self.now) mem.new (length mem.old) };

    /// The address that a reference word leads to, 0 for null: the word less its tag, which is its low three bits.
    fn target(&self, word: u64) -> Addr
        ensures { result.0 ≡ (layout self.now).target word };

    /// The reference word that leads to `to`, a multiple of 8, and has the tag of `word`.
    fn retarget(&self, word: u64, to: Addr) -> u64
        requires { to.0 % 8 ≡ 0 }
        ensures { result ≡ (layout self.now).retarget word to.0 };

    /// The laws, which a caller that is generic in its format may cite.
    ghost lawful: { (f : Self) → IsLawful (layout f) };
}
