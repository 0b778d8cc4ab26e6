// The words of manual blocks and of leaf objects are borrowed.
#![tactic(auto)]

ghost use Rattle.std.specs.Prelude.{MatchResult, Ok, Err, map, ◌≡◌};
ghost use Rattle.std.specs.Fn.{FnOnceReturnsAtMut};
ghost use Rattle.mps_model.specs.Graph.{NumberCell};
ghost use Rattle.mps_heap.specs.Lending.{ComesTo, IsBorrowedAndWritten, IsNotBorrowed, words_of_block, cells_of_leaf};

use super::Heap;
use mps_base::{Refusal, Slot};
use mps_format::Format;
use mps_heap_manual::lending;

impl<F: Format> Heap<F> {
    /// Lends the words of the manual block in a place, and no others. Refuses `BadName`, `BadIndex`, and `NotABlock` if the place is
    /// empty.
    pub fn lend(&self, place: Slot) -> Result<&[u64], Refusal>
        ensures right { MatchResult result (λ words. ComesTo F.layout self.now (λ w. words_of_block w place) (Ok words.now))
            (λ why. ComesTo F.layout self.now (λ w. words_of_block w place) (Err why)) }
    {
        lending::lend(&self.state, place)
    }

    /// Lends the words of the manual block in a place, and no others, to a closure, which may write them, and returns what the closure
    /// does. What it leaves in them is what a `store` of each word would leave. Refuses as `lend` does, and then the closure isn't
    /// called.
    pub fn lend_mut<R, W: FnOnce(&mut [u64]) -> R>(
        &mut self,
        place: Slot,
        write: W,
    ) -> Result<R, Refusal>
        requires callable { W.IsAlwaysCallable write }
        ensures right { MatchResult result
            (λ r. IsBorrowedAndWritten F.layout self.old place (λ words left. FnOnceReturnsAtMut W.FnOnce write words r left) self.new)
            (λ why. IsNotBorrowed F.layout self.old place why self.new) }
        ensures grains { self.new.segs.grains ≡ self.old.segs.grains }
        ensures keys { self.new.names.keys ≡ self.old.names.keys }
    {
        lending::lend_mut(&mut self.state, place, write)
    }

    /// Lends the words after the head of the object in a slot: the numbers in its cells from cell 1 on. Refuses `BadName`,
    /// `BadIndex`, `NullRef` if the slot is null, and `WrongPool` if the object's pool isn't a leaf pool, that is one of the kind `Amcz`
    /// or `Lo`.
    pub fn lend_leaf(&self, slot: Slot) -> Result<&[u64], Refusal>
        ensures right { MatchResult result (λ words. ComesTo F.layout self.now (λ w. cells_of_leaf w slot)
            (Ok (map NumberCell words.now))) (λ why. ComesTo F.layout self.now (λ w. cells_of_leaf w slot) (Err why)) }
    {
        lending::lend_leaf(&self.state, slot)
    }
}
