// The arena, and what lives in it.
#![tactic(auto)]

ghost use Rattle.std.specs.Prelude.{[], ◌≡◌, IfOk};
ghost use Rattle.mps_model.specs.declared.call.Call.TheVariants as call;
ghost use Rattle.mps_refinement.specs.RightStep.{IsRight};
ghost use Rattle.mps_refinement.specs.InWorlds.{SaysLength};
ghost use Rattle.mps_refinement.specs.Answering.{answer_to, says_number, says_ok, says_pair};
ghost use Rattle.mps_heap.specs.Answers.{says_words};
ghost use Rattle.mps_model.specs.declared.reply.Reply.TheVariants as reply;
ghost use Rattle.mps_model.specs.Answer.{Replied};

use super::Heap;
use mps_base::{Addr, Refusal};
use mps_format::Format;
use mps_heap_code::arena;

impl<F: Format> Heap<F> {
    /// Sets the commit limit, in grains. Refuses `BelowCommitted` if more grains are held.
    pub fn limit(&mut self, n: u32) -> Result<(), Refusal>
        ensures right { IsRight F.layout self.old (call.Limit n) [] (answer_to says_ok result) self.new }
        ensures grains { self.new.segs.grains ≡ self.old.segs.grains }
        ensures keys { self.new.names.keys ≡ self.old.names.keys }
    {
        arena::limit(&mut self.state, n)
    }

    /// How many grains are held.
    pub fn committed(&self) -> u32
        ensures right { IsRight F.layout self.now call.Committed [] (says_number result) self.now }
    {
        arena::committed(&self.state)
    }

    /// The arena is clamped: it does nothing by itself. No transform has a pair any more.
    pub fn clamp(&mut self)
        ensures right { IsRight F.layout self.old call.Clamp [] (Replied reply.Ok) self.new }
        ensures grains { self.new.segs.grains ≡ self.old.segs.grains }
        ensures keys { self.new.names.keys ≡ self.old.names.keys }
    {
        arena::clamp(&mut self.state);
    }

    /// The arena is unclamped: it may collect by itself. No transform has a pair any more.
    pub fn release(&mut self)
        ensures right { IsRight F.layout self.old call.Release [] (Replied reply.Ok) self.new }
        ensures grains { self.new.segs.grains ≡ self.old.segs.grains }
        ensures keys { self.new.names.keys ≡ self.old.names.keys }
    {
        arena::release(&mut self.state);
    }

    /// How many blocks live, and how many words they have together.
    pub fn live(&self) -> (u64, u64)
        ensures right { IsRight F.layout self.now call.Live [] (says_pair result) self.now }
    {
        arena::live(&self.state)
    }

    /// How many words the live block has that begins at an address: they are the arena's words there. Refuses `Running` if a collection
    /// runs, and `NotABlock` if none begins there.
    pub fn dump(&self, at: Addr) -> Result<u32, Refusal>
        ensures right { IsRight F.layout self.now (call.Dump at.0) [] (answer_to (says_words self.now.segs.words at) result) self.now }
        ensures image { IfOk result (λ words. SaysLength F.layout self.now at.0 words) }
    {
        arena::dump(&self.state, at.0)
    }
}
