// A machine that answers the commands of a script.
ghost use Rattle.std.specs.Prelude.{◌≡◌, ℕ, List, Bool, slice_get, OnOk, OnErr, IsTrue};
ghost use Rattle.mps_base.specs.declared.moves.Move.{Move};
ghost use Rattle.mps_model.specs.Answer.{answer_of};
ghost use Rattle.mps_model.specs.declared.call.Call.{Call};
ghost use Rattle.mps_model.specs.World.{World};
ghost use Rattle.mps_commands.specs.Asked.{IsAsked};
ghost use Rattle.mps_commands.specs.Range.{IsInRange};
ghost use Rattle.mps_commands.specs.RightAnswer.{IsLegalIn, StandsAfter, StandsStill};

use mps_base::Move;
use mps_model::{Call, Reply};
use std::alloc::AllocError;

/// A machine that answers commands, one after another, as the model says. It represents worlds of the model, and after each
/// answer the worlds after that step.
///
/// Who runs commands on it needs no other promise: it is proved once for every machine. A machine must be
/// consumed by `finish`.
pub trait Commands {
    /// The worlds for which the machine stands.
    ghost stands_for: { Self → World → Type 0 };

    /// The moves of the last call.
    ghost moves: { Self → List Move };

    /// The words of the arena.
    ghost words: { Self → List ℕ };

    /// Whether a call takes memory.
    ghost takes_memory: { Call → Bool };

    /// Answers a call, and writes the reply if it is to stand. An `Err` says that memory is out: then nothing was done, and what
    /// stands there is left open.
    fn answer(&mut self, call: &Call, reply: &mut Reply) -> Result<(), AllocError>
        requires range { IsInRange call.now }
        // It is asked in its turn: `arena` first and never again, and in a world of fewer than 2^32 flips.
        requires asked { IsAsked (stands_for self.old) call.now }
        // In each line the call with its moves and its answer is a legal step.
        ensures legal { OnOk result (IsLegalIn (stands_for self.old) call.now (moves self.new)
            (answer_of (words self.new) reply.new)) }
        // The machine then represents the world after that step.
        ensures stands { OnOk result (StandsAfter (stands_for self.old) (stands_for self.new) call.now (moves self.new)
            (answer_of (words self.new) reply.new)) }
        ensures unchanged { OnErr result (StandsStill (stands_for self.old) (stands_for self.new)) }
        ensures memory { OnErr result (IsTrue (takes_memory call.now)) };

    /// The moves that the last call made, in order.
    fn moves(&self) -> &[Move]
        ensures { result.now ≡ moves self.now };

    /// The word of a number, which is its address divided by 8; none if the arena has no such word. A reply `Words` names some words.
    fn word(&self, number: usize) -> Option<u64>
        ensures { result ≡ slice_get (words self.now) number };

    /// Ends the machine.
    fn finish(self);
}
