// The heap of a script as a machine that answers commands.
ghost use Rattle.std.specs.Prelude.{◌≡◌, None, OnErr, OnOk, true};
ghost use Rattle.mps_commands.specs.Range.{IsInRange};
ghost use Rattle.mps_model.specs.FirstCall.{is_arena};
ghost use Rattle.mps_session.specs.Memory.{call_takes_memory};
ghost use Rattle.mps_session.specs.Session.{last_moves, arena_words};
ghost use Rattle.mps_session.specs.Standing.{BeginsRightly, SessionStands};

use crate::made::Made;
use mps_base::Move;
use mps_commands::Commands;
use mps_model::{Call, Reply};
use std::alloc::{AllocError, Global};
use std::mem::replace;

/// The heap of a script, once its first command has made the arena, with the allocator from which it takes its memory.
pub struct Session {
    alloc: Global,
    made: Option<Made>,
}

impl Session {
    /// The session before its arena is made. It takes no memory.
    pub fn new(alloc: Global) -> Session
        ensures { result.made ≡ None }
    {
        Session { alloc, made: None }
    }

    /// Answers the call that makes the arena, and writes the reply.
    #[cold]
    #[inline(never)]
    fn begin(&mut self, call: &Call, reply: &mut Reply) -> Result<(), AllocError>
        requires none { self.old.made ≡ None }
        requires which { is_arena call.now ≡ true }
        requires range { IsInRange call.now }
        ensures right { OnOk result (BeginsRightly call.now reply.new self.new.made) }
        ensures unchanged { OnErr result (self.new.made ≡ None) }
    {
        let Call::Arena { grains, limit } = *call else {
            unreachable!()
        };
        let made = Made::new(self.alloc, grains as u32, limit as u32)?;
        if let Some(before) = replace(&mut self.made, Some(made)) {
            before.finish();
        }
        *reply = Reply::Ok;
        Ok(())
    }
}

impl Commands for Session {
    ghost stands_for = { λ s. SessionStands s.made };

    ghost moves = { λ s. last_moves s.made };

    ghost words = { λ s. arena_words s.made };

    ghost takes_memory = { call_takes_memory };

    #[inline(always)]
    fn answer(&mut self, call: &Call, reply: &mut Reply) -> Result<(), AllocError> {
        if let Some(made) = &mut self.made {
            return made.answer(call, reply);
        }
        self.begin(call, reply)
    }

    #[inline(always)]
    fn moves(&self) -> &[Move] {
        match &self.made {
            Some(made) => made.moves(),
            None => &[],
        }
    }

    #[inline(always)]
    fn word(&self, number: usize) -> Option<u64> {
        match &self.made {
            Some(made) => made.word(number),
            None => None,
        }
    }

    fn finish(self) {
        let Session { alloc: _, made } = self;
        if let Some(made) = made {
            made.finish();
        }
    }
}
