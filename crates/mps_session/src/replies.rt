// The replies to the heap's seldom calls, by their results.
ghost use Rattle.mps_refinement.specs.Answering.{answer_to, says_block, says_bool, says_interned, says_message, says_ok, says_progress, says_word};
ghost use Rattle.mps_refinement.specs.Making.{answer_of_making};
ghost use Rattle.std.specs.Prelude.{◌≡◌, ◌≢◌, Err, IfOk, OnErr};
ghost use Rattle.mps_base.specs.declared.refusal.Refusal.TheVariants.{OutOfMemory};
ghost use Rattle.mps_session.specs.Told.{Tells};

use mps_base::Refusal;
use mps_heap::Progress;
use mps_model::Reply;
use std::alloc::AllocError;

/// The reply to a call that returns nothing.
pub fn done(came: Result<(), Refusal>) -> Reply
    ensures { Tells result (answer_to says_ok came) }
{
    match came {
        Ok(()) => Reply::Ok,
        Err(why) => Reply::Refused(why),
    }
}

/// Of a call that makes a thing. An `Err` says that memory is out.
pub fn made(came: Result<(), Refusal>) -> Result<Reply, AllocError>
    ensures told { IfOk result (λ reply. Tells reply (answer_of_making came)) }
    ensures done { IfOk result (λ reply. came ≢ Err OutOfMemory) }
    ensures out_of_memory { OnErr result (came ≡ Err OutOfMemory) }
{
    match came {
        Ok(()) => Ok(Reply::Ok),
        Err(Refusal::OutOfMemory) => Err(AllocError),
        Err(why) => Ok(Reply::Refused(why)),
    }
}

/// Of a call that asks whether something is so.
pub fn yes_or_no(came: Result<bool, Refusal>) -> Reply
    ensures { Tells result (answer_to says_bool came) }
{
    match came {
        Ok(true) => Reply::Yes,
        Ok(false) => Reply::No,
        Err(why) => Reply::Refused(why),
    }
}

/// Of a call that makes a label.
pub fn interned(came: Result<u32, Refusal>) -> Reply
    ensures { Tells result (answer_to says_interned came) }
{
    match came {
        Ok(number) => Reply::Interned(number),
        Err(why) => Reply::Refused(why),
    }
}

/// Of a call that reads a word of an area.
pub fn word(came: Result<u64, Refusal>) -> Reply
    ensures { Tells result (answer_to says_word came) }
{
    match came {
        Ok(word) => Reply::Word(word),
        Err(why) => Reply::Refused(why),
    }
}

/// Of a call that stores a word in an area.
pub fn block(came: Result<bool, Refusal>) -> Reply
    ensures { Tells result (answer_to says_block came) }
{
    match came {
        Ok(true) => Reply::Block,
        Ok(false) => Reply::Plain,
        Err(why) => Reply::Refused(why),
    }
}

/// Of a call that takes a message.
pub fn message(came: Result<bool, Refusal>) -> Reply
    ensures { Tells result (answer_to says_message came) }
{
    match came {
        Ok(true) => Reply::Ok,
        Ok(false) => Reply::None_,
        Err(why) => Reply::Refused(why),
    }
}

/// Of a step.
pub fn progress(came: Progress) -> Reply
    ensures { Tells result (says_progress came) }
{
    match came {
        Progress::More => Reply::More,
        Progress::Idle => Reply::Idle,
    }
}
