// The replies to the heap's frequent calls are written in place, by their results: a reply that is returned would be written twice.
ghost use Rattle.mps_refinement.specs.Answering.{answer_to, says_bool, says_committed, says_head, says_labelled, says_number, says_ok};
ghost use Rattle.mps_heap.specs.Answers.{says_address};
ghost use Rattle.mps_session.specs.Told.{Tells};

use mps_base::{Addr, Refusal};
use mps_heap::Committed;
use mps_model::Reply;

/// The reply to a call that returns nothing.
#[inline(always)]
pub fn done(reply: &mut Reply, came: Result<(), Refusal>)
    ensures { Tells reply.new (answer_to says_ok came) }
{
    match came {
        Ok(()) => *reply = Reply::Ok,
        Err(why) => *reply = Reply::Refused(why),
    }
}

/// Of a call that asks whether something is so.
#[inline(always)]
pub fn yes_or_no(reply: &mut Reply, came: Result<bool, Refusal>)
    ensures { Tells reply.new (answer_to says_bool came) }
{
    match came {
        Ok(true) => *reply = Reply::Yes,
        Ok(false) => *reply = Reply::No,
        Err(why) => *reply = Reply::Refused(why),
    }
}

/// Of a call that reads a number.
#[inline(always)]
pub fn number(reply: &mut Reply, came: Result<u64, Refusal>)
    ensures { Tells reply.new (answer_to says_number came) }
{
    match came {
        Ok(n) => *reply = Reply::Number(n),
        Err(why) => *reply = Reply::Refused(why),
    }
}

/// Of a call that reads a tag.
#[inline(always)]
pub fn tag(reply: &mut Reply, came: Result<u8, Refusal>)
    ensures { Tells reply.new (answer_to says_number came) }
{
    match came {
        Ok(n) => *reply = Reply::Number(u64::from(n)),
        Err(why) => *reply = Reply::Refused(why),
    }
}

/// Of a call that counts something.
#[inline(always)]
pub fn count(reply: &mut Reply, came: Result<u32, Refusal>)
    ensures { Tells reply.new (answer_to says_number came) }
{
    match came {
        Ok(n) => *reply = Reply::Number(u64::from(n)),
        Err(why) => *reply = Reply::Refused(why),
    }
}

/// Of a call that labels an object.
#[inline(always)]
pub fn labelled(reply: &mut Reply, came: Result<(Addr, u32), Refusal>)
    ensures { Tells reply.new (answer_to says_labelled came) }
{
    match came {
        Ok((at, number)) => *reply = Reply::Labelled(at, number),
        Err(why) => *reply = Reply::Refused(why),
    }
}

/// Of a call that reads a head.
#[inline(always)]
pub fn head(reply: &mut Reply, came: Result<u64, Refusal>)
    ensures { Tells reply.new (answer_to says_head came) }
{
    match came {
        Ok(word) => *reply = Reply::Head(word),
        Err(why) => *reply = Reply::Refused(why),
    }
}

/// Of a call that asks for an address.
#[inline(always)]
pub fn address(reply: &mut Reply, came: Result<Addr, Refusal>)
    ensures { Tells reply.new (answer_to says_address came) }
{
    match came {
        Ok(at) => *reply = Reply::Word(at.0),
        Err(why) => *reply = Reply::Refused(why),
    }
}

/// Of a commit.
#[inline(always)]
pub fn committed(reply: &mut Reply, came: Result<Committed, Refusal>)
    ensures { Tells reply.new (answer_to says_committed came) }
{
    match came {
        Ok(Committed::AsBlock) => *reply = Reply::Ok,
        Ok(Committed::AsFlipped) => *reply = Reply::Flipped,
        Err(why) => *reply = Reply::Refused(why),
    }
}
