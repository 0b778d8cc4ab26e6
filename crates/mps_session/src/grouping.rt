// The groups of calls that a script has most of.
ghost use Rattle.std.specs.Prelude.{◌≡◌};
ghost use Rattle.mps_session.specs.Groups.{is_manual, is_manual_group, is_moving_group, is_reading_group, is_writing_group, may_move, reads_words, writes_words};

use mps_model::Call;

/// A group of calls.
pub enum Group {
    /// A call reads a slot, or a word of an object or a manual block.
    Reading,
    /// A call makes an object, or reads a reference, and so may make moves.
    Moving,
    /// A call makes or ends manual blocks, or opens or closes a frame of them, and so may make moves.
    Manual,
    /// A call writes a slot, or a word of an object, a reservation or a manual block.
    Writing,
    /// A call of which a script has few.
    Seldom,
}

/// The group of a call, by one look at its kind.
#[inline(always)]
pub fn group_of(call: &Call) -> Group
    ensures reading { is_reading_group result ≡ reads_words call.now }
    ensures moving { is_moving_group result ≡ may_move call.now }
    ensures manual { is_manual_group result ≡ is_manual call.now }
    ensures writing { is_writing_group result ≡ writes_words call.now }
{
    match call {
        Call::Number { .. }
        | Call::Same { .. }
        | Call::Null { .. }
        | Call::Head { .. }
        | Call::Address { .. }
        | Call::Load { .. }
        | Call::Tag { .. }
        | Call::Label { .. } => Group::Reading,
        Call::Reserve { .. } | Call::Commit { .. } | Call::Get { .. } => Group::Moving,
        Call::Alloc { .. }
        | Call::Free { .. }
        | Call::CacheAlloc { .. }
        | Call::CacheFree { .. }
        | Call::CacheFlush { .. }
        | Call::Push { .. }
        | Call::Pop { .. } => Group::Manual,
        Call::Put { .. }
        | Call::SetNumber { .. }
        | Call::Copy { .. }
        | Call::Clear { .. }
        | Call::InitNumber { .. }
        | Call::InitReference { .. }
        | Call::Store { .. }
        | Call::SetTag { .. } => Group::Writing,
        _ => Group::Seldom,
    }
}
