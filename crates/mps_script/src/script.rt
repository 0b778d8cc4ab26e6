// The call of the next line of a script.
ghost use Rattle.std.specs.Prelude.{◌≡◌};
ghost use Rattle.mps_model.specs.FirstCall.{is_arena};
ghost use Rattle.mps_script.specs.Filled.{found};
ghost use Rattle.mps_script.specs.Line.{call_of_line};
ghost use Rattle.mps_script.specs.Script.{has_turn, in_turn};

use crate::line::{BadLine, call_of};
use mps_model::Call;

/// Whether a call has its turn in a script, in which there is a call so far or none.
#[inline(always)]
fn has_turn(has_arena: bool, call: &Call) -> bool
    ensures { result ≡ has_turn has_arena (is_arena call.now) }
{
    let is_arena = matches!(call, Call::Arena { .. });
    is_arena != has_arena
}

/// Writes the call of the next line of a script, and returns true; false if the line has no call. Before it a line had a
/// call, and so made the arena, or none had. A first command other than `arena`, and a second `arena`, are bad.
#[inline(always)]
pub fn next_call(has_arena: bool, line: &[u8], into: &mut Call) -> Result<bool, BadLine>
    ensures { found result into.new ≡ in_turn has_arena (call_of_line line.now) }
{
    if !call_of(line, into)? {
        return Ok(false);
    }
    if !has_turn(has_arena, into) {
        return Err(BadLine);
    }
    Ok(true)
}
