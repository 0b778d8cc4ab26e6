// The call of a line.
ghost use Rattle.std.specs.Prelude.{◌≡◌};
ghost use Rattle.mps_script.specs.Filled.{found};
ghost use Rattle.mps_script.specs.Line.{begins_comment, call_of_line};

use crate::commands::command_call;
use mps_line_words::{MAX_LINE_BYTES, after_spaces};
use mps_model::Call;

/// The line is in the form of no command, or has more than 4096 bytes.
#[derive(Clone, Copy, Debug, PartialEq, Eq)]
pub struct BadLine;

/// What begins so is a comment.
#[inline(always)]
fn is_comment(line: &[u8]) -> bool
    ensures { result ≡ begins_comment line.now }
{
    match line {
        [] => false,
        [first, ..] => *first == b'#',
    }
}

/// Writes the call of a line, which has no line feed, and returns true; false if the line has no call: if it is empty,
/// of spaces alone or a comment.
#[inline(always)]
pub fn call_of(line: &[u8], into: &mut Call) -> Result<bool, BadLine>
    ensures { found result into.new ≡ call_of_line line.now }
{
    if line.len() > MAX_LINE_BYTES {
        return Err(BadLine);
    }
    let command = after_spaces(line);
    if command.is_empty() {
        return Ok(false);
    }
    if is_comment(command) {
        return Ok(false);
    }
    match command_call(command, into) {
        None => Err(BadLine),
        Some(()) => Ok(true),
    }
}
