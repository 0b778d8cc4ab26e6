// The end of a command.
ghost use Rattle.std.specs.Prelude.{◌≡◌};
ghost use Rattle.mps_model.specs.declared.call.Call.{Call};
ghost use Rattle.mps_line_words.specs.Word.{words};
ghost use Rattle.mps_grammar.specs.Calls.{none};
ghost use Rattle.mps_grammar.specs.Filled.{filled};

use mps_line_words::is_blank;

/// No word is left.
#[inline(always)]
pub fn alone(arguments: &[u8]) -> Option<()>
    ensures { (c : Call) → filled result c ≡ none c (words arguments.now) }
{
    if is_blank(arguments) { Some(()) } else { None }
}
