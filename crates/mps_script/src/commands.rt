// The call of a command.
ghost use Rattle.std.specs.Prelude.{◌≡◌};
ghost use Rattle.mps_grammar.specs.Filled.{filled};
ghost use Rattle.mps_line_words.specs.Word.{words, word_at, after_word};
ghost use Rattle.mps_grammar.specs.Form.{command_call};

use mps_model::Call;
use mps_parser_a_to_k::{call_of_a_to_b, call_of_c, call_of_d_to_f, call_of_g_to_k};
use mps_parser_l_to_z::{call_of_l, call_of_m_to_o, call_of_p_to_r, call_of_s_to_z};

/// The call of a line at whose beginning a word stands, if its words are in the form of a command.
#[inline(always)]
pub fn command_call(line: &[u8], into: &mut Call) -> Option<()>
    ensures { filled result into.new ≡ command_call (word_at line.now) (words (after_word line.now)) }
{
    match line {
        [b'a' | b'b', ..] => call_of_a_to_b(line, into),
        [b'c', ..] => call_of_c(line, into),
        [b'd' | b'e' | b'f', ..] => call_of_d_to_f(line, into),
        [b'g' | b'h' | b'i' | b'j' | b'k', ..] => call_of_g_to_k(line, into),
        [b'l', ..] => call_of_l(line, into),
        [b'm' | b'n' | b'o', ..] => call_of_m_to_o(line, into),
        [b'p' | b'q' | b'r', ..] => call_of_p_to_r(line, into),
        [b's' | b't' | b'u' | b'v' | b'w' | b'x' | b'y' | b'z', ..] => call_of_s_to_z(line, into),
        _ => None,
    }
}
