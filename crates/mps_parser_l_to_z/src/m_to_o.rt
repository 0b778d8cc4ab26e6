// The commands whose words begin with a letter `m` to `o`.
ghost use Rattle.std.specs.Prelude.{◌≡◌};
ghost use Rattle.mps_model.specs.declared.call.Call.TheVariants as call;
ghost use Rattle.mps_numerals.specs.Decimal.{decimal_number};
ghost use Rattle.mps_line_words.specs.Word.{words, word_at, after_word};
ghost use Rattle.mps_line_words.specs.Name.{slot_of};
ghost use Rattle.mps_grammar.specs.Calls.{one, two};
ghost use Rattle.mps_grammar.specs.Filled.{filled};
ghost use Rattle.mps_grammar.specs.Form.{call_in, m_to_o_forms};

use mps_line_words::{slot, slot_decimal, strip_word};
use mps_model::Call;

/// The call of a line at whose beginning stands a command word that begins with a letter `m` to `o`.
#[inline(never)]
pub fn call_of_m_to_o(line: &[u8], into: &mut Call) -> Option<()>
    ensures { filled result into.new ≡ call_in m_to_o_forms (word_at line.now) (words (after_word line.now)) }
{
    if let Some(arguments) = strip_word(line, b"num") {
        number(arguments, into)
    } else if let Some(arguments) = strip_word(line, b"null") {
        null(arguments, into)
    } else if let Some(arguments) = strip_word(line, b"message") {
        message(arguments, into)
    } else {
        None
    }
}

/// `message S`.
#[inline(never)]
fn message(arguments: &[u8], into: &mut Call) -> Option<()>
    ensures { filled result into.new ≡ one slot_of call.Message (words arguments.now) }
{
    let slot = slot(arguments)?;
    *into = Call::Message { slot: slot.slot() };
    Some(())
}

/// `null S`.
#[inline(never)]
fn null(arguments: &[u8], into: &mut Call) -> Option<()>
    ensures { filled result into.new ≡ one slot_of call.Null (words arguments.now) }
{
    let slot = slot(arguments)?;
    *into = Call::Null { slot: slot.slot() };
    Some(())
}

/// `num S K`.
#[inline(never)]
fn number(arguments: &[u8], into: &mut Call) -> Option<()>
    ensures { filled result into.new ≡ two slot_of decimal_number call.Number (words arguments.now) }
{
    let (slot, cell) = slot_decimal(arguments)?;
    *into = Call::Number {
        slot: slot.slot(),
        cell,
    };
    Some(())
}
