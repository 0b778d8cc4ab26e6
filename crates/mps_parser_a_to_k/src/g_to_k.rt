// The commands whose words begin with a letter `g` to `k`.
ghost use Rattle.std.specs.Prelude.{◌≡◌};
ghost use Rattle.mps_model.specs.declared.call.Call.TheVariants as call;
ghost use Rattle.mps_numerals.specs.Decimal.{decimal_number};
ghost use Rattle.mps_line_words.specs.Word.{words, word_at, after_word};
ghost use Rattle.mps_line_words.specs.Name.{name_of, slot_of};
ghost use Rattle.mps_grammar.specs.Calls.{one, three};
ghost use Rattle.mps_grammar.specs.Filled.{filled};
ghost use Rattle.mps_grammar.specs.Form.{call_in, g_to_k_forms};

use crate::cells::init;
use mps_line_words::{name, slot, slot_slot_decimal, strip_word};
use mps_model::Call;

/// The call of a line at whose beginning stands a command word that begins with a letter `g` to `k`.
#[inline(never)]
pub fn call_of_g_to_k(line: &[u8], into: &mut Call) -> Option<()>
    ensures { filled result into.new ≡ call_in g_to_k_forms (word_at line.now) (words (after_word line.now)) }
{
    if let Some(arguments) = strip_word(line, b"get") {
        get(arguments, into)
    } else if let Some(arguments) = strip_word(line, b"init") {
        init(arguments, into)
    } else if let Some(arguments) = strip_word(line, b"head") {
        head(arguments, into)
    } else if let Some(arguments) = strip_word(line, b"intern") {
        intern(arguments, into)
    } else {
        None
    }
}

/// `get DST SRC K`.
#[inline(never)]
fn get(arguments: &[u8], into: &mut Call) -> Option<()>
    ensures { filled result into.new ≡ three slot_of slot_of decimal_number call.Get (words arguments.now) }
{
    let (target, (source, cell)) = slot_slot_decimal(arguments)?;
    *into = Call::Get {
        target: target.slot(),
        source: source.slot(),
        cell,
    };
    Some(())
}

/// `head S`.
#[inline(never)]
fn head(arguments: &[u8], into: &mut Call) -> Option<()>
    ensures { filled result into.new ≡ one slot_of call.Head (words arguments.now) }
{
    let slot = slot(arguments)?;
    *into = Call::Head { slot: slot.slot() };
    Some(())
}

/// `intern L`.
#[inline(never)]
fn intern(arguments: &[u8], into: &mut Call) -> Option<()>
    ensures { filled result into.new ≡ one name_of call.Intern (words arguments.now) }
{
    let label = name(arguments)?;
    *into = Call::Intern {
        label: label.name(),
    };
    Some(())
}
