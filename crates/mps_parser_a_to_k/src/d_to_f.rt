// The commands whose words begin with a letter `d` to `f`.
ghost use Rattle.std.specs.Prelude.{◌≡◌};
ghost use Rattle.mps_model.specs.declared.call.Call.TheVariants as call;
ghost use Rattle.mps_line_words.specs.Word.{words, word_at, after_word};
ghost use Rattle.mps_line_words.specs.Number.{prefixed_hexadecimal};
ghost use Rattle.mps_line_words.specs.Name.{name_of, slot_of};
ghost use Rattle.mps_grammar.specs.Calls.{one, two};
ghost use Rattle.mps_grammar.specs.Filled.{filled};
ghost use Rattle.mps_grammar.specs.Form.{call_in, d_to_f_forms};

use mps_line_words::{hexadecimal, name, slot, slot_slot, strip_word};
use mps_model::Call;

/// The call of a line at whose beginning stands a command word that begins with a letter `d` to `f`.
#[inline(never)]
pub fn call_of_d_to_f(line: &[u8], into: &mut Call) -> Option<()>
    ensures { filled result into.new ≡ call_in d_to_f_forms (word_at line.now) (words (after_word line.now)) }
{
    if let Some(arguments) = strip_word(line, b"free") {
        free(arguments, into)
    } else if let Some(arguments) = strip_word(line, b"definalize") {
        definalize(arguments, into)
    } else if let Some(arguments) = strip_word(line, b"depend") {
        depend(arguments, into)
    } else if let Some(arguments) = strip_word(line, b"dropap") {
        drop_point(arguments, into)
    } else if let Some(arguments) = strip_word(line, b"droproot") {
        drop_root(arguments, into)
    } else if let Some(arguments) = strip_word(line, b"dump") {
        dump(arguments, into)
    } else if let Some(arguments) = strip_word(line, b"finalize") {
        finalize(arguments, into)
    } else {
        None
    }
}

/// `definalize S`.
#[inline(never)]
fn definalize(arguments: &[u8], into: &mut Call) -> Option<()>
    ensures { filled result into.new ≡ one slot_of call.Definalize (words arguments.now) }
{
    let slot = slot(arguments)?;
    *into = Call::Definalize { slot: slot.slot() };
    Some(())
}

/// `depend S T`, after `depend`.
#[inline(never)]
pub fn depend(arguments: &[u8], into: &mut Call) -> Option<()>
    ensures { filled result into.new ≡ two slot_of slot_of call.Depend (words arguments.now) }
{
    let (holder, dependent) = slot_slot(arguments)?;
    *into = Call::Depend {
        holder: holder.slot(),
        dependent: dependent.slot(),
    };
    Some(())
}

/// `dropap X`.
#[inline(never)]
fn drop_point(arguments: &[u8], into: &mut Call) -> Option<()>
    ensures { filled result into.new ≡ one name_of call.DropPoint (words arguments.now) }
{
    let point = name(arguments)?;
    *into = Call::DropPoint {
        point: point.name(),
    };
    Some(())
}

/// `droproot R`.
#[inline(never)]
fn drop_root(arguments: &[u8], into: &mut Call) -> Option<()>
    ensures { filled result into.new ≡ one name_of call.DropRoot (words arguments.now) }
{
    let root = name(arguments)?;
    *into = Call::DropRoot { root: root.name() };
    Some(())
}

/// `dump HEX`.
#[inline(never)]
fn dump(arguments: &[u8], into: &mut Call) -> Option<()>
    ensures { filled result into.new ≡ one prefixed_hexadecimal call.Dump (words arguments.now) }
{
    let at = hexadecimal(arguments)?;
    *into = Call::Dump { at };
    Some(())
}

/// `finalize S`.
#[inline(never)]
fn finalize(arguments: &[u8], into: &mut Call) -> Option<()>
    ensures { filled result into.new ≡ one slot_of call.Finalize (words arguments.now) }
{
    let slot = slot(arguments)?;
    *into = Call::Finalize { slot: slot.slot() };
    Some(())
}

/// `free B.I`.
#[inline(never)]
fn free(arguments: &[u8], into: &mut Call) -> Option<()>
    ensures { filled result into.new ≡ one slot_of call.Free (words arguments.now) }
{
    let place = slot(arguments)?;
    *into = Call::Free {
        place: place.slot(),
    };
    Some(())
}
