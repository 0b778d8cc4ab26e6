// The commands whose words begin with `c`.
ghost use Rattle.std.specs.Prelude.{◌≡◌};
ghost use Rattle.mps_model.specs.declared.call.Call.TheVariants as call;
ghost use Rattle.mps_line_words.specs.Word.{words, word_at, after_word};
ghost use Rattle.mps_line_words.specs.Name.{name_of, slot_of};
ghost use Rattle.mps_grammar.specs.Calls.{none, one, two};
ghost use Rattle.mps_grammar.specs.Filled.{filled};
ghost use Rattle.mps_grammar.specs.Form.{call_in, c_forms};

use crate::caches::{cache, cache_alloc, cache_flush, cache_free};
use crate::chain::chain;
use mps_grammar::alone;
use mps_line_words::{name_slot, slot, slot_slot, strip_word};
use mps_model::Call;

/// The call of a line at whose beginning stands a command word that begins with `c`.
#[inline(never)]
pub fn call_of_c(line: &[u8], into: &mut Call) -> Option<()>
    ensures { filled result into.new ≡ call_in c_forms (word_at line.now) (words (after_word line.now)) }
{
    if let Some(arguments) = strip_word(line, b"commit") {
        commit(arguments, into)
    } else if let Some(arguments) = strip_word(line, b"copy") {
        copy(arguments, into)
    } else if let Some(arguments) = strip_word(line, b"calloc") {
        cache_alloc(arguments, into)
    } else if let Some(arguments) = strip_word(line, b"cfree") {
        cache_free(arguments, into)
    } else if let Some(arguments) = strip_word(line, b"cflush") {
        cache_flush(arguments, into)
    } else if let Some(arguments) = strip_word(line, b"cache") {
        cache(arguments, into)
    } else if let Some(arguments) = strip_word(line, b"chain") {
        chain(arguments, into)
    } else if let Some(arguments) = strip_word(line, b"clamp") {
        clamp(arguments, into)
    } else if let Some(arguments) = strip_word(line, b"clear") {
        clear(arguments, into)
    } else if let Some(arguments) = strip_word(line, b"collect") {
        collect(arguments, into)
    } else if let Some(arguments) = strip_word(line, b"committed") {
        committed(arguments, into)
    } else {
        None
    }
}

/// `clamp`.
#[inline(never)]
fn clamp(arguments: &[u8], into: &mut Call) -> Option<()>
    ensures { filled result into.new ≡ none call.Clamp (words arguments.now) }
{
    alone(arguments)?;
    *into = Call::Clamp;
    Some(())
}

/// `clear S`.
#[inline(never)]
fn clear(arguments: &[u8], into: &mut Call) -> Option<()>
    ensures { filled result into.new ≡ one slot_of call.Clear (words arguments.now) }
{
    let slot = slot(arguments)?;
    *into = Call::Clear { slot: slot.slot() };
    Some(())
}

/// `collect`.
#[inline(never)]
fn collect(arguments: &[u8], into: &mut Call) -> Option<()>
    ensures { filled result into.new ≡ none call.Collect (words arguments.now) }
{
    alone(arguments)?;
    *into = Call::Collect;
    Some(())
}

/// `commit X SLOT`.
#[inline(never)]
fn commit(arguments: &[u8], into: &mut Call) -> Option<()>
    ensures { filled result into.new ≡ two name_of slot_of call.Commit (words arguments.now) }
{
    let (point, target) = name_slot(arguments)?;
    *into = Call::Commit {
        point: point.name(),
        target: target.slot(),
    };
    Some(())
}

/// `committed`.
#[inline(never)]
fn committed(arguments: &[u8], into: &mut Call) -> Option<()>
    ensures { filled result into.new ≡ none call.Committed (words arguments.now) }
{
    alone(arguments)?;
    *into = Call::Committed;
    Some(())
}

/// `copy DST SRC`.
#[inline(never)]
fn copy(arguments: &[u8], into: &mut Call) -> Option<()>
    ensures { filled result into.new ≡ two slot_of slot_of call.Copy (words arguments.now) }
{
    let (target, source) = slot_slot(arguments)?;
    *into = Call::Copy {
        target: target.slot(),
        source: source.slot(),
    };
    Some(())
}
