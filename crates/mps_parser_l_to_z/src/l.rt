// The commands whose words begin with `l`.
ghost use Rattle.std.specs.Prelude.{◌≡◌};
ghost use Rattle.mps_model.specs.declared.call.Call.TheVariants as call;
ghost use Rattle.mps_numerals.specs.Decimal.{decimal_number};
ghost use Rattle.mps_line_words.specs.Word.{words, word_at, after_word};
ghost use Rattle.mps_line_words.specs.Name.{name_of, slot_of};
ghost use Rattle.mps_grammar.specs.Calls.{none, one, two};
ghost use Rattle.mps_grammar.specs.Filled.{filled};
ghost use Rattle.mps_grammar.specs.Form.{call_in, grains_from, l_forms};

use mps_grammar::{alone, grains};
use mps_line_words::{name, name_name, name_slot, slot_decimal, slot_name, strip_word};
use mps_model::Call;

/// The call of a line at whose beginning stands a command word that begins with `l`.
#[inline(never)]
pub fn call_of_l(line: &[u8], into: &mut Call) -> Option<()>
    ensures { filled result into.new ≡ call_in l_forms (word_at line.now) (words (after_word line.now)) }
{
    if let Some(arguments) = strip_word(line, b"load") {
        load(arguments, into)
    } else if let Some(arguments) = strip_word(line, b"label") {
        label(arguments, into)
    } else if let Some(arguments) = strip_word(line, b"ld") {
        dependency(arguments, into)
    } else if let Some(arguments) = strip_word(line, b"ldadd") {
        dependency_add(arguments, into)
    } else if let Some(arguments) = strip_word(line, b"ldmerge") {
        dependency_merge(arguments, into)
    } else if let Some(arguments) = strip_word(line, b"ldreset") {
        dependency_reset(arguments, into)
    } else if let Some(arguments) = strip_word(line, b"ldstale") {
        dependency_stale(arguments, into)
    } else if let Some(arguments) = strip_word(line, b"limit") {
        limit(arguments, into)
    } else if let Some(arguments) = strip_word(line, b"live") {
        live(arguments, into)
    } else {
        None
    }
}

/// `ld D`.
#[inline(never)]
fn dependency(arguments: &[u8], into: &mut Call) -> Option<()>
    ensures { filled result into.new ≡ one name_of call.Dependency (words arguments.now) }
{
    let dependency = name(arguments)?;
    *into = Call::Dependency {
        dependency: dependency.name(),
    };
    Some(())
}

/// `ldadd D S`.
#[inline(never)]
fn dependency_add(arguments: &[u8], into: &mut Call) -> Option<()>
    ensures { filled result into.new ≡ two name_of slot_of call.DependencyAdd (words arguments.now) }
{
    let (dependency, slot) = name_slot(arguments)?;
    *into = Call::DependencyAdd {
        dependency: dependency.name(),
        slot: slot.slot(),
    };
    Some(())
}

/// `ldmerge D E`.
#[inline(never)]
fn dependency_merge(arguments: &[u8], into: &mut Call) -> Option<()>
    ensures { filled result into.new ≡ two name_of name_of call.DependencyMerge (words arguments.now) }
{
    let (dependency, source) = name_name(arguments)?;
    *into = Call::DependencyMerge {
        dependency: dependency.name(),
        source: source.name(),
    };
    Some(())
}

/// `ldreset D`.
#[inline(never)]
fn dependency_reset(arguments: &[u8], into: &mut Call) -> Option<()>
    ensures { filled result into.new ≡ one name_of call.DependencyReset (words arguments.now) }
{
    let dependency = name(arguments)?;
    *into = Call::DependencyReset {
        dependency: dependency.name(),
    };
    Some(())
}

/// `ldstale D`.
#[inline(never)]
fn dependency_stale(arguments: &[u8], into: &mut Call) -> Option<()>
    ensures { filled result into.new ≡ one name_of call.DependencyStale (words arguments.now) }
{
    let dependency = name(arguments)?;
    *into = Call::DependencyStale {
        dependency: dependency.name(),
    };
    Some(())
}

/// `label S L`.
#[inline(never)]
fn label(arguments: &[u8], into: &mut Call) -> Option<()>
    ensures { filled result into.new ≡ two slot_of name_of call.Label (words arguments.now) }
{
    let (slot, label) = slot_name(arguments)?;
    *into = Call::Label {
        slot: slot.slot(),
        label: label.name(),
    };
    Some(())
}

/// `limit N`.
#[inline(never)]
fn limit(arguments: &[u8], into: &mut Call) -> Option<()>
    ensures { filled result into.new ≡ one (grains_from 0) call.Limit (words arguments.now) }
{
    let limit = grains(arguments)?;
    *into = Call::Limit { limit };
    Some(())
}

/// `live`.
#[inline(never)]
fn live(arguments: &[u8], into: &mut Call) -> Option<()>
    ensures { filled result into.new ≡ none call.Live (words arguments.now) }
{
    alone(arguments)?;
    *into = Call::Live;
    Some(())
}

/// `load B.I K`.
#[inline(never)]
fn load(arguments: &[u8], into: &mut Call) -> Option<()>
    ensures { filled result into.new ≡ two slot_of decimal_number call.Load (words arguments.now) }
{
    let (place, word) = slot_decimal(arguments)?;
    *into = Call::Load {
        place: place.slot(),
        word,
    };
    Some(())
}
