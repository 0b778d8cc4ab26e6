// The commands whose words begin with a letter `s` to `z`.
ghost use Rattle.std.specs.Prelude.{◌≡◌};
ghost use Rattle.mps_model.specs.declared.call.Call.TheVariants as call;
ghost use Rattle.mps_numerals.specs.Decimal.{decimal_number};
ghost use Rattle.mps_line_words.specs.Word.{words, word_at, after_word};
ghost use Rattle.mps_line_words.specs.Number.{number_of};
ghost use Rattle.mps_line_words.specs.Name.{name_of, slot_of};
ghost use Rattle.mps_grammar.specs.Calls.{one, two, three};
ghost use Rattle.mps_grammar.specs.Filled.{filled};
ghost use Rattle.mps_grammar.specs.Form.{call_in, length_of_root, tag_number, s_to_z_forms, start};

use crate::tags::slot_decimal_tag;
use crate::transforms::{transform, transform_add, transform_apply, transform_drop};
use mps_grammar::{alone, name_length};
use mps_line_words::{
    decimal, name_decimal, slot, slot_decimal, slot_decimal_value, slot_slot, strip_word,
};
use mps_model::Call;

/// The call of a line at whose beginning stands a command word that begins with a letter `s` to `z`.
#[inline(never)]
pub fn call_of_s_to_z(line: &[u8], into: &mut Call) -> Option<()>
    ensures { filled result into.new ≡ call_in s_to_z_forms (word_at line.now) (words (after_word line.now)) }
{
    if let Some(arguments) = strip_word(line, b"setnum") {
        set_number(arguments, into)
    } else if let Some(arguments) = strip_word(line, b"settag") {
        set_tag(arguments, into)
    } else if let Some(arguments) = strip_word(line, b"tag") {
        tag(arguments, into)
    } else if let Some(arguments) = strip_word(line, b"same") {
        same(arguments, into)
    } else if let Some(arguments) = strip_word(line, b"store") {
        store(arguments, into)
    } else if let Some(arguments) = strip_word(line, b"start") {
        start(arguments, into)
    } else if let Some(arguments) = strip_word(line, b"step") {
        step(arguments, into)
    } else if let Some(arguments) = strip_word(line, b"table") {
        table(arguments, into)
    } else if let Some(arguments) = strip_word(line, b"take") {
        take(arguments, into)
    } else if let Some(arguments) = strip_word(line, b"transadd") {
        transform_add(arguments, into)
    } else if let Some(arguments) = strip_word(line, b"transapply") {
        transform_apply(arguments, into)
    } else if let Some(arguments) = strip_word(line, b"transdrop") {
        transform_drop(arguments, into)
    } else if let Some(arguments) = strip_word(line, b"transform") {
        transform(arguments, into)
    } else if let Some(arguments) = strip_word(line, b"undepend") {
        undepend(arguments, into)
    } else {
        None
    }
}

/// `same S S2`.
#[inline(never)]
fn same(arguments: &[u8], into: &mut Call) -> Option<()>
    ensures { filled result into.new ≡ two slot_of slot_of call.Same (words arguments.now) }
{
    let (slot, other) = slot_slot(arguments)?;
    *into = Call::Same {
        slot: slot.slot(),
        other: other.slot(),
    };
    Some(())
}

/// `setnum S K VALUE`.
#[inline(never)]
fn set_number(arguments: &[u8], into: &mut Call) -> Option<()>
    ensures { filled result into.new ≡ three slot_of decimal_number number_of call.SetNumber (words arguments.now) }
{
    let (slot, (cell, value)) = slot_decimal_value(arguments)?;
    *into = Call::SetNumber {
        slot: slot.slot(),
        cell,
        value,
    };
    Some(())
}

/// `settag S K N`.
#[inline(never)]
fn set_tag(arguments: &[u8], into: &mut Call) -> Option<()>
    ensures { filled result into.new ≡ three slot_of decimal_number tag_number call.SetTag (words arguments.now) }
{
    let (slot, (cell, tag)) = slot_decimal_tag(arguments)?;
    *into = Call::SetTag {
        slot: slot.slot(),
        cell,
        tag,
    };
    Some(())
}

/// `start` or `start C I`.
#[inline(never)]
pub fn start(arguments: &[u8], into: &mut Call) -> Option<()>
    ensures { filled result into.new ≡ start (words arguments.now) }
{
    if alone(arguments).is_some() {
        *into = Call::Start;
        return Some(());
    }
    let (chain, generation) = name_decimal(arguments)?;
    *into = Call::StartChain {
        chain: chain.name(),
        generation,
    };
    Some(())
}

/// `step N`.
#[inline(never)]
fn step(arguments: &[u8], into: &mut Call) -> Option<()>
    ensures { filled result into.new ≡ one decimal_number call.Step (words arguments.now) }
{
    let units = decimal(arguments)?;
    *into = Call::Step { units };
    Some(())
}

/// `store B.I K VALUE`.
#[inline(never)]
fn store(arguments: &[u8], into: &mut Call) -> Option<()>
    ensures { filled result into.new ≡ three slot_of decimal_number number_of call.Store (words arguments.now) }
{
    let (place, (word, value)) = slot_decimal_value(arguments)?;
    *into = Call::Store {
        place: place.slot(),
        word,
        value,
    };
    Some(())
}

/// `table T N`.
#[inline(never)]
fn table(arguments: &[u8], into: &mut Call) -> Option<()>
    ensures { filled result into.new ≡ two name_of length_of_root call.Table (words arguments.now) }
{
    let (table, length) = name_length(arguments)?;
    *into = Call::Table { table, length };
    Some(())
}

/// `tag S K`.
#[inline(never)]
fn tag(arguments: &[u8], into: &mut Call) -> Option<()>
    ensures { filled result into.new ≡ two slot_of decimal_number call.Tag (words arguments.now) }
{
    let (slot, cell) = slot_decimal(arguments)?;
    *into = Call::Tag {
        slot: slot.slot(),
        cell,
    };
    Some(())
}

/// `take S A.I`.
#[inline(never)]
fn take(arguments: &[u8], into: &mut Call) -> Option<()>
    ensures { filled result into.new ≡ two slot_of slot_of call.Take (words arguments.now) }
{
    let (slot, word) = slot_slot(arguments)?;
    *into = Call::Take {
        slot: slot.slot(),
        word: word.slot(),
    };
    Some(())
}

/// `undepend S`, after `undepend`.
#[inline(never)]
pub fn undepend(arguments: &[u8], into: &mut Call) -> Option<()>
    ensures { filled result into.new ≡ one slot_of call.Undepend (words arguments.now) }
{
    let holder = slot(arguments)?;
    *into = Call::Undepend {
        holder: holder.slot(),
    };
    Some(())
}
