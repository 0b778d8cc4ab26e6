// The commands whose words begin with a letter `a` to `b`.
ghost use Rattle.std.specs.Prelude.{◌≡◌};
ghost use Rattle.mps_model.specs.declared.call.Call.TheVariants as call;
ghost use Rattle.mps_numerals.specs.Decimal.{decimal_number};
ghost use Rattle.mps_line_words.specs.Word.{words, word_at, after_word};
ghost use Rattle.mps_line_words.specs.Name.{name_of, slot_of};
ghost use Rattle.mps_line_words.specs.Reading.{named_in};
ghost use Rattle.mps_grammar.specs.Calls.{one, two, three};
ghost use Rattle.mps_grammar.specs.Filled.{filled};
ghost use Rattle.mps_grammar.specs.Form.{call_in, grains_from, length_of_root, ranks, a_to_b_forms};

use crate::points::name_name_rank;
use mps_grammar::{grains_limit, name_length};
use mps_line_words::{name_decimal_slot, slot, strip_word};
use mps_model::Call;

/// The call of a line at whose beginning stands a command word that begins with a letter `a` to `b`.
#[inline(never)]
pub fn call_of_a_to_b(line: &[u8], into: &mut Call) -> Option<()>
    ensures { filled result into.new ≡ call_in a_to_b_forms (word_at line.now) (words (after_word line.now)) }
{
    if let Some(arguments) = strip_word(line, b"alloc") {
        alloc(arguments, into)
    } else if let Some(arguments) = strip_word(line, b"addr") {
        address(arguments, into)
    } else if let Some(arguments) = strip_word(line, b"ap") {
        point(arguments, into)
    } else if let Some(arguments) = strip_word(line, b"area") {
        area(arguments, into)
    } else if let Some(arguments) = strip_word(line, b"arena") {
        arena(arguments, into)
    } else if let Some(arguments) = strip_word(line, b"blocks") {
        blocks(arguments, into)
    } else {
        None
    }
}

/// `addr S`.
#[inline(never)]
fn address(arguments: &[u8], into: &mut Call) -> Option<()>
    ensures { filled result into.new ≡ one slot_of call.Address (words arguments.now) }
{
    let slot = slot(arguments)?;
    *into = Call::Address { slot: slot.slot() };
    Some(())
}

/// `alloc P SIZE B.I`.
#[inline(never)]
fn alloc(arguments: &[u8], into: &mut Call) -> Option<()>
    ensures { filled result into.new ≡ three name_of decimal_number slot_of call.Alloc (words arguments.now) }
{
    let (pool, (words, place)) = name_decimal_slot(arguments)?;
    *into = Call::Alloc {
        pool: pool.name(),
        words,
        place: place.slot(),
    };
    Some(())
}

/// `area A N`.
#[inline(never)]
fn area(arguments: &[u8], into: &mut Call) -> Option<()>
    ensures { filled result into.new ≡ two name_of length_of_root call.Area (words arguments.now) }
{
    let (area, length) = name_length(arguments)?;
    *into = Call::Area { area, length };
    Some(())
}

/// `arena GRAINS LIMIT`.
#[inline(never)]
fn arena(arguments: &[u8], into: &mut Call) -> Option<()>
    ensures { filled result into.new ≡ two (grains_from 1) (grains_from 0) call.Arena (words arguments.now) }
{
    let (grains, limit) = grains_limit(arguments)?;
    *into = Call::Arena { grains, limit };
    Some(())
}

/// `blocks B N`.
#[inline(never)]
fn blocks(arguments: &[u8], into: &mut Call) -> Option<()>
    ensures { filled result into.new ≡ two name_of length_of_root call.Blocks (words arguments.now) }
{
    let (blocks, length) = name_length(arguments)?;
    *into = Call::Blocks { blocks, length };
    Some(())
}

/// `ap X P exact` or `ap X P weak`.
#[inline(never)]
fn point(arguments: &[u8], into: &mut Call) -> Option<()>
    ensures { filled result into.new ≡ three name_of name_of (named_in ranks) call.Point (words arguments.now) }
{
    let (point, (pool, rank)) = name_name_rank(arguments)?;
    *into = Call::Point { point, pool, rank };
    Some(())
}
