// The commands whose words begin with a letter `p` to `r`.
ghost use Rattle.std.specs.Prelude.{◌≡◌};
ghost use Rattle.mps_model.specs.declared.call.Call.TheVariants as call;
ghost use Rattle.mps_numerals.specs.Decimal.{decimal_number};
ghost use Rattle.mps_line_words.specs.Word.{words, word_at, after_word};
ghost use Rattle.mps_line_words.specs.Number.{number_of};
ghost use Rattle.mps_line_words.specs.Name.{name_of, slot_of};
ghost use Rattle.mps_line_words.specs.Head.{head_of};
ghost use Rattle.mps_grammar.specs.Calls.{none, one, two, three};
ghost use Rattle.mps_grammar.specs.Filled.{filled};
ghost use Rattle.mps_grammar.specs.Form.{call_in, p_to_r_forms};

use crate::pools::pool;
use mps_grammar::alone;
use mps_line_words::{
    name, name_decimal, name_head, slot, slot_decimal_slot, slot_slot, slot_value, strip_word,
};
use mps_model::Call;

/// The call of a line at whose beginning stands a command word that begins with a letter `p` to `r`.
#[inline(never)]
pub fn call_of_p_to_r(line: &[u8], into: &mut Call) -> Option<()>
    ensures { filled result into.new ≡ call_in p_to_r_forms (word_at line.now) (words (after_word line.now)) }
{
    if let Some(arguments) = strip_word(line, b"reserve") {
        reserve(arguments, into)
    } else if let Some(arguments) = strip_word(line, b"put") {
        put(arguments, into)
    } else if let Some(arguments) = strip_word(line, b"park") {
        park(arguments, into)
    } else if let Some(arguments) = strip_word(line, b"peek") {
        peek(arguments, into)
    } else if let Some(arguments) = strip_word(line, b"pin") {
        pin(arguments, into)
    } else if let Some(arguments) = strip_word(line, b"poke") {
        poke(arguments, into)
    } else if let Some(arguments) = strip_word(line, b"pool") {
        pool(arguments, into)
    } else if let Some(arguments) = strip_word(line, b"pop") {
        pop(arguments, into)
    } else if let Some(arguments) = strip_word(line, b"push") {
        push(arguments, into)
    } else if let Some(arguments) = strip_word(line, b"release") {
        release(arguments, into)
    } else {
        None
    }
}

/// `park`.
#[inline(never)]
fn park(arguments: &[u8], into: &mut Call) -> Option<()>
    ensures { filled result into.new ≡ none call.Park (words arguments.now) }
{
    alone(arguments)?;
    *into = Call::Park;
    Some(())
}

/// `peek A.I`.
#[inline(never)]
fn peek(arguments: &[u8], into: &mut Call) -> Option<()>
    ensures { filled result into.new ≡ one slot_of call.Peek (words arguments.now) }
{
    let word = slot(arguments)?;
    *into = Call::Peek { word: word.slot() };
    Some(())
}

/// `pin A.I S`.
#[inline(never)]
fn pin(arguments: &[u8], into: &mut Call) -> Option<()>
    ensures { filled result into.new ≡ two slot_of slot_of call.Pin (words arguments.now) }
{
    let (word, slot) = slot_slot(arguments)?;
    *into = Call::Pin {
        word: word.slot(),
        slot: slot.slot(),
    };
    Some(())
}

/// `poke A.I VALUE`.
#[inline(never)]
fn poke(arguments: &[u8], into: &mut Call) -> Option<()>
    ensures { filled result into.new ≡ two slot_of number_of call.Poke (words arguments.now) }
{
    let (word, value) = slot_value(arguments)?;
    *into = Call::Poke {
        word: word.slot(),
        value,
    };
    Some(())
}

/// `pop P N`.
#[inline(never)]
fn pop(arguments: &[u8], into: &mut Call) -> Option<()>
    ensures { filled result into.new ≡ two name_of decimal_number call.Pop (words arguments.now) }
{
    let (pool, frame) = name_decimal(arguments)?;
    *into = Call::Pop {
        pool: pool.name(),
        frame,
    };
    Some(())
}

/// `push P`.
#[inline(never)]
fn push(arguments: &[u8], into: &mut Call) -> Option<()>
    ensures { filled result into.new ≡ one name_of call.Push (words arguments.now) }
{
    let pool = name(arguments)?;
    *into = Call::Push { pool: pool.name() };
    Some(())
}

/// `put DST K SRC`.
#[inline(never)]
fn put(arguments: &[u8], into: &mut Call) -> Option<()>
    ensures { filled result into.new ≡ three slot_of decimal_number slot_of call.Put (words arguments.now) }
{
    let (target, (cell, source)) = slot_decimal_slot(arguments)?;
    *into = Call::Put {
        target: target.slot(),
        cell,
        source: source.slot(),
    };
    Some(())
}

/// `release`.
#[inline(never)]
fn release(arguments: &[u8], into: &mut Call) -> Option<()>
    ensures { filled result into.new ≡ none call.Release (words arguments.now) }
{
    alone(arguments)?;
    *into = Call::Release;
    Some(())
}

/// `reserve X HEAD`.
#[inline(never)]
fn reserve(arguments: &[u8], into: &mut Call) -> Option<()>
    ensures { filled result into.new ≡ two name_of head_of call.Reserve (words arguments.now) }
{
    let (point, head) = name_head(arguments)?;
    *into = Call::Reserve {
        point: point.name(),
        head,
    };
    Some(())
}
