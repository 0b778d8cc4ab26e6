// The forms of the command that makes a pool.
ghost use Rattle.std.specs.Prelude.{◌≡◌};
ghost use Rattle.mps_grammar.specs.Calls.{or};
ghost use Rattle.mps_grammar.specs.Filled.{filled};
ghost use Rattle.mps_line_words.specs.Word.{words};
ghost use Rattle.mps_line_words.specs.Name.{name_of as name_in};
ghost use Rattle.mps_line_words.specs.Reading.{named_in, pair};
ghost use Rattle.mps_grammar.specs.Form.{kinds, kinds_on_chains, formats, automatic_pool, pool_on_chain, pool_mfs, pool_mvff, pool_snc, pool};

use mps_base::{Kind, Name};
use mps_line_words::{is_word, name, name_of, next_word, only_word};
use mps_model::Call;
use mps_numerals::decimal_number;

/// A kind of automatic pool.
fn kind_of(word: &[u8]) -> Option<Kind>
    ensures { result ≡ named_in kinds word.now }
{
    if is_word(word, b"amc") {
        Some(Kind::Amc)
    } else if is_word(word, b"amcz") {
        Some(Kind::Amcz)
    } else if is_word(word, b"ams") {
        Some(Kind::Ams)
    } else if is_word(word, b"awl") {
        Some(Kind::Awl)
    } else if is_word(word, b"lo") {
        Some(Kind::Lo)
    } else {
        None
    }
}

/// A kind of pool that may stand on a chain.
fn kind_on_chain(word: &[u8]) -> Option<Kind>
    ensures { result ≡ named_in kinds_on_chains word.now }
{
    if is_word(word, b"amc") {
        Some(Kind::Amc)
    } else if is_word(word, b"amcz") {
        Some(Kind::Amcz)
    } else {
        None
    }
}

/// The number of a format.
fn format_of(word: &[u8]) -> Option<u64>
    ensures { result ≡ named_in formats word.now }
{
    if is_word(word, b"front") {
        Some(1)
    } else if is_word(word, b"mapped") {
        Some(2)
    } else if is_word(word, b"leaf") {
        Some(3)
    } else {
        None
    }
}

/// `pool P KIND FORMAT`, after `pool`.
#[inline(never)]
fn automatic_pool(arguments: &[u8], into: &mut Call) -> Option<()>
    ensures { filled result into.new ≡ automatic_pool (words arguments.now) }
{
    let (first, rest) = next_word(arguments)?;
    let pool = name_of(first)?;
    let (second, rest) = next_word(rest)?;
    let kind = kind_of(second)?;
    let format = format_of(only_word(rest)?)?;
    *into = Call::Pool { pool, kind, format };
    Some(())
}

/// A format and a chain.
fn format_chain(arguments: &[u8]) -> Option<(u64, Name)>
    ensures { result ≡ pair (named_in formats) name_in (words arguments.now) }
{
    let (word, rest) = next_word(arguments)?;
    Some((format_of(word)?, name(rest)?.name()))
}

/// `pool P KIND FORMAT C`, after `pool`.
#[inline(never)]
fn pool_on_chain(arguments: &[u8], into: &mut Call) -> Option<()>
    ensures { filled result into.new ≡ pool_on_chain (words arguments.now) }
{
    let (first, rest) = next_word(arguments)?;
    let pool = name_of(first)?;
    let (second, rest) = next_word(rest)?;
    let kind = kind_on_chain(second)?;
    let (format, chain) = format_chain(rest)?;
    *into = Call::PoolOnChain {
        pool,
        kind,
        format,
        chain,
    };
    Some(())
}

/// `pool P mfs SIZE`, after `pool`.
#[inline(never)]
fn pool_mfs(arguments: &[u8], into: &mut Call) -> Option<()>
    ensures { filled result into.new ≡ pool_mfs (words arguments.now) }
{
    let (first, rest) = next_word(arguments)?;
    let pool = name_of(first)?;
    let (second, rest) = next_word(rest)?;
    if is_word(second, b"mfs") {
        let words = decimal_number(only_word(rest)?)?;
        *into = Call::PoolMfs { pool, words };
        Some(())
    } else {
        None
    }
}

/// `pool P mvff` or `pool P snc`, after `pool`.
#[inline(never)]
fn pool_of_any_sizes(arguments: &[u8], into: &mut Call) -> Option<()>
    ensures { filled result into.new ≡ or pool_mvff pool_snc (words arguments.now) }
{
    let (first, rest) = next_word(arguments)?;
    let pool = name_of(first)?;
    let kind = only_word(rest)?;
    if is_word(kind, b"mvff") {
        *into = Call::PoolMvff { pool };
        Some(())
    } else if is_word(kind, b"snc") {
        *into = Call::PoolFrames { pool };
        Some(())
    } else {
        None
    }
}

/// The forms of `pool`.
#[inline(never)]
pub fn pool(arguments: &[u8], into: &mut Call) -> Option<()>
    ensures { filled result into.new ≡ pool (words arguments.now) }
{
    if automatic_pool(arguments, into).is_some() {
        return Some(());
    }
    if pool_on_chain(arguments, into).is_some() {
        return Some(());
    }
    if pool_mfs(arguments, into).is_some() {
        return Some(());
    }
    pool_of_any_sizes(arguments, into)
}
