// The forms of the commands on allocation caches.
ghost use Rattle.std.specs.Prelude.{◌≡◌, length, option_map};
ghost use Rattle.mps_model.specs.declared.call.Call.TheVariants as call;
ghost use Rattle.mps_numerals.specs.Decimal.{decimal_number as decimal_in};
ghost use Rattle.mps_line_words.specs.Word.{words};
ghost use Rattle.mps_line_words.specs.Name.{name_of as name_in, slot_of};
ghost use Rattle.mps_grammar.specs.Calls.{one, two, three};
ghost use Rattle.mps_grammar.specs.Filled.{filled};
ghost use Rattle.mps_grammar.specs.Form.{cache, class_limit, class_size, classes, padded};

use mps_line_words::{name, name_decimal_slot, name_of, name_slot, next_word, number_within};
use mps_model::Call;
use mps_numerals::decimal_number;

/// The most classes of a cache.
const MAX_CLASSES: usize = 8;

/// The most blocks that a class keeps.
const MAX_CACHED: u64 = 64;

/// One word more than the largest block has. Every size from this one on is refused alike.
const TOO_LARGE: u64 = 65_537;

/// The sizes of classes, in words, and the most blocks that each of them keeps.
type Classes = ([u32; MAX_CLASSES], [u8; MAX_CLASSES]);

/// The size of the blocks of a class, in words.
fn class_size(word: &[u8]) -> Option<u32>
    ensures { result ≡ class_size word.now }
{
    let size = decimal_number(word)?;
    if size < TOO_LARGE {
        Some(size as u32)
    } else {
        Some(TOO_LARGE as u32)
    }
}

/// How many blocks a class keeps at most.
fn class_limit(word: &[u8]) -> Option<u8>
    ensures { result ≡ class_limit word.now }
{
    Some(number_within(0, MAX_CACHED, word)? as u8)
}

/// How many classes there are, and the classes.
fn classes(arguments: &[u8]) -> Option<(u8, Classes)>
    ensures { result ≡ option_map (λ given. (length given.0, (padded given.0, padded given.1))) (classes (words arguments.now)) }
{
    let mut sizes = [0u32; MAX_CLASSES];
    let mut limits = [0u8; MAX_CLASSES];
    let mut rest = arguments;
    for count in 0..MAX_CLASSES {
        let Some((size, after_size)) = next_word(rest) else {
            return if count == 0 {
                None
            } else {
                Some((count as u8, (sizes, limits)))
            };
        };
        let (limit, after) = next_word(after_size)?;
        sizes[count] = class_size(size)?;
        limits[count] = class_limit(limit)?;
        rest = after;
    }
    match next_word(rest) {
        None => Some((MAX_CLASSES as u8, (sizes, limits))),
        Some(_) => None,
    }
}

/// `cache Q P CLASSES`, after `cache`.
#[inline(never)]
pub fn cache(arguments: &[u8], into: &mut Call) -> Option<()>
    ensures { filled result into.new ≡ cache (words arguments.now) }
{
    let (first, rest) = next_word(arguments)?;
    let cache = name_of(first)?;
    let (second, rest) = next_word(rest)?;
    let pool = name_of(second)?;
    let (count, (sizes, limits)) = classes(rest)?;
    *into = Call::Cache {
        cache,
        pool,
        count,
        sizes,
        limits,
    };
    Some(())
}

/// `calloc Q SIZE B.I`, after `calloc`.
#[inline(never)]
pub fn cache_alloc(arguments: &[u8], into: &mut Call) -> Option<()>
    ensures { filled result into.new ≡ three name_in decimal_in slot_of call.CacheAlloc (words arguments.now) }
{
    let (cache, (words, place)) = name_decimal_slot(arguments)?;
    *into = Call::CacheAlloc {
        cache: cache.name(),
        words,
        place: place.slot(),
    };
    Some(())
}

/// `cflush Q`, after `cflush`.
#[inline(never)]
pub fn cache_flush(arguments: &[u8], into: &mut Call) -> Option<()>
    ensures { filled result into.new ≡ one name_in call.CacheFlush (words arguments.now) }
{
    let cache = name(arguments)?;
    *into = Call::CacheFlush {
        cache: cache.name(),
    };
    Some(())
}

/// `cfree Q B.I`, after `cfree`.
#[inline(never)]
pub fn cache_free(arguments: &[u8], into: &mut Call) -> Option<()>
    ensures { filled result into.new ≡ two name_in slot_of call.CacheFree (words arguments.now) }
{
    let (cache, place) = name_slot(arguments)?;
    *into = Call::CacheFree {
        cache: cache.name(),
        place: place.slot(),
    };
    Some(())
}
