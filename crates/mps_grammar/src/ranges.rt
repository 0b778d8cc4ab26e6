// What follows the command words that have a number of grains or the length of a root.
ghost use Rattle.std.specs.Prelude.{◌≡◌};
ghost use Rattle.mps_line_words.specs.Word.{words};
ghost use Rattle.mps_line_words.specs.Name.{name_of as name_in};
ghost use Rattle.mps_line_words.specs.Reading.{single, pair};
ghost use Rattle.mps_grammar.specs.Form.{grains_from, length_of_root};

use mps_base::Name;
use mps_line_words::{name_of, next_word, number_within, only_word};

/// The most grains of an arena.
pub const MAX_GRAINS: u64 = 2_048;

/// The most slots of a table, words of an area and places of a table of blocks.
const MAX_SLOTS: u64 = 65_536;

/// A number of grains from 0 on.
pub fn grains(arguments: &[u8]) -> Option<u64>
    ensures { result ≡ single (grains_from 0) (words arguments.now) }
{
    number_within(0, MAX_GRAINS, only_word(arguments)?)
}

/// The grains of an arena, and its limit.
pub fn grains_limit(arguments: &[u8]) -> Option<(u64, u64)>
    ensures { result ≡ pair (grains_from 1) (grains_from 0) (words arguments.now) }
{
    let (word, rest) = next_word(arguments)?;
    Some((number_within(1, MAX_GRAINS, word)?, grains(rest)?))
}

/// A name and the length of a root.
pub fn name_length(arguments: &[u8]) -> Option<(Name, u64)>
    ensures { result ≡ pair name_in length_of_root (words arguments.now) }
{
    let (word, rest) = next_word(arguments)?;
    Some((
        name_of(word)?,
        number_within(1, MAX_SLOTS, only_word(rest)?)?,
    ))
}
