// What follows the command word of an allocation point.
ghost use Rattle.std.specs.Prelude.{◌≡◌};
ghost use Rattle.mps_line_words.specs.Word.{words};
ghost use Rattle.mps_line_words.specs.Name.{name_of as name_in};
ghost use Rattle.mps_line_words.specs.Reading.{named_in, pair, onto};
ghost use Rattle.mps_grammar.specs.Form.{ranks};

use mps_base::{Name, Rank};
use mps_line_words::{is_word, name_of, next_word, only_word};

/// The rank of an allocation point.
fn rank_of(word: &[u8]) -> Option<Rank>
    ensures { result ≡ named_in ranks word.now }
{
    if is_word(word, b"exact") {
        Some(Rank::Exact)
    } else if is_word(word, b"weak") {
        Some(Rank::Weak)
    } else {
        None
    }
}

/// A name and a rank.
fn name_rank(arguments: &[u8]) -> Option<(Name, Rank)>
    ensures { result ≡ pair name_in (named_in ranks) (words arguments.now) }
{
    let (word, rest) = next_word(arguments)?;
    Some((name_of(word)?, rank_of(only_word(rest)?)?))
}

/// Two names and a rank.
pub fn name_name_rank(arguments: &[u8]) -> Option<(Name, (Name, Rank))>
    ensures { result ≡ onto name_in (pair name_in (named_in ranks)) (words arguments.now) }
{
    let (word, rest) = next_word(arguments)?;
    Some((name_of(word)?, name_rank(rest)?))
}
