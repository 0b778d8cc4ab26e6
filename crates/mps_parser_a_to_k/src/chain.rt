// The form of the command that makes a chain.
ghost use Rattle.std.specs.Prelude.{◌≡◌, length, option_map};
ghost use Rattle.mps_grammar.specs.Filled.{filled};
ghost use Rattle.mps_line_words.specs.Word.{words};
ghost use Rattle.mps_grammar.specs.Form.{chain, capacities, padded};

use mps_grammar::MAX_GRAINS;
use mps_line_words::{name_of, next_word, number_within};
use mps_model::Call;

/// The most generations of a chain.
const MAX_GENERATIONS: usize = 8;

/// How many capacities there are, and the capacities.
fn capacities(arguments: &[u8]) -> Option<(u8, [u64; MAX_GENERATIONS])>
    ensures { result ≡ option_map (λ numbers. (length numbers, padded numbers)) (capacities (words arguments.now)) }
{
    let mut numbers = [0u64; MAX_GENERATIONS];
    let mut rest = arguments;
    for count in 0..MAX_GENERATIONS {
        let Some((word, after)) = next_word(rest) else {
            return if count == 0 {
                None
            } else {
                Some((count as u8, numbers))
            };
        };
        numbers[count] = number_within(0, MAX_GRAINS, word)?;
        rest = after;
    }
    match next_word(rest) {
        None => Some((MAX_GENERATIONS as u8, numbers)),
        Some(_) => None,
    }
}

/// `chain C CAPS`, after `chain`.
#[inline(never)]
pub fn chain(arguments: &[u8], into: &mut Call) -> Option<()>
    ensures { filled result into.new ≡ chain (words arguments.now) }
{
    let (word, rest) = next_word(arguments)?;
    let chain = name_of(word)?;
    let (count, capacities) = capacities(rest)?;
    *into = Call::Chain {
        chain,
        count,
        capacities,
    };
    Some(())
}
