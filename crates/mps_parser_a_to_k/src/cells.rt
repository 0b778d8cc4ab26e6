// The forms of the command that fills a cell of a block.
ghost use Rattle.std.specs.Prelude.{◌≡◌};
ghost use Rattle.mps_line_words.specs.Word.{words};
ghost use Rattle.mps_grammar.specs.Filled.{filled};
ghost use Rattle.mps_grammar.specs.Form.{init};

use mps_line_words::{WrittenName, next_decimal, next_name, slot, value};
use mps_model::Call;

/// `init X K VALUE` or `init X K SLOT`.
#[inline(never)]
pub fn init(arguments: &[u8], into: &mut Call) -> Option<()>
    ensures { filled result into.new ≡ init (words arguments.now) }
{
    let (word, rest) = next_name(arguments)?;
    let point = WrittenName::new(word);
    let (cell, rest) = next_decimal(rest)?;
    match value(rest) {
        Some(value) => {
            *into = Call::InitNumber {
                point: point.name(),
                cell,
                value,
            };
        }
        None => {
            let source = slot(rest)?;
            *into = Call::InitReference {
                point: point.name(),
                cell,
                source: source.slot(),
            };
        }
    }
    Some(())
}
