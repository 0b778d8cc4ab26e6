// Reading the words of a command line by hand.

ghost use Rattle.std.specs.Prelude.{◌≡◌, option_map, IfSome, [], ◌∷◌};
ghost use Rattle.std.specs.Int.RustNames.{bit_or};
ghost use Rattle.mps_event.specs.KindSet.{bits_of};
ghost use Rattle.mps_numerals.specs.Decimal.{decimal_number as number_written};
ghost use Rattle.mps_args.specs.Files.{is_file, is_file_to_read};
ghost use Rattle.mps_args.specs.Kinds.{kind_named, kinds_named, all_kinds};
ghost use Rattle.mps_args.specs.Words.{running, converting, reading, listing, generating, running_generated, run_meaning, cnv_meaning, txt_meaning, blocks_meaning, gen_meaning, meaning_after, meaning};
ghost use Rattle.mps_args.specs.Runnable.{IsRunnable};
ghost use Rattle.mps_args.specs.Seen.{meaning_of, texts};

use crate::command::Command;
use bitflags::Flags;
use mps_event::Kinds;
use mps_numerals::decimal_number;

/// The log if none is named.
const USUAL_LOG: &str = "mpsio.log";

/// Standard input.
const STANDARD_INPUT: &str = "-";

/// The most steps of a generated script.
const MAX_STEPS: u64 = 1_000_000;

/// What the words after the program's name ask for. None if they have no meaning.
pub fn command_of(words: &[String]) -> Option<Command<'_>>
    ensures value { option_map meaning_of result ≡ meaning (texts words.now) }
    ensures runnable { IfSome result IsRunnable }
{
    let (name, rest) = words.split_first()?;
    command_named(name.as_str(), rest)
}

/// The command of a name, and of the words after it.
fn command_named<'a>(name: &str, words: &'a [String]) -> Option<Command<'a>>
    ensures value { option_map meaning_of result ≡ meaning_after name.now (texts words.now) }
    ensures runnable { IfSome result IsRunnable }
{
    match name {
        "run" => run_of(words),
        "cnv" => convert_of(words),
        "txt" => read_of(words),
        "blocks" => blocks_of(words),
        "gen" => generate_of(words),
        _ => None,
    }
}

/// `[-o LOG] [SCRIPT]`
fn run_of(words: &[String]) -> Option<Command<'_>>
    ensures { option_map meaning_of result ≡ run_meaning (texts words.now) }
{
    match words {
        [] => running(USUAL_LOG, STANDARD_INPUT),
        [script] => running(USUAL_LOG, script.as_str()),
        [name, log] if name.as_str() == "-o" => running(log.as_str(), STANDARD_INPUT),
        [name, log, script] if name.as_str() == "-o" => running(log.as_str(), script.as_str()),
        _ => None,
    }
}

/// A run, if the log and the script may be named so.
fn running<'a>(log: &'a str, script: &'a str) -> Option<Command<'a>>
    ensures { option_map meaning_of result ≡ running log.now script.now }
{
    if is_file(log) && is_file_to_read(script) {
        Some(Command::Run { log, script })
    } else {
        None
    }
}

/// `[-f LOG] [-k KINDS]`, in either order
fn convert_of(words: &[String]) -> Option<Command<'_>>
    ensures { option_map meaning_of result ≡ cnv_meaning (texts words.now) }
{
    match words {
        [] => converting(USUAL_LOG, every_kind()),
        [name, value] => convert_by_one(name.as_str(), value.as_str()),
        [first, value, second, other] => convert_by_both(
            first.as_str(),
            value.as_str(),
            second.as_str(),
            other.as_str(),
        ),
        _ => None,
    }
}

/// One of the two options, with its value.
fn convert_by_one<'a>(name: &str, value: &'a str) -> Option<Command<'a>>
    ensures { option_map meaning_of result ≡ cnv_meaning (name.now ∷ value.now ∷ []) }
{
    match name {
        "-f" => converting(value, every_kind()),
        "-k" => converting(USUAL_LOG, kinds_of(value)?),
        _ => None,
    }
}

/// Both options, each with its value.
fn convert_by_both<'a>(
    first: &str,
    value: &'a str,
    second: &str,
    other: &'a str,
) -> Option<Command<'a>>
    ensures { option_map meaning_of result ≡ cnv_meaning (first.now ∷ value.now ∷ second.now ∷ other.now ∷ []) }
{
    match (first, second) {
        ("-f", "-k") => converting(value, kinds_of(other)?),
        ("-k", "-f") => converting(other, kinds_of(value)?),
        _ => None,
    }
}

/// A conversion, if the log may be named so.
fn converting(log: &str, kinds: Kinds) -> Option<Command<'_>>
    ensures { option_map meaning_of result ≡ converting log.now (Some (bits_of kinds)) }
{
    if is_file_to_read(log) {
        Some(Command::Convert { log, kinds })
    } else {
        None
    }
}

/// `[-l TEXT]`
fn read_of(words: &[String]) -> Option<Command<'_>>
    ensures { option_map meaning_of result ≡ txt_meaning (texts words.now) }
{
    match words {
        [] => reading(STANDARD_INPUT),
        [name, text] if name.as_str() == "-l" => reading(text.as_str()),
        _ => None,
    }
}

/// A reading, if the text may be named so.
fn reading(text: &str) -> Option<Command<'_>>
    ensures { option_map meaning_of result ≡ reading text.now }
{
    if is_file_to_read(text) {
        Some(Command::Read { text })
    } else {
        None
    }
}

/// `[-f LOG]`
fn blocks_of(words: &[String]) -> Option<Command<'_>>
    ensures { option_map meaning_of result ≡ blocks_meaning (texts words.now) }
{
    match words {
        [] => listing(USUAL_LOG),
        [name, log] if name.as_str() == "-f" => listing(log.as_str()),
        _ => None,
    }
}

/// A list of blocks, if the log may be named so.
fn listing(log: &str) -> Option<Command<'_>>
    ensures { option_map meaning_of result ≡ listing log.now }
{
    if is_file_to_read(log) {
        Some(Command::Blocks { log })
    } else {
        None
    }
}

/// `[-r] SEED COUNT`
fn generate_of(words: &[String]) -> Option<Command<'_>>
    ensures value { option_map meaning_of result ≡ gen_meaning (texts words.now) }
    ensures runnable { IfSome result IsRunnable }
{
    match words {
        [seed, count] => generating(number(seed.as_str())?, number(count.as_str())?),
        [name, seed, count] => generate_by(name.as_str(), seed.as_str(), count.as_str()),
        _ => None,
    }
}

/// The option, and the numbers after it.
fn generate_by<'a>(name: &str, seed: &str, count: &str) -> Option<Command<'a>>
    ensures value { option_map meaning_of result ≡ gen_meaning (name.now ∷ seed.now ∷ count.now ∷ []) }
    ensures runnable { IfSome result IsRunnable }
{
    match name {
        "-r" => running_generated(number(seed)?, number(count)?),
        _ => None,
    }
}

/// A generated script, if it has few enough steps.
fn generating<'a>(seed: u64, count: u64) -> Option<Command<'a>>
    ensures value { option_map meaning_of result ≡ generating (Some seed) (Some count) }
    ensures runnable { IfSome result IsRunnable }
{
    if count <= MAX_STEPS {
        Some(Command::Generate { seed, count })
    } else {
        None
    }
}

/// A run of a generated script, if it has few enough steps.
fn running_generated<'a>(seed: u64, count: u64) -> Option<Command<'a>>
    ensures value { option_map meaning_of result ≡ running_generated (Some seed) (Some count) }
    ensures runnable { IfSome result IsRunnable }
{
    if count <= MAX_STEPS {
        Some(Command::RunGenerated {
            log: USUAL_LOG,
            seed,
            count,
        })
    } else {
        None
    }
}

/// The number that a word writes.
fn number(word: &str) -> Option<u64>
    ensures { result ≡ number_written word.now }
{
    decimal_number(word.as_bytes())
}

/// The name of a file: not empty, and not beginning with `-`.
fn is_file(word: &str) -> bool
    ensures { result ≡ is_file word.now }
{
    match word.as_bytes() {
        [] => false,
        [first, ..] => *first != b'-',
    }
}

/// The same, or standard input.
fn is_file_to_read(word: &str) -> bool
    ensures { result ≡ is_file_to_read word.now }
{
    word == STANDARD_INPUT || is_file(word)
}

/// All kinds.
#[tactic(auto, unfolding(bitflags::specs::Sets::known_from))]
fn every_kind() -> Kinds
    ensures { bits_of result ≡ all_kinds }
{
    Kinds::all()
}

/// The kinds that the text names, with commas between them.
fn kinds_of(text: &str) -> Option<Kinds>
    ensures { option_map bits_of result ≡ kinds_named text.now }
{
    let mut kinds = Kinds::empty();
    let mut rest = text;
    while let Some((name, later)) = rest.split_once(',') {
        kinds = with_kind(kinds, name)?;
        rest = later;
    }
    with_kind(kinds, rest)
}

/// The kinds, and the one that is named.
fn with_kind(kinds: Kinds, name: &str) -> Option<Kinds>
    ensures { option_map bits_of result ≡ option_map (bit_or (bits_of kinds)) (kind_named name.now) }
{
    let mut kinds = kinds;
    kinds.insert(kind_of(name)?);
    Some(kinds)
}

/// The kind of a name.
fn kind_of(name: &str) -> Option<Kinds>
    ensures { option_map bits_of result ≡ kind_named name.now }
{
    match name {
        "arena" => Some(Kinds::ARENA),
        "pool" => Some(Kinds::POOL),
        "trace" => Some(Kinds::TRACE),
        "seg" => Some(Kinds::SEG),
        "ref" => Some(Kinds::REF),
        "object" => Some(Kinds::OBJECT),
        "user" => Some(Kinds::USER),
        _ => None,
    }
}
