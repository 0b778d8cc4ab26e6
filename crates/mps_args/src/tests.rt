// Lines of words and what they ask for.

use crate::command::Command;
use crate::words::command_of;
use mps_event::Kinds;
use std::alloc::{AllocError, Global};

fn words_of(alloc: Global, line: &str) -> Result<Vec<String>, AllocError> {
    let mut words = Vec::new(alloc);
    for word in line.split(' ') {
        words.push(String::from_str(alloc, word)?)?;
    }
    Ok(words)
}

fn runs<'a>(log: &'a str, script: &'a str) -> Command<'a> {
    Command::Run { log, script }
}

fn converts(log: &str, kinds: Kinds) -> Command<'_> {
    Command::Convert { log, kinds }
}

fn every_kind() -> Kinds {
    Kinds::ARENA
        | Kinds::POOL
        | Kinds::TRACE
        | Kinds::SEG
        | Kinds::REF
        | Kinds::OBJECT
        | Kinds::USER
}

#[test]
fn each_line_asks_for_its_command(rt: HostRuntime) -> Result<(), AllocError> {
    let cases = [
        ("run", runs("mpsio.log", "-")),
        ("run -o a s", runs("a", "s")),
        (
            "cnv -k seg,user,seg -f -",
            converts("-", Kinds::SEG | Kinds::USER),
        ),
        ("cnv", converts("mpsio.log", every_kind())),
        ("txt -l t", Command::Read { text: "t" }),
        ("blocks", Command::Blocks { log: "mpsio.log" }),
        (
            "gen 18446744073709551615 1000000",
            Command::Generate {
                seed: 18446744073709551615,
                count: 1_000_000,
            },
        ),
        (
            "gen -r 7 0",
            Command::RunGenerated {
                log: "mpsio.log",
                seed: 7,
                count: 0,
            },
        ),
    ];
    for (line, command) in cases {
        assert!(rt;
            command_of(&words_of(rt.alloc(), line)?) == Some(command),
            "{line}"
        );
    }
    Ok(())
}

#[test]
fn other_lines_ask_for_nothing(rt: HostRuntime) -> Result<(), AllocError> {
    let lines = [
        "",
        "run --help",
        "run -o ",
        "run -o -",
        "run -o a -o b",
        "run s -o a",
        "cnv -k seg,",
        "gen 01 1",
        "gen 1 1000001",
        "gen -r 1 1000001",
        "gen -r 1",
        "gen 1 1 -r",
    ];
    for line in lines {
        assert!(rt;
            command_of(&words_of(rt.alloc(), line)?).is_none(),
            "{line}"
        );
    }
    Ok(())
}
