// Scripts with what they print and what they log: each answer, and the moves and records of each command.
use super::collected::{compare_bytes, run};
use bitflags::Flags;
use mps_cnv::cnv;
use mps_desk::MemDesk;
use mps_event::Kinds;
use std::alloc::Global;
use std::process::Abort;
use std::test::Fail;

/// A script, its answers, and the portable text of its log.
#[derive(Clone, Copy)]
struct LoggedCase {
    script: &'static [u8],
    answers: &'static [u8],
    text: &'static [u8],
}

/// Blocks that come, move, stay and go.
const LOGGED: [LoggedCase; 4] = [
    // Numbers of a block, and what is refused before it is committed.
    LoggedCase {
        script: b"arena 8 1\ntable t 2\ntable t 2\npool p amc front\nap x p exact\nnum t.0 2\nnum t.2 2\nreserve x f:3:1\n\
        reserve x f:3:1\ninit x 2 7\ninit x 1 7\ncommit x t.0\ncommit x t.0\nnum t.0 2\nlive\ndump 0x1000\ncommitted\n",
        answers: b"ok\nok\nrefused 2\nok\nok\nrefused 4\nrefused 3\nok\nrefused 8\nok\nrefused 6\nok\nrefused 9\n7\n1 3\n\
        0x100000301 0x0 0x7\n1\n",
        text: b"mpslog 2\n1 1 8 1\n4 16 0 1 1\n8 48 1000 1 0 0\n12 80 1000 3 0\n",
    },
    // A manual block comes and goes, and its segment with it.
    LoggedCase {
        script: b"arena 1 1\npool v mvff\nblocks b 1\nalloc v 1 b.0\nalloc v 1 b.0\nfree b.0\nfree b.0\n",
        answers: b"ok\nok\nok\nok\nrefused 2\nok\nrefused 12\n",
        text: b"mpslog 2\n1 1 1 1\n2 16 0 7 0\n4 48 1000 1 0 0\n4 81 1000 1 0\n6 85 1000\n6 49 1000\n",
    },
    // A registered block is moved. It keeps its number, and its registration can be taken back.
    LoggedCase {
        script: b"arena 8 2\ntable t 2\npool p amc front\nap x p exact\nreserve x f:3:1\ninit x 2 7\ncommit x t.0\nfinalize t.0\n\
        pool w awl front\ncollect\ndefinalize t.0\nnum t.0 2\ndump 0x2000\ncommitted\n",
        answers: b"ok\nok\nok\nok\nok\nok\nok\nok\nok\nok\nok\n7\n0x100000301 0x0 0x7\n1\n",
        text: b"mpslog 2\n1 1 8 2\n3 16 0 1 1\n5 48 1000 1 0 0\n7 80 1000 3 0\n9 16 1 4 1\n10 32 2 10 0\n10 48 2000 1 0 0\n\
        10 82 1000 2000\n10 49 1000\n10 33\n",
    },
    // A marked block is kept by its address alone, and freed once no word of an area has that.
    LoggedCase {
        script: b"arena 8 1\ntable t 2\narea a 1\npool p ams front\nap x p exact\nreserve x f:3:1\ncommit x t.0\nclear t.0\n\
        poke a.0 0x1000\ncollect\nstep 64\nrelease\nstep 18446744073709551615\npark\npoke a.0 0x1001\ncollect\nlive\n",
        answers: b"ok\nok\nok\nok\nok\nok\nok\nok\nblock\nok\nidle\nok\nidle\nok\nnumber\nok\n0 0\n",
        text: b"mpslog 2\n1 1 8 1\n4 16 0 3 1\n6 48 1000 1 0 0\n7 80 1000 3 0\n10 32 0 10 0\n10 33\n16 32 0 10 0\n16 85 1000\n\
        16 49 1000\n16 33\n",
    },
];

/// Runs the script of a case, and then has the text of its log printed.
fn check_logged(rt: &impl Abort, alloc: Global, case: &LoggedCase) -> Result<(), Fail> {
    let mut desk = MemDesk::new(alloc);
    let checked = check_logged_on(rt, alloc, &mut desk, case);
    drop(desk);
    checked
}

fn check_logged_on(
    rt: &impl Abort,
    alloc: Global,
    desk: &mut MemDesk,
    case: &LoggedCase,
) -> Result<(), Fail> {
    desk.add_file("-", case.script)?;
    assert_eq!(rt; run(alloc, desk), 0);
    compare_bytes(rt, desk.printed(), case.answers);
    assert_eq!(rt; cnv(alloc, "mpsio.log", Kinds::all(), desk), 0);
    let text = desk.printed().strip_prefix(case.answers);
    compare_bytes(rt, text.unwrap_or(b""), case.text);
    Ok(())
}

#[test]
fn each_move_is_logged(rt: HostRuntime) -> Result<(), Fail> {
    for case in &LOGGED {
        check_logged(&rt, rt.alloc(), case)?;
    }
    Ok(())
}
