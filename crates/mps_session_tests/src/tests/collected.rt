// Collections of objects that are registered, and of weak ones: scripts on standard input and their answers.
use mps_desk::MemDesk;
use mps_run::run_script;
use mps_session::Session;
use std::alloc::Global;
use std::process::Abort;
use std::test::Fail;

/// A script, and what it prints.
#[derive(Clone, Copy)]
pub(super) struct CollectedCase {
    pub script: &'static [u8],
    pub printed: &'static [u8],
}

/// Checks each case of a table.
pub(super) fn check_all(
    rt: &impl Abort,
    alloc: Global,
    cases: &[CollectedCase],
) -> Result<(), Fail> {
    for case in cases {
        check_collected(rt, alloc, case)?;
    }
    Ok(())
}

pub(super) fn check_collected(
    rt: &impl Abort,
    alloc: Global,
    case: &CollectedCase,
) -> Result<(), Fail> {
    let mut desk = MemDesk::new(alloc);
    let checked = check_collected_on(rt, alloc, &mut desk, case);
    drop(desk);
    checked
}

/// Runs the script of standard input, and returns the status.
pub(super) fn run(alloc: Global, desk: &mut MemDesk) -> u8 {
    run_script(alloc, Session::new(alloc), "mpsio.log", "-", desk)
}

fn check_collected_on(
    rt: &impl Abort,
    alloc: Global,
    desk: &mut MemDesk,
    case: &CollectedCase,
) -> Result<(), Fail> {
    desk.add_file("-", case.script)?;
    let status = run(alloc, desk);
    compare(rt, desk, status, case.printed);
    Ok(())
}

/// The script was run to its end, and this was printed.
fn compare(rt: &impl Abort, desk: &MemDesk, status: u8, printed: &[u8]) {
    assert_eq!(rt; status, 0);
    compare_bytes(rt, desk.printed(), printed);
    compare_bytes(rt, desk.reported(), b"");
}

/// Compares bytes. A call of its own, as each comparison of bytes is dear to check.
pub(super) fn compare_bytes(rt: &impl Abort, got: &[u8], wanted: &[u8]) {
    assert_eq!(rt; got, wanted);
}

/// Objects that aren't weak.
const REGISTERED: [CollectedCase; 3] = [
    // An object in a slot that is registered: it moves, and there is no message.
    CollectedCase {
        script: b"arena 8 8\ntable t 2\npool p amc front\nap x p exact\nreserve x f:2:1\ncommit x t.0\nfinalize t.0\ncollect\n\
        addr t.0\nmessage t.1\n",
        printed: b"ok\nok\nok\nok\nok\nok\nok\nok\n0x2000\nnone\n",
    },
    // Two registrations of one object: one message a collection, and both have its address.
    CollectedCase {
        script: b"arena 8 8\ntable t 2\npool p amc front\nap x p exact\nreserve x f:2:1\ncommit x t.0\nfinalize t.0\n\
        finalize t.0\nclear t.0\ncollect\nmessage t.0\naddr t.0\nmessage t.1\ncollect\naddr t.0\nmessage t.1\n\
        clear t.0\ncollect\nmessage t.1\naddr t.1\nclear t.1\ncollect\nlive\n",
        printed: b"ok\nok\nok\nok\nok\nok\nok\nok\nok\nok\nok\n0x2000\nnone\nok\n0x1000\nnone\nok\nok\nok\n0x2000\nok\nok\n0 0\n",
    },
    // A registered object that stays, as no grain is left to which it could move.
    CollectedCase {
        script: b"arena 8 1\ntable t 2\npool p amc front\nap x p exact\nreserve x f:2:1\ncommit x t.0\naddr t.0\nfinalize t.0\n\
        clear t.0\ncollect\nmessage t.0\naddr t.0\nlive\n",
        printed: b"ok\nok\nok\nok\nok\nok\n0x1000\nok\nok\nok\nok\n0x1000\n1 2\n",
    },
];

/// Weak objects, registered or not.
const WEAK: [CollectedCase; 2] = [
    // A weak object that refers to itself, to an object that moves, to one that is kept for its message alone, and to one that goes.
    CollectedCase {
        script: b"arena 8 8\ntable t 3\npool p amc front\npool w awl front\nap x p exact\nap y w weak\nreserve y f:5:4\n\
        commit y t.0\nput t.0 1 t.0\nreserve x f:2:1\ncommit x t.1\nput t.0 2 t.1\nreserve x f:2:1\ncommit x t.2\n\
        put t.0 3 t.2\nfinalize t.2\nreserve x f:2:1\ncommit x t.2\nput t.0 4 t.2\nclear t.2\ncollect\nget t.2 t.0 1\n\
        same t.2 t.0\nget t.2 t.0 2\nsame t.2 t.1\nget t.2 t.0 3\nnull t.2\nmessage t.1\nsame t.1 t.2\nget t.2 t.0 4\n\
        null t.2\nlive\n",
        printed: b"ok\nok\nok\nok\nok\nok\nok\nok\nok\nok\nok\nok\nok\nok\nok\nok\nok\nok\nok\nok\nok\nok\nyes\nok\nyes\nok\nno\n\
        ok\nyes\nok\nyes\n3 9\n",
    },
    // A registered weak object, whose reference becomes null.
    CollectedCase {
        script: b"arena 8 8\ntable t 2\npool w awl front\nap y w weak\nreserve y f:3:1\ninit y 2 7\ncommit y t.0\n\
        reserve y f:2:1\ncommit y t.1\nput t.0 1 t.1\nfinalize t.0\nclear t.0\nclear t.1\ncollect\nmessage t.0\n\
        num t.0 2\nget t.1 t.0 1\nnull t.1\nclear t.0\ncollect\nlive\n",
        printed: b"ok\nok\nok\nok\nok\nok\nok\nok\nok\nok\nok\nok\nok\nok\nok\n7\nok\nyes\nok\nok\n0 0\n",
    },
];

#[test]
fn what_is_registered_is_kept_for_its_message(rt: HostRuntime) -> Result<(), Fail> {
    check_all(&rt, rt.alloc(), &REGISTERED)
}

#[test]
fn weak_references_become_null(rt: HostRuntime) -> Result<(), Fail> {
    check_all(&rt, rt.alloc(), &WEAK)
}
