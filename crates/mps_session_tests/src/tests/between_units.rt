// Scripts whose calls come between the units of a collection, and their answers.
use super::collected::{CollectedCase, check_all};
use std::test::Fail;

/// Registrations that are taken away while a collection runs.
const UNREGISTERED: [CollectedCase; 3] = [
    // An object that moved at the flip is registered by its old address: one registration, after the next one to be examined.
    CollectedCase {
        script: b"arena 8 8\ntable t 4\npool p amc front\nap x p exact\nreserve x f:2:0\ninit x 1 7\ncommit x t.0\nreserve x f:2:0\n\
        init x 1 8\ncommit x t.1\nfinalize t.0\nfinalize t.1\nstart\naddr t.1\ndefinalize t.1\ndefinalize t.1\nstep 1000\nclear t.0\n\
        clear t.1\ncollect\nmessage t.2\nnum t.2 1\nmessage t.3\n",
        printed: b"ok\nok\nok\nok\nok\nok\nok\nok\nok\nok\nok\nok\nok\n0x2010\nok\nrefused 14\nidle\nok\nok\nok\nok\n7\nnone\n",
    },
    // After three scans and one examination: a registration before the next one, and one after it.
    CollectedCase {
        script: b"arena 8 8\ntable t 4\npool p amc front\nap x p exact\nreserve x f:2:0\ninit x 1 7\ncommit x t.0\nreserve x f:2:0\n\
        init x 1 8\ncommit x t.1\nreserve x f:2:0\ninit x 1 9\ncommit x t.2\nfinalize t.0\nfinalize t.1\nfinalize t.2\nstart\nstep 4\n\
        definalize t.0\ndefinalize t.2\nstep 1000\ndefinalize t.0\nclear t.0\nclear t.1\nclear t.2\ncollect\nmessage t.2\nnum t.2 1\n\
        message t.3\n",
        printed: b"ok\nok\nok\nok\nok\nok\nok\nok\nok\nok\nok\nok\nok\nok\nok\nok\nok\nmore\nok\nok\nidle\nrefused 14\nok\nok\nok\n\
        ok\nok\n8\nnone\n",
    },
    // An object that a barrier moves when it is read: its registration is found by where it was.
    CollectedCase {
        script: b"arena 8 8\ntable t 3\npool p amc front\nap x p exact\nreserve x f:3:1\ninit x 2 1\ncommit x t.0\nreserve x f:3:1\n\
        init x 2 2\ncommit x t.1\nput t.0 1 t.1\nfinalize t.1\nclear t.1\nstart\nget t.1 t.0 1\nnum t.1 2\naddr t.1\ndefinalize t.1\n\
        definalize t.1\nget t.2 t.1 2\nget t.2 t.1 1\nnull t.2\nstep 1000\naddr t.1\nlive\n",
        printed: b"ok\nok\nok\nok\nok\nok\nok\nok\nok\nok\nok\nok\nok\nok\nok\n2\n0x2018\nok\nrefused 14\nrefused 5\nok\nyes\nidle\n\
        0x2018\n2 6\n",
    },
];

/// References that are read and written while a collection runs.
const REFERENCES: [CollectedCase; 3] = [
    // A weak cell that is read while strong blocks may be grey: its target is kept.
    CollectedCase {
        script: b"arena 8 8\ntable t 3\npool p amc front\npool w awl front\nap x p exact\nap y w weak\nreserve y f:2:1\ncommit y t.0\n\
        reserve x f:2:0\ninit x 1 9\ncommit x t.1\nput t.0 1 t.1\nclear t.1\nstart\nget t.1 t.0 1\nnull t.1\nnum t.1 1\nstep 1000\n\
        get t.2 t.0 1\nsame t.2 t.1\nlive\n",
        printed: b"ok\nok\nok\nok\nok\nok\nok\nok\nok\nok\nok\nok\nok\nok\nok\nno\n9\nidle\nok\nyes\n2 4\n",
    },
    // One that is read after the first weak block was scanned: it becomes null.
    CollectedCase {
        script: b"arena 8 8\ntable t 3\npool p amc front\npool w awl front\nap x p exact\nap y w weak\nreserve y f:2:1\ncommit y t.0\n\
        reserve y f:2:1\ncommit y t.1\nreserve x f:2:0\ncommit x t.2\nput t.0 1 t.2\nput t.1 1 t.2\nclear t.2\nstart\nstep 1\n\
        get t.2 t.1 1\nnull t.2\nget t.2 t.0 1\nnull t.2\nstep 1000\nlive\n",
        printed: b"ok\nok\nok\nok\nok\nok\nok\nok\nok\nok\nok\nok\nok\nok\nok\nok\nmore\nok\nyes\nok\nyes\nidle\n2 4\n",
    },
    // A cell of a grey object is written whose other cell has an old address.
    CollectedCase {
        script: b"arena 8 8\ntable t 4\npool p amc front\nap x p exact\nreserve x f:3:2\ncommit x t.0\nreserve x f:2:0\ninit x 1 5\n\
        commit x t.1\nput t.0 1 t.1\nreserve x f:2:0\ninit x 1 6\ncommit x t.1\nstart\nput t.0 2 t.1\nget t.2 t.0 2\nsame t.2 t.1\n\
        get t.3 t.0 1\nnum t.3 1\nstep 1000\nget t.2 t.0 1\nsame t.2 t.3\nget t.2 t.0 2\nnum t.2 1\nlive\n",
        printed: b"ok\nok\nok\nok\nok\nok\nok\nok\nok\nok\nok\nok\nok\nok\nok\nok\nyes\nok\n5\nidle\nok\nyes\nok\n6\n3 7\n",
    },
];

/// Other calls of a client.
const OTHERS: [CollectedCase; 2] = [
    // What a word of an area holds stays where it is, also when it is taken.
    CollectedCase {
        script: b"arena 8 8\ntable t 2\narea a 1\npool p amc front\nap x p exact\nreserve x f:2:0\ninit x 1 7\ncommit x t.0\naddr t.0\n\
        pin a.0 t.0\nclear t.0\nstart\ntake t.1 a.0\naddr t.1\nnum t.1 1\nstep 1000\naddr t.1\nnum t.1 1\nlive\n",
        printed: b"ok\nok\nok\nok\nok\nok\nok\nok\n0x1000\nok\nok\nok\nok\n0x1000\n7\nidle\n0x1000\n7\n1 2\n",
    },
    // A root and a point are dropped, an object is registered, and no message waits: what was held at the flip is kept.
    CollectedCase {
        script: b"arena 8 8\ntable t 3\ntable u 1\npool p amc front\nap x p exact\nap z p exact\nreserve x f:2:0\ninit x 1 7\n\
        commit x t.0\nreserve z f:2:0\ninit z 1 8\ncommit z u.0\nfinalize u.0\nstart\nstep 1\ndroproot u\ndropap z\nfinalize t.0\n\
        message t.1\nstep 1\nmessage t.1\nstep 1000\nmessage t.1\nlive\ncollect\nmessage t.1\nnum t.1 1\nmessage t.2\nlive\n",
        printed: b"ok\nok\nok\nok\nok\nok\nok\nok\nok\nok\nok\nok\nok\nok\nmore\nok\nok\nok\nnone\nmore\nnone\nidle\nnone\n2 4\nok\nok\n\
        8\nnone\n2 4\n",
    },
];

#[test]
fn registrations_are_taken_away_between_units(rt: HostRuntime) -> Result<(), Fail> {
    check_all(&rt, rt.alloc(), &UNREGISTERED)
}

#[test]
fn references_are_read_between_units(rt: HostRuntime) -> Result<(), Fail> {
    check_all(&rt, rt.alloc(), &REFERENCES)
}

#[test]
fn other_calls_come_between_units(rt: HostRuntime) -> Result<(), Fail> {
    check_all(&rt, rt.alloc(), &OTHERS)
}
