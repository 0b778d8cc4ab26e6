// Arenas in which no grain is free and each block is live.
use super::{Case, Loop, check_all};
use std::test::Fail;

/// A limit of the grains or of the arena lets nothing move, a poll comes before a refusal, and what dies in a full arena is room again.
const FULL: [Case; 6] = [
    Case {
        name: "two blocks of a grain each stay in a full collection",
        first: b"arena 2 2\ntable t 2\npool p amc front\nap x p exact\nreserve x f:512:1\ninit x 2 7\ncommit x t.0\n\
        reserve x f:512:1\ninit x 1 t.0\ninit x 2 8\ncommit x t.1\n",
        first_answers: b"ok\nok\nok\nok\nok\nok\nok\nok\nok\nok\nok\n",
        loops: &[],
        last: b"collect\naddr t.0\naddr t.1\nnum t.0 2\nnum t.1 2\nclear t.0\nget t.0 t.1 1\naddr t.0\nlive\ncommitted\n",
        last_answers: b"ok\n0x1000\n0x2000\n7\n8\nok\nok\n0x1000\n2 1024\n2\n",
    },
    Case {
        name: "a reserve that is refused ends the collection",
        first: b"arena 2 2\ntable t 2\npool p amc front\nap x p exact\nreserve x f:512:0\ncommit x t.0\n\
        reserve x f:512:0\ncommit x t.1\n",
        first_answers: b"ok\nok\nok\nok\nok\nok\nok\nok\n",
        loops: &[],
        last: b"start\nstep 0\nreserve x f:2:0\nstep 0\naddr t.0\naddr t.1\nlive\ncommitted\n",
        last_answers: b"ok\nmore\nrefused 10 2 1 2\nidle\n0x1000\n0x2000\n2 1024\n2\n",
    },
    Case {
        name: "it doesn't in a clamped arena",
        first: b"arena 2 2\ntable t 2\npool p amc front\nap x p exact\nreserve x f:512:0\ncommit x t.0\n\
        reserve x f:512:0\ncommit x t.1\n",
        first_answers: b"ok\nok\nok\nok\nok\nok\nok\nok\n",
        loops: &[],
        last: b"start\nclamp\nreserve x f:2:0\nstep 1000\nrelease\nstep 0\nstep 1000\naddr t.0\naddr t.1\nlive\n",
        last_answers: b"ok\nok\nrefused 10 2 1 2\nmore\nok\nmore\nidle\n0x1000\n0x2000\n2 1024\n",
    },
    Case {
        name: "the limit is higher than the arena",
        first: b"arena 2 8\ntable t 2\npool p amc front\nap x p exact\nreserve x f:512:0\ncommit x t.0\n\
        reserve x f:512:0\ncommit x t.1\n",
        first_answers: b"ok\nok\nok\nok\nok\nok\nok\nok\n",
        loops: &[],
        last: b"start\nreserve x f:2:0\nstep 0\ncollect\naddr t.0\naddr t.1\n",
        last_answers: b"ok\nrefused 11 1 0\nidle\nok\n0x1000\n0x2000\n",
    },
    Case {
        name: "2,048 blocks that might move stay",
        first: b"arena 2048 2048\ntable t 2048\npool p amc front\nap x p exact\n",
        first_answers: b"ok\nok\nok\nok\n",
        loops: &[Loop {
            before: b"reserve x f:512:1\ninit x 1 t.0\ninit x 2 7\ncommit x t.",
            is_numbered: true,
            after: b"\n",
            answers: b"ok\nok\nok\nok\n",
            times: 2_048,
        }],
        last: b"reserve x f:2:0\ncollect\nlive\ncommitted\naddr t.0\naddr t.1\naddr t.2047\nnum t.2047 2\nstart\nstep 100000\n\
        addr t.0\naddr t.2047\nlive\ncommitted\n",
        last_answers: b"refused 10 2048 1 2048\nok\n2048 1048576\n2048\n0x1000\n0x2000\n0x800000\n7\nok\nidle\n\
        0x1000\n0x800000\n2048 1048576\n2048\n",
    },
    Case {
        name: "2,048 blocks of a pool that marks",
        first: b"arena 2048 2048\ntable t 2048\npool p ams front\nap x p exact\n",
        first_answers: b"ok\nok\nok\nok\n",
        loops: &[Loop {
            before: b"reserve x f:512:0\ncommit x t.",
            is_numbered: true,
            after: b"\n",
            answers: b"ok\nok\n",
            times: 2_048,
        }],
        last: b"reserve x f:2:0\ncollect\nlive\ncommitted\naddr t.2047\nclear t.5\ncollect\nlive\ncommitted\nreserve x f:512:0\n\
        commit x t.5\naddr t.5\n",
        last_answers: b"refused 10 2048 1 2048\nok\n2048 1048576\n2048\n0x800000\nok\nok\n2047 1048064\n2047\nok\nok\n0x6000\n",
    },
];

#[test]
fn full_arenas_stay_as_they_are(rt: HostRuntime) -> Result<(), Fail> {
    check_all(&rt, rt.alloc(), &FULL)
}
