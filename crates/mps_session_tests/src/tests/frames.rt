// Pools of frames: scripts on standard input and their answers.
use super::collected::{CollectedCase, check_all};
use std::test::Fail;

/// What closing a frame frees.
const POPPED: [CollectedCase; 6] = [
    // The blocks that were made since, with their segments; the earlier ones keep their words.
    CollectedCase {
        script: b"arena 8 8\npool s snc\nblocks b 4\npush s\nalloc s 4 b.0\nstore b.0 3 7\npush s\nalloc s 4 b.1\nalloc s 600 b.2\n\
        live\ncommitted\npop s 1\nlive\ncommitted\nload b.0 3\nload b.1 0\nload b.2 0\nalloc s 4 b.1\nload b.1 3\npop s 0\nlive\n\
        committed\n",
        printed: b"ok\nok\nok\n0\nok\nok\n1\nok\nok\n3 608\n3\nok\n1 4\n1\n7\nrefused 12\nrefused 12\nok\n0\nok\n0 0\n0\n",
    },
    // A frame is closed with those after it, and the next one has its number.
    CollectedCase {
        script: b"arena 8 8\npool s snc\nblocks b 4\npush s\nalloc s 4 b.0\npush s\nalloc s 4 b.1\npush s\nalloc s 4 b.2\npop s 1\n\
        live\npop s 1\npush s\npop s 0\nlive\npush s\n",
        printed: b"ok\nok\nok\n0\nok\n1\nok\n2\nok\nok\n1 4\nrefused 3\n1\nok\n0 0\n0\n",
    },
    // A frame without blocks, and one that is closed in between.
    CollectedCase {
        script: b"arena 8 8\npool s snc\nblocks b 4\npush s\npop s 0\nlive\npush s\nalloc s 4 b.0\npush s\npop s 1\nalloc s 4 b.1\n\
        live\npop s 0\nlive\n",
        printed: b"ok\nok\nok\n0\nok\n0 0\n0\nok\n1\nok\nok\n2 8\nok\n0 0\n",
    },
    // A block that was made while no frame was open is never freed.
    CollectedCase {
        script: b"arena 8 8\npool s snc\nblocks b 4\nalloc s 4 b.0\nfree b.0\npush s\nalloc s 4 b.1\npop s 0\nlive\ncollect\nlive\n",
        printed: b"ok\nok\nok\nok\nrefused 13\n0\nok\nok\n1 4\nok\n1 4\n",
    },
    // Each pool has frames of its own, and blocks of other pools stay.
    CollectedCase {
        script: b"arena 8 8\npool s snc\npool r snc\npool v mvff\nblocks b 4\npush s\npush r\nalloc s 4 b.0\nalloc r 4 b.1\n\
        alloc v 4 b.2\npush r\npop s 0\nlive\nload b.0 0\nload b.1 0\nload b.2 0\npop r 0\nlive\ncommitted\n",
        printed: b"ok\nok\nok\nok\nok\n0\n0\nok\nok\nok\n1\nok\n2 8\nrefused 12\n0\n0\nok\n1 4\n1\n",
    },
    // While a collection runs.
    CollectedCase {
        script: b"arena 8 8\npool s snc\nblocks b 4\npush s\nalloc s 4 b.0\nstart\npush s\nalloc s 600 b.1\npop s 1\nlive\nstep 100\n\
        pop s 0\nlive\ncommitted\n",
        printed: b"ok\nok\nok\n0\nok\nok\n1\nok\nok\n1 4\nidle\nok\n0 0\n0\n",
    },
];

/// What is refused, and in which order.
const REFUSED: [CollectedCase; 3] = [
    // No pool, one that has no frames, and no such frame.
    CollectedCase {
        script: b"arena 8 8\npool s snc\npool v mvff\npool p amc front\npool s snc\npush x\npush v\npush p\npop x 0\npop v 0\npop p 0\n\
        pop s 0\npush s\npop s 1\npop s 18446744073709551615\npop s 0\n",
        printed: b"ok\nok\nok\nok\nrefused 2\nrefused 1\nrefused 13\nrefused 13\nrefused 1\nrefused 13\nrefused 13\nrefused 3\n0\n\
        refused 3\nrefused 3\nok\n",
    },
    // What may not stand over such a pool, and what it doesn't make or free.
    CollectedCase {
        script: b"arena 8 8\npool s snc\npool v mvff\nblocks b 2\ncache q s 4 1\nap x s exact\nalloc s 0 b.0\nalloc s 4 b.2\n\
        alloc s 4 b.0\nalloc s 4 b.0\ncache q v 4 1\ncfree q b.0\nfree b.0\nfree b.1\nlive\n",
        printed: b"ok\nok\nok\nok\nrefused 13\nrefused 13\nrefused 15\nrefused 3\nok\nrefused 2\nok\nrefused 13\nrefused 13\n\
        refused 12\n1 4\n",
    },
    // No room: closing a frame needs none.
    CollectedCase {
        script: b"arena 8 1\npool s snc\nblocks b 4\npush s\nalloc s 512 b.0\nalloc s 4 b.1\npop s 0\npush s\nalloc s 512 b.1\nlive\n",
        printed: b"ok\nok\nok\n0\nok\nrefused 10 1 1 1\nok\n0\nok\n1 512\n",
    },
];

#[test]
fn frames_are_closed(rt: HostRuntime) -> Result<(), Fail> {
    check_all(&rt, rt.alloc(), &POPPED)
}

#[test]
fn calls_on_frames_are_refused(rt: HostRuntime) -> Result<(), Fail> {
    check_all(&rt, rt.alloc(), &REFUSED)
}
