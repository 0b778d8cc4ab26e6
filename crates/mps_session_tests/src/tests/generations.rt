// Chains, pools on them, and collections of generations: scripts on standard input and their answers.
use super::collected::{CollectedCase, check_all};
use std::test::Fail;

/// Chains and pools are made.
const MADE: [CollectedCase; 2] = [
    // A name is looked at before a chain, and a table is none.
    CollectedCase {
        script: b"arena 8 8\nchain c 4 8\nchain c 1\npool c amc front d\npool p amc front d\ntable t 1\npool p amc front t\n\
        pool p amc front c\npool q amcz mapped c\nap x q exact\ncommitted\n",
        printed: b"ok\nok\nrefused 2\nrefused 2\nrefused 1\nok\nrefused 1\nok\nok\nok\n0\n",
    },
    // There are 16 chains at most, each of one to eight generations.
    CollectedCase {
        script: b"arena 1 1\nchain a 1 2 3 4 5 6 7 2048\nchain b 0\nchain c 0\nchain d 0\nchain e 0\nchain f 0\nchain g 0\nchain h 0\n\
        chain i 0\nchain j 0\nchain k 0\nchain l 0\nchain m 0\nchain n 0\nchain o 0\nchain p 0\nchain q 0\nchain a 0\n",
        printed: b"ok\nok\nok\nok\nok\nok\nok\nok\nok\nok\nok\nok\nok\nok\nok\nok\nok\nrefused 16 16\nrefused 2\n",
    },
];

/// Generations of a chain are collected.
const STARTED: [CollectedCase; 3] = [
    // An object goes one generation up, and keeps what an old one refers to.
    CollectedCase {
        script: b"arena 8 8\nchain c 0 8\npool p amc front c\ntable t 2\nap x p exact\nreserve x f:2:1\ncommit x t.0\nstart c 0\n\
        step 100\nreserve x f:2:0\ncommit x t.1\nput t.0 1 t.1\nclear t.1\nstart c 0\nstep 100\nget t.1 t.0 1\naddr t.1\naddr t.0\n\
        start c 2\n",
        printed: b"ok\nok\nok\nok\nok\nok\nok\nok\nidle\nok\nok\nok\nok\nok\nidle\nok\n0x3000\n0x2000\nrefused 3\n",
    },
    // No old block is scanned whose segment refers to nothing that the flip condemns.
    CollectedCase {
        script: b"arena 8 8\nchain c 8 8\npool p amc front c\ntable t 2\nap x p exact\n\
        reserve x f:2:1\ninit x 1 t.0\ncommit x t.0\nreserve x f:2:1\ninit x 1 t.0\ncommit x t.0\n\
        reserve x f:2:1\ninit x 1 t.0\ncommit x t.0\nreserve x f:2:1\ninit x 1 t.0\ncommit x t.0\n\
        reserve x f:2:1\ninit x 1 t.0\ncommit x t.0\nreserve x f:2:1\ninit x 1 t.0\ncommit x t.0\n\
        reserve x f:2:1\ninit x 1 t.0\ncommit x t.0\nreserve x f:2:1\ninit x 1 t.0\ncommit x t.0\n\
        reserve x f:2:1\ninit x 1 t.0\ncommit x t.0\nreserve x f:2:1\ninit x 1 t.0\ncommit x t.0\n\
        start c 0\nstep 100\npool v mvff\nblocks b 1\nalloc v 512 b.0\nreserve x f:2:0\ncommit x t.1\nstart c 0\nstep 2\naddr t.1\n",
        printed: b"ok\nok\nok\nok\nok\nok\nok\nok\nok\nok\nok\nok\nok\nok\nok\nok\nok\nok\nok\nok\nok\nok\nok\nok\nok\nok\nok\nok\nok\nok\n\
        ok\nok\nok\nok\nok\nok\nidle\nok\nok\nok\nok\nok\nok\nidle\n0x4000\n",
    },
    // The name, the generation, and then whether a collection is in progress.
    CollectedCase {
        script: b"arena 8 8\nchain c 4 8\npool p amc front c\ntable t 1\nap x p exact\nreserve x f:2:0\ncommit x t.0\nstart c 1\n\
        start d 0\nstart t 0\nstart c 2\nstart c 1\nstep 100\nstart c 1\nstep 100\n",
        printed: b"ok\nok\nok\nok\nok\nok\nok\nok\nrefused 1\nrefused 1\nrefused 3\nrefused 17\nidle\nok\nidle\n",
    },
];

/// A poll flips the generation that is due, in an unclamped arena alone.
const POLLED: [CollectedCase; 1] = [CollectedCase {
    script: b"arena 8 8\nchain c 1\npool p amc leaf c\ntable t 2\nap x p exact\nclamp\nreserve x l:512\ncommit x t.0\nreserve x l:512\n\
    commit x t.0\nrelease\nreserve x l:512\ncommit x t.1\naddr t.0\naddr t.1\nstep 100\ncommitted\nlive\n",
    printed: b"ok\nok\nok\nok\nok\nok\nok\nok\nok\nok\nok\nok\nok\n0x3000\n0x4000\nidle\n2\n2 1024\n",
}];

#[test]
fn chains_and_pools_on_them_are_made(rt: HostRuntime) -> Result<(), Fail> {
    check_all(&rt, rt.alloc(), &MADE)
}

#[test]
fn generations_of_a_chain_are_collected(rt: HostRuntime) -> Result<(), Fail> {
    check_all(&rt, rt.alloc(), &STARTED)
}

#[test]
fn a_poll_flips_the_generation_that_is_due(rt: HostRuntime) -> Result<(), Fail> {
    check_all(&rt, rt.alloc(), &POLLED)
}
