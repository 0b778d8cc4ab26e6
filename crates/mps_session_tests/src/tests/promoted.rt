// References between generations, and what a flip of a chain leaves alone: scripts on standard input and their answers.
use super::collected::{CollectedCase, check_all};
use std::test::Fail;

/// Young objects to which older ones refer move, and the references lead to them then.
const KEPT: [CollectedCase; 5] = [
    // An `init` in a pool that is on no chain.
    CollectedCase {
        script: b"arena 8 8\nchain c 8 8\npool p amc front c\npool q amc front\ntable t 2\nap x p exact\nap y q exact\n\
        reserve x f:2:0\ninit x 1 7\ncommit x t.0\nreserve y f:2:1\ninit y 1 t.0\ncommit y t.1\nclear t.0\nstart c 0\n\
        step 100\nget t.0 t.1 1\nnum t.0 1\naddr t.0\naddr t.1\n",
        printed: b"ok\nok\nok\nok\nok\nok\nok\nok\nok\nok\nok\nok\nok\nok\nok\nidle\nok\n7\n0x3000\n0x2000\n",
    },
    // A copy that was promoted, whose reference led to another chain before.
    CollectedCase {
        script: b"arena 8 8\nchain c 8 8\nchain d 8 8\npool p amc front c\npool q amc front d\ntable t 2\nap x p exact\n\
        ap y q exact\nreserve y f:2:0\ninit y 1 7\ncommit y t.1\nreserve x f:2:1\ninit x 1 t.1\ncommit x t.0\nclear t.1\n\
        start c 0\nstep 100\nstart d 0\nstep 100\nget t.1 t.0 1\nnum t.1 1\naddr t.1\naddr t.0\n",
        printed: b"ok\nok\nok\nok\nok\nok\nok\nok\nok\nok\nok\nok\nok\nok\nok\nok\nidle\nok\nidle\nok\n7\n0x2000\n0x3000\n",
    },
    // A `put` into a grey object while a collection runs.
    CollectedCase {
        script: b"arena 8 8\nchain c 8 8\nchain d 8 8\npool p amc front c\npool q amc front d\ntable t 2\nap x p exact\n\
        ap y q exact\nreserve x f:2:1\ncommit x t.0\nreserve y f:2:0\ninit y 1 7\ncommit y t.1\nstart c 0\nput t.0 1 t.1\n\
        clear t.1\nstep 100\nstart d 0\nstep 100\nget t.1 t.0 1\nnum t.1 1\naddr t.1\naddr t.0\n",
        printed: b"ok\nok\nok\nok\nok\nok\nok\nok\nok\nok\nok\nok\nok\nok\nok\nok\nidle\nok\nidle\nok\n7\n0x1000\n0x3000\n",
    },
    // An object of a pool on no chain stays where it is, and so does what is referred to.
    CollectedCase {
        script: b"arena 8 8\nchain c 8 8\npool p amc front c\npool q amc front\ntable t 2\nap x p exact\nap y q exact\n\
        reserve y f:2:0\ninit y 1 7\ncommit y t.1\nreserve x f:2:1\ninit x 1 t.1\ncommit x t.0\nclear t.1\nstart c 0\n\
        step 100\nget t.1 t.0 1\nnum t.1 1\naddr t.1\naddr t.0\nlive\n",
        printed: b"ok\nok\nok\nok\nok\nok\nok\nok\nok\nok\nok\nok\nok\nok\nok\nidle\nok\n7\n0x1000\n0x3000\n2 4\n",
    },
    // An object goes up through all eight generations of a chain, and stays in the oldest.
    CollectedCase {
        script: b"arena 8 8\nchain c 8 8 8 8 8 8 8 8\npool p amc front c\ntable t 1\nap x p exact\nreserve x f:2:0\ninit x 1 7\n\
        commit x t.0\nstart c 0\nstep 100\naddr t.0\nstart c 0\nstep 100\naddr t.0\nstart c 1\nstep 100\naddr t.0\n\
        start c 2\nstep 100\naddr t.0\nstart c 3\nstep 100\naddr t.0\nstart c 4\nstep 100\naddr t.0\nstart c 5\nstep 100\n\
        addr t.0\nstart c 6\nstep 100\naddr t.0\nstart c 6\nstep 100\naddr t.0\nstart c 7\nstep 100\naddr t.0\nstart c 7\n\
        step 100\naddr t.0\nstart c 8\nnum t.0 1\n",
        printed: b"ok\nok\nok\nok\nok\nok\nok\nok\nok\nidle\n0x2000\nok\nidle\n0x2000\nok\nidle\n0x1000\nok\nidle\n0x2000\nok\nidle\n\
        0x1000\nok\nidle\n0x2000\nok\nidle\n0x1000\nok\nidle\n0x2000\nok\nidle\n0x2000\nok\nidle\n0x1000\nok\nidle\n0x2000\n\
        refused 3\n7\n",
    },
];

/// What a flip of generations does with all that it doesn't condemn.
const FLIPPED: [CollectedCase; 4] = [
    // An object is scanned whose segment refers to grain 1 alone: grain 65, which is condemned, has the same zone.
    CollectedCase {
        script: b"arena 80 80\nchain c 8 8\npool q amc front\npool p amc front c\npool v mvff\ntable t 2\nblocks b 1\nap y q exact\n\
        ap x p exact\nreserve y f:2:1\ncommit y t.0\nput t.0 1 t.0\nalloc v 32256 b.0\nreserve x f:2:0\ncommit x t.1\n\
        addr t.1\nstart c 0\nstep 2\nstep 1\naddr t.0\naddr t.1\n",
        printed: b"ok\nok\nok\nok\nok\nok\nok\nok\nok\nok\nok\nok\nok\nok\nok\n0x41000\nok\nmore\nidle\n0x1000\n0x42000\n",
    },
    // It isn't where grain 66 is condemned.
    CollectedCase {
        script: b"arena 80 80\nchain c 8 8\npool q amc front\npool p amc front c\npool v mvff\ntable t 2\nblocks b 1\nap y q exact\n\
        ap x p exact\nreserve y f:2:1\ncommit y t.0\nput t.0 1 t.0\nalloc v 32768 b.0\nreserve x f:2:0\ncommit x t.1\n\
        addr t.1\nstart c 0\nstep 2\naddr t.0\naddr t.1\n",
        printed: b"ok\nok\nok\nok\nok\nok\nok\nok\nok\nok\nok\nok\nok\nok\nok\n0x42000\nok\nidle\n0x1000\n0x43000\n",
    },
    // Nothing is in the generations of a chain: the collection is over at once.
    CollectedCase {
        script: b"arena 8 8\nchain c 4 8\nchain d 4\npool p amc front c\ntable t 1\nap x p exact\nreserve x f:2:0\ncommit x t.0\n\
        start d 0\nstep 0\nstart d 0\nstep 1\naddr t.0\n",
        printed: b"ok\nok\nok\nok\nok\nok\nok\nok\nok\nidle\nok\nidle\n0x1000\n",
    },
    // A registered object of a pool on no chain is kept without a message, and a weak one of another is splatted.
    CollectedCase {
        script: b"arena 8 8\nchain c 8 8\npool p amc front c\npool q amc front\npool w awl front\ntable t 3\nap x p exact\n\
        ap y q exact\nap z w weak\nreserve y f:2:0\ninit y 1 7\ncommit y t.1\nfinalize t.1\nclear t.1\nreserve z f:3:2\n\
        commit z t.2\nreserve x f:2:0\ninit x 1 5\ncommit x t.0\nput t.2 1 t.0\nreserve x f:2:0\ninit x 1 6\ncommit x t.1\n\
        put t.2 2 t.1\nclear t.1\nstart c 0\nstep 100\nmessage t.1\nget t.1 t.2 1\nnum t.1 1\nget t.1 t.2 2\nnull t.1\nlive\n\
        start\nstep 100\nmessage t.1\nnum t.1 1\n",
        printed: b"ok\nok\nok\nok\nok\nok\nok\nok\nok\nok\nok\nok\nok\nok\nok\nok\nok\nok\nok\nok\nok\nok\nok\nok\nok\nok\nidle\n\
        none\nok\n5\nok\nyes\n3 7\nok\nidle\nok\n7\n",
    },
];

/// What a poll does with chains.
const DUE: [CollectedCase; 2] = [
    // The first chain is due in its second generation, and the second chain isn't flipped.
    CollectedCase {
        script: b"arena 8 8\nchain c 8 0\nchain d 0\npool p amc front c\npool q amc front d\ntable t 3\nap x p exact\nap y q exact\n\
        clamp\nreserve y f:2:0\ncommit y t.1\nreserve x f:2:0\ncommit x t.0\nstart c 0\nstep 100\naddr t.0\n\
        reserve x f:512:0\ncommit x t.2\nstart c 0\naddr t.0\naddr t.1\naddr t.2\nstep 100\n",
        printed: b"ok\nok\nok\nok\nok\nok\nok\nok\nok\nok\nok\nok\nok\nok\nidle\n0x3000\nok\nok\nrefused 17\n0x2000\n0x1000\n0x4000\n\
        idle\n",
    },
    // It ends the collection that runs, and the block is placed where that gave a segment back.
    CollectedCase {
        script: b"arena 8 8\nchain c 8\npool p amc front c\ntable t 2\nap x p exact\nreserve x f:2:0\ncommit x t.0\nstart c 0\n\
        step 0\nreserve x f:512:0\ncommit x t.1\nstep 0\naddr t.0\naddr t.1\n",
        printed: b"ok\nok\nok\nok\nok\nok\nok\nok\nmore\nok\nok\nidle\n0x2000\n0x1000\n",
    },
];

#[test]
fn references_between_generations_are_kept(rt: HostRuntime) -> Result<(), Fail> {
    check_all(&rt, rt.alloc(), &KEPT)
}

#[test]
fn a_flip_leaves_other_generations_alone(rt: HostRuntime) -> Result<(), Fail> {
    check_all(&rt, rt.alloc(), &FLIPPED)
}

#[test]
fn a_poll_finds_the_chain_that_is_due(rt: HostRuntime) -> Result<(), Fail> {
    check_all(&rt, rt.alloc(), &DUE)
}
