// Allocation caches: scripts on standard input and their answers.
use super::collected::{CollectedCase, check_all};
use std::test::Fail;

/// What a cache keeps, and what it gives.
const KEPT: [CollectedCase; 8] = [
    // A cached block lives on with its words, and comes back with all of them 0.
    CollectedCase {
        script: b"arena 8 8\npool v mvff\nblocks b 4\ncache q v 16 2\ncalloc q 16 b.0\nstore b.0 3 7\ncfree q b.0\nlive\n\
        dump 0x1000\ncalloc q 16 b.1\nload b.1 3\ncfree q b.1\nlive\ncommitted\n",
        printed: b"ok\nok\nok\nok\nok\nok\nok\n1 16\n0x0 0x0 0x0 0x7 0x0 0x0 0x0 0x0 0x0 0x0 0x0 0x0 0x0 0x0 0x0 0x0\nok\n0\nok\n\
        1 16\n1\n",
    },
    // The block that was cached last comes first.
    CollectedCase {
        script: b"arena 8 8\npool v mvff\nblocks b 4\ncache q v 4 2\ncalloc q 4 b.0\ncalloc q 4 b.1\ncfree q b.0\ncfree q b.1\n\
        calloc q 4 b.2\nlive\nalloc v 4 b.3\nlive\nlive\ndump 0x1020\ndump 0x1000\n",
        printed: b"ok\nok\nok\nok\nok\nok\nok\nok\nok\n2 8\nok\n3 12\n3 12\n0x0 0x0 0x0 0x0\n0x0 0x0 0x0 0x0\n",
    },
    // A class keeps as many blocks as it may, and the next is freed.
    CollectedCase {
        script: b"arena 8 8\npool v mvff\nblocks b 4\ncache q v 4 1\ncalloc q 4 b.0\ncalloc q 4 b.1\ncfree q b.0\ncfree q b.1\n\
        live\ncalloc q 4 b.0\nlive\n",
        printed: b"ok\nok\nok\nok\nok\nok\nok\nok\n1 4\nok\n1 4\n",
    },
    // A class for no blocks keeps nothing, and the last block's segment is given back.
    CollectedCase {
        script: b"arena 8 8\npool v mvff\nblocks b 4\ncache q v 4 0\ncalloc q 4 b.0\ncommitted\ncfree q b.0\nlive\ncommitted\n",
        printed: b"ok\nok\nok\nok\nok\n1\nok\n0 0\n0\n",
    },
    // A size without a class goes to the pool, and a block of that size back to it.
    CollectedCase {
        script: b"arena 8 8\npool v mvff\nblocks b 4\ncache q v 4 1 8 1\ncalloc q 5 b.0\ncalloc q 65536 b.1\ncfree q b.0\nlive\n\
        calloc q 5 b.2\ncfree q b.2\nlive\n",
        printed: b"ok\nok\nok\nok\nok\nrefused 10 1 128 8\nok\n0 0\nok\nok\n0 0\n",
    },
    // Blocks of the pool may be cached, and cached blocks may be freed.
    CollectedCase {
        script: b"arena 8 8\npool v mvff\nblocks b 4\ncache q v 4 1\nalloc v 4 b.0\ncfree q b.0\nlive\ncalloc q 4 b.1\nfree b.1\n\
        live\ncommitted\n",
        printed: b"ok\nok\nok\nok\nok\nok\n1 4\nok\nok\n0 0\n0\n",
    },
    // Two caches over one pool keep each their own.
    CollectedCase {
        script: b"arena 8 8\npool v mvff\nblocks b 4\ncache q v 4 1\ncache r v 4 1\ncalloc q 4 b.0\ncalloc r 4 b.1\ncfree q b.1\n\
        cfree r b.0\nlive\nlive\ncalloc q 4 b.2\ncalloc r 4 b.3\nlive\nlive\n",
        printed: b"ok\nok\nok\nok\nok\nok\nok\nok\nok\n2 8\n2 8\nok\nok\n2 8\n2 8\n",
    },
    // A cached block is in no place, and comes back into another one.
    CollectedCase {
        script: b"arena 8 8\npool v mvff\nblocks b 4\ncache q v 4 1\ncalloc q 4 b.0\ncfree q b.0\nload b.0 0\nfree b.0\n\
        calloc q 4 b.3\nload b.3 3\nlive\n",
        printed: b"ok\nok\nok\nok\nok\nok\nrefused 12\nrefused 12\nok\n0\n1 4\n",
    },
];

/// What a flush frees.
const FLUSHED: [CollectedCase; 4] = [
    // All cached blocks go, and their segments.
    CollectedCase {
        script: b"arena 8 8\npool v mvff\nblocks b 4\ncache q v 4 2 512 1\ncalloc q 4 b.0\ncalloc q 4 b.1\ncalloc q 512 b.2\ncfree q b.0\n\
        cfree q b.1\ncfree q b.2\nlive\ncommitted\ncflush q\nlive\ncommitted\ncflush q\ncalloc q 4 b.0\nlive\ncommitted\n",
        printed: b"ok\nok\nok\nok\nok\nok\nok\nok\nok\nok\n3 520\n2\nok\n0 0\n0\nok\nok\n1 4\n1\n",
    },
    // Blocks in places and in other caches stay, and what was flushed isn't given again.
    CollectedCase {
        script: b"arena 8 8\npool v mvff\nblocks b 4\ncache q v 4 2\ncache r v 4 2\ncalloc q 4 b.0\ncalloc q 4 b.1\ncalloc r 4 b.2\n\
        store b.0 3 7\nstore b.2 3 9\ncfree q b.1\ncfree r b.2\ncflush q\nlive\nload b.0 3\ndump 0x1040\ncalloc r 4 b.3\n\
        load b.3 3\ncflush r\nlive\ncommitted\n",
        printed: b"ok\nok\nok\nok\nok\nok\nok\nok\nok\nok\nok\nok\nok\n2 8\n7\n0x0 0x0 0x0 0x9\nok\n0\nok\n2 8\n1\n",
    },
    // An empty cache, and one without room.
    CollectedCase {
        script: b"arena 8 8\npool v mvff\nblocks b 1\ncache q v 4 0\ncflush q\ncalloc q 4 b.0\ncfree q b.0\ncflush q\nlive\n",
        printed: b"ok\nok\nok\nok\nok\nok\nok\nok\n0 0\n",
    },
    // No cache has the name.
    CollectedCase {
        script: b"arena 8 8\npool v mvff\ncflush v\ncflush x\ncache q v 4 1\ncflush q\n",
        printed: b"ok\nok\nrefused 1\nrefused 1\nok\nok\n",
    },
];

/// What is refused, and in which order.
const REFUSED: [CollectedCase; 5] = [
    // A taken name, no pool, a pool of one size, sizes that fall or that no block has.
    CollectedCase {
        script: b"arena 8 8\npool v mvff\npool m mfs 4\npool p amc front\ncache v v 1 1\ncache q x 1 1\ncache q m 4 1\n\
        cache q p 4 1\ncache q v 0 1\ncache q v 65537 1\ncache q v 18446744073709551615 1\ncache q v 4 1 4 1\ncache q v 8 1 4 1\n\
        cache q v 65536 64\ncache q v 1 1\n",
        printed: b"ok\nok\nok\nok\nrefused 2\nrefused 1\nrefused 13\nrefused 13\nrefused 15\nrefused 15\nrefused 15\nrefused 15\n\
        refused 15\nok\nrefused 2\n",
    },
    // The order of what a `calloc` refuses.
    CollectedCase {
        script: b"arena 8 8\npool v mvff\nblocks b 4\ncache q v 4 1\ntable t 1\ncalloc x 0 c.0\ncalloc q 0 c.0\ncalloc q 0 t.0\n\
        calloc q 0 b.4\ncalloc q 0 b.0\ncalloc q 65537 b.0\ncalloc q 4 b.0\ncalloc q 0 b.0\ncalloc q 4 b.0\ncalloc v 4 b.1\n",
        printed: b"ok\nok\nok\nok\nok\nrefused 1\nrefused 1\nrefused 1\nrefused 3\nrefused 15\nrefused 15\nok\nrefused 15\n\
        refused 2\nrefused 1\n",
    },
    // No room: a cached block needs none.
    CollectedCase {
        script: b"arena 8 1\npool v mvff\nblocks b 4\ncache q v 512 1\ncalloc q 512 b.0\ncalloc q 512 b.1\ncalloc q 4 b.1\n\
        cfree q b.0\ncalloc q 4 b.1\ncalloc q 512 b.1\nlive\n",
        printed: b"ok\nok\nok\nok\nok\nrefused 10 1 1 1\nrefused 10 1 1 1\nok\nrefused 10 1 1 1\nok\n1 512\n",
    },
    // The order of what a `cfree` refuses.
    CollectedCase {
        script: b"arena 8 8\npool v mvff\nblocks b 4\npool m mfs 4\npool w mvff\ncache q v 4 1\ncfree x b.0\ncfree q c.0\n\
        cfree q b.4\ncfree q b.0\nalloc m 4 b.0\ncfree q b.0\nalloc w 4 b.1\ncfree q b.1\nlive\n",
        printed: b"ok\nok\nok\nok\nok\nok\nrefused 1\nrefused 1\nrefused 3\nrefused 12\nok\nrefused 13\nok\nrefused 13\n2 8\n",
    },
    // There are sixteen caches.
    CollectedCase {
        script: b"arena 8 8\npool v mvff\ncache q0 v 1 1\ncache q1 v 1 1\ncache q2 v 1 1\ncache q3 v 1 1\ncache q4 v 1 1\n\
        cache q5 v 1 1\ncache q6 v 1 1\ncache q7 v 1 1\ncache q8 v 1 1\ncache q9 v 1 1\ncache q10 v 1 1\ncache q11 v 1 1\n\
        cache q12 v 1 1\ncache q13 v 1 1\ncache q14 v 1 1\ncache q15 v 1 1\ncache q16 v 1 1\ncache q16 v 2 1 1 1\n",
        printed: b"ok\nok\nok\nok\nok\nok\nok\nok\nok\nok\nok\nok\nok\nok\nok\nok\nok\nok\nrefused 16 16\nrefused 15\n",
    },
];

#[test]
fn blocks_are_cached(rt: HostRuntime) -> Result<(), Fail> {
    check_all(&rt, rt.alloc(), &KEPT)
}

#[test]
fn caches_are_flushed(rt: HostRuntime) -> Result<(), Fail> {
    check_all(&rt, rt.alloc(), &FLUSHED)
}

#[test]
fn calls_on_caches_are_refused(rt: HostRuntime) -> Result<(), Fail> {
    check_all(&rt, rt.alloc(), &REFUSED)
}
