// Collections by steps: scripts on standard input and their answers.
use super::collected::{CollectedCase, check_all};
use std::test::Fail;

/// The states of the arena.
const STATES: [CollectedCase; 6] = [
    // Nothing is condemned: the collection is over at once, and the arena is unclamped.
    CollectedCase {
        script: b"arena 8 8\nstart\nstep 1\nstart\npark\nstart\nstep 0\n",
        printed: b"ok\nok\nidle\nok\nok\nok\nidle\n",
    },
    // A clamped arena does no units, and a released one goes on.
    CollectedCase {
        script: b"arena 16 16\ntable t 3\npool p amc front\nap x p exact\nreserve x f:300:1\ninit x 2 2\ncommit x t.0\n\
        reserve x f:300:1\ninit x 1 t.0\ninit x 2 1\ncommit x t.0\nreserve x f:300:1\ncommit x t.1\nclear t.1\nstart\nclamp\nstep 1000\n\
        live\nrelease\nstep 0\nstep 1\nstep 1000\nlive\nstep 1\n",
        printed: b"ok\nok\nok\nok\nok\nok\nok\nok\nok\nok\nok\nok\nok\nok\nok\nok\nmore\n3 900\nok\nmore\nmore\nidle\n2 600\nidle\n",
    },
    // A `start` in an arena that is parked or clamped, and none while one runs.
    CollectedCase {
        script: b"arena 16 16\ntable t 3\npool p amc front\nap x p exact\nreserve x f:300:1\ninit x 2 2\ncommit x t.0\n\
        reserve x f:300:1\ninit x 1 t.0\ninit x 2 1\ncommit x t.0\nreserve x f:300:1\ncommit x t.1\nclear t.1\nclamp\nstart\nstep 1\n\
        start\nclamp\nstart\nrelease\nstep 1000\npark\nstart\nstep 1\n",
        printed: b"ok\nok\nok\nok\nok\nok\nok\nok\nok\nok\nok\nok\nok\nok\nok\nok\nmore\nrefused 17\nok\nrefused 17\nok\nidle\nok\nok\n\
        more\n",
    },
    // A `park` ends the collection.
    CollectedCase {
        script: b"arena 16 16\ntable t 3\npool p amc front\nap x p exact\nreserve x f:300:1\ninit x 2 2\ncommit x t.0\n\
        reserve x f:300:1\ninit x 1 t.0\ninit x 2 1\ncommit x t.0\nreserve x f:300:1\ncommit x t.1\nclear t.1\nstart\nstep 1\npark\n\
        step 1000\nlive\ncommitted\naddr t.0\nget t.1 t.0 1\naddr t.1\n",
        printed: b"ok\nok\nok\nok\nok\nok\nok\nok\nok\nok\nok\nok\nok\nok\nok\nmore\nok\nidle\n2 600\n2\n0x4000\nok\n0x5000\n",
    },
    // An arena of two grains, in which an object can move.
    CollectedCase {
        script: b"arena 2 2\ntable t 1\npool p amc front\nap x p exact\nreserve x f:2:0\ninit x 1 7\ncommit x t.0\nstart\naddr t.0\n\
        num t.0 1\nstep 1\nstep 1000\ncommitted\naddr t.0\n",
        printed: b"ok\nok\nok\nok\nok\nok\nok\nok\n0x2000\n7\nmore\nidle\n1\n0x2000\n",
    },
    // One of a grain, in which none can.
    CollectedCase {
        script: b"arena 1 1\ntable t 2\npool p amc front\nap x p exact\nreserve x f:2:1\ncommit x t.0\nreserve x f:2:1\ncommit x t.1\n\
        put t.0 1 t.1\nclear t.1\nstart\naddr t.0\nget t.1 t.0 1\naddr t.1\nstep 1000\naddr t.1\ncommitted\n",
        printed: b"ok\nok\nok\nok\nok\nok\nok\nok\nok\nok\nok\n0x1000\nok\n0x1010\nidle\n0x1010\n1\n",
    },
];

/// A `collect` over a running collection, in each of its bands.
const BANDS: [CollectedCase; 5] = [
    // After no unit.
    CollectedCase {
        script: b"arena 16 16\ntable t 3\npool p amc front\npool w awl front\nap x p exact\nap y w weak\nreserve y f:3:2\ncommit y t.0\n\
        reserve x f:2:0\ninit x 1 5\ncommit x t.1\nput t.0 1 t.1\nreserve x f:2:0\ninit x 1 6\ncommit x t.2\nput t.0 2 t.2\n\
        finalize t.2\nclear t.2\nclear t.1\nstart\nstep 0\ncollect\nmessage t.2\nnum t.2 1\nget t.1 t.0 1\nnull t.1\nget t.1 t.0 2\n\
        null t.1\nlive\n",
        printed: b"ok\nok\nok\nok\nok\nok\nok\nok\nok\nok\nok\nok\nok\nok\nok\nok\nok\nok\nok\nok\nmore\nok\nok\n6\nok\nyes\nok\nno\n\
        2 5\n",
    },
    // After one.
    CollectedCase {
        script: b"arena 16 16\ntable t 3\npool p amc front\npool w awl front\nap x p exact\nap y w weak\nreserve y f:3:2\ncommit y t.0\n\
        reserve x f:2:0\ninit x 1 5\ncommit x t.1\nput t.0 1 t.1\nreserve x f:2:0\ninit x 1 6\ncommit x t.2\nput t.0 2 t.2\n\
        finalize t.2\nclear t.2\nclear t.1\nstart\nstep 1\ncollect\nmessage t.2\nnum t.2 1\nget t.1 t.0 1\nnull t.1\nget t.1 t.0 2\n\
        null t.1\nlive\n",
        printed: b"ok\nok\nok\nok\nok\nok\nok\nok\nok\nok\nok\nok\nok\nok\nok\nok\nok\nok\nok\nok\nmore\nok\nok\n6\nok\nyes\nok\nno\n\
        2 5\n",
    },
    // After two.
    CollectedCase {
        script: b"arena 16 16\ntable t 3\npool p amc front\npool w awl front\nap x p exact\nap y w weak\nreserve y f:3:2\ncommit y t.0\n\
        reserve x f:2:0\ninit x 1 5\ncommit x t.1\nput t.0 1 t.1\nreserve x f:2:0\ninit x 1 6\ncommit x t.2\nput t.0 2 t.2\n\
        finalize t.2\nclear t.2\nclear t.1\nstart\nstep 2\ncollect\nmessage t.2\nnum t.2 1\nget t.1 t.0 1\nnull t.1\nget t.1 t.0 2\n\
        null t.1\nlive\n",
        printed: b"ok\nok\nok\nok\nok\nok\nok\nok\nok\nok\nok\nok\nok\nok\nok\nok\nok\nok\nok\nok\nmore\nok\nok\n6\nok\nyes\nok\nno\n\
        2 5\n",
    },
    // After three.
    CollectedCase {
        script: b"arena 16 16\ntable t 3\npool p amc front\npool w awl front\nap x p exact\nap y w weak\nreserve y f:3:2\ncommit y t.0\n\
        reserve x f:2:0\ninit x 1 5\ncommit x t.1\nput t.0 1 t.1\nreserve x f:2:0\ninit x 1 6\ncommit x t.2\nput t.0 2 t.2\n\
        finalize t.2\nclear t.2\nclear t.1\nstart\nstep 3\ncollect\nmessage t.2\nnum t.2 1\nget t.1 t.0 1\nnull t.1\nget t.1 t.0 2\n\
        null t.1\nlive\n",
        printed: b"ok\nok\nok\nok\nok\nok\nok\nok\nok\nok\nok\nok\nok\nok\nok\nok\nok\nok\nok\nok\nmore\nok\nok\n6\nok\nyes\nok\nno\n\
        2 5\n",
    },
    // After four, of five.
    CollectedCase {
        script: b"arena 16 16\ntable t 3\npool p amc front\npool w awl front\nap x p exact\nap y w weak\nreserve y f:3:2\ncommit y t.0\n\
        reserve x f:2:0\ninit x 1 5\ncommit x t.1\nput t.0 1 t.1\nreserve x f:2:0\ninit x 1 6\ncommit x t.2\nput t.0 2 t.2\n\
        finalize t.2\nclear t.2\nclear t.1\nstart\nstep 4\ncollect\nmessage t.2\nnum t.2 1\nget t.1 t.0 1\nnull t.1\nget t.1 t.0 2\n\
        null t.1\nlive\n",
        printed: b"ok\nok\nok\nok\nok\nok\nok\nok\nok\nok\nok\nok\nok\nok\nok\nok\nok\nok\nok\nok\nmore\nok\nok\n6\nok\nyes\nok\nno\n\
        2 5\n",
    },
];

/// Objects that are made while a collection runs.
const MADE: [CollectedCase; 6] = [
    // A new object in a gap of a condemned segment is kept.
    CollectedCase {
        script: b"arena 8 8\ntable t 3\npool p ams front\nap x p exact\nreserve x f:2:0\ninit x 1 1\ncommit x t.0\nreserve x f:2:0\n\
        init x 1 2\ncommit x t.1\nreserve x f:2:0\ninit x 1 3\ncommit x t.2\nclear t.1\ncollect\naddr t.2\nstart\nreserve x f:2:0\n\
        init x 1 4\ncommit x t.1\naddr t.1\nclear t.2\ncollect\nnum t.1 1\nlive\n",
        printed: b"ok\nok\nok\nok\nok\nok\nok\nok\nok\nok\nok\nok\nok\nok\nok\n0x1020\nok\nok\nok\nok\n0x1010\nok\nok\n4\n2 4\n",
    },
    // A reservation in one is kept over the end of the collection.
    CollectedCase {
        script: b"arena 8 8\ntable t 3\npool p ams front\nap x p exact\nreserve x f:2:0\ninit x 1 1\ncommit x t.0\nreserve x f:2:0\n\
        init x 1 2\ncommit x t.1\nreserve x f:2:0\ninit x 1 3\ncommit x t.2\nclear t.1\ncollect\naddr t.2\nstart\nreserve x f:2:0\n\
        init x 1 4\nclear t.0\nclear t.2\nstep 1000\ncommit x t.1\naddr t.1\nnum t.1 1\nlive\n",
        printed: b"ok\nok\nok\nok\nok\nok\nok\nok\nok\nok\nok\nok\nok\nok\nok\n0x1020\nok\nok\nok\nok\nok\nidle\nok\n0x1010\n4\n3 6\n",
    },
    // A reservation made before the flip is ended by it.
    CollectedCase {
        script: b"arena 8 8\ntable t 3\npool p amc front\nap x p exact\nreserve x f:2:0\ninit x 1 4\nstart\ncommit x t.0\nstep 1\n\
        reserve x f:2:0\ninit x 1 5\ncommit x t.0\nnum t.0 1\n",
        printed: b"ok\nok\nok\nok\nok\nok\nok\nflipped\nidle\nok\nok\nok\n5\n",
    },
    // A reservation that needs a segment does the rest of the units.
    CollectedCase {
        script: b"arena 16 16\ntable t 3\npool p amc front\nap x p exact\nreserve x f:300:1\ninit x 2 2\ncommit x t.0\n\
        reserve x f:300:1\ninit x 1 t.0\ninit x 2 1\ncommit x t.0\nreserve x f:300:1\ncommit x t.1\nclear t.1\nstart\n\
        reserve x f:300:1\nstep 1\ncommit x t.1\nlive\n",
        printed: b"ok\nok\nok\nok\nok\nok\nok\nok\nok\nok\nok\nok\nok\nok\nok\nok\nidle\nok\n3 900\n",
    },
    // In a clamped arena it does none.
    CollectedCase {
        script: b"arena 16 16\ntable t 3\npool p amc front\nap x p exact\nreserve x f:300:1\ninit x 2 2\ncommit x t.0\n\
        reserve x f:300:1\ninit x 1 t.0\ninit x 2 1\ncommit x t.0\nreserve x f:300:1\ncommit x t.1\nclear t.1\nstart\nclamp\n\
        reserve x f:300:1\nrelease\nstep 1\ncommit x t.1\nstep 1000\nlive\n",
        printed: b"ok\nok\nok\nok\nok\nok\nok\nok\nok\nok\nok\nok\nok\nok\nok\nok\nok\nok\nmore\nok\nidle\n3 900\n",
    },
    // One that has a place does none.
    CollectedCase {
        script: b"arena 8 8\ntable t 3\npool p amc front\nap x p exact\nreserve x f:2:1\ncommit x t.0\nstart\nreserve x f:2:1\n\
        commit x t.1\nstep 1\nreserve x f:2:1\ncommit x t.2\nstep 0\n",
        printed: b"ok\nok\nok\nok\nok\nok\nok\nok\nok\nidle\nok\nok\nidle\n",
    },
];

/// A `reserve` that polls does 64 units of 68.
const POLLS: [CollectedCase; 4] = [
    // Three more leave it in progress.
    CollectedCase {
        script: b"arena 8 8\ntable t 2\npool p amc front\nap x p exact\npool q amc front\nap z q exact\nreserve x f:2:0\ninit x 1 1\n\
        commit x t.0\nfinalize t.0\nfinalize t.0\nfinalize t.0\nfinalize t.0\nfinalize t.0\nfinalize t.0\nfinalize t.0\nfinalize t.0\n\
        finalize t.0\nfinalize t.0\nfinalize t.0\nfinalize t.0\nfinalize t.0\nfinalize t.0\nfinalize t.0\nfinalize t.0\nfinalize t.0\n\
        finalize t.0\nfinalize t.0\nfinalize t.0\nfinalize t.0\nfinalize t.0\nfinalize t.0\nfinalize t.0\nfinalize t.0\nfinalize t.0\n\
        finalize t.0\nfinalize t.0\nfinalize t.0\nfinalize t.0\nfinalize t.0\nfinalize t.0\nfinalize t.0\nfinalize t.0\nfinalize t.0\n\
        finalize t.0\nfinalize t.0\nfinalize t.0\nfinalize t.0\nfinalize t.0\nfinalize t.0\nfinalize t.0\nfinalize t.0\nfinalize t.0\n\
        finalize t.0\nfinalize t.0\nfinalize t.0\nfinalize t.0\nfinalize t.0\nfinalize t.0\nfinalize t.0\nfinalize t.0\nfinalize t.0\n\
        finalize t.0\nfinalize t.0\nfinalize t.0\nfinalize t.0\nfinalize t.0\nfinalize t.0\nfinalize t.0\nfinalize t.0\nfinalize t.0\n\
        finalize t.0\nfinalize t.0\nfinalize t.0\nfinalize t.0\nstart\nreserve z f:2:1\nstep 3\n",
        printed: b"ok\nok\nok\nok\nok\nok\nok\nok\nok\nok\nok\nok\nok\nok\nok\nok\nok\nok\nok\nok\nok\nok\nok\nok\nok\nok\nok\nok\nok\n\
        ok\nok\nok\nok\nok\nok\nok\nok\nok\nok\nok\nok\nok\nok\nok\nok\nok\nok\nok\nok\nok\nok\nok\nok\nok\nok\nok\nok\nok\nok\nok\nok\n\
        ok\nok\nok\nok\nok\nok\nok\nok\nok\nok\nok\nok\nok\nok\nok\nok\nmore\n",
    },
    // With four it ends.
    CollectedCase {
        script: b"arena 8 8\ntable t 2\npool p amc front\nap x p exact\npool q amc front\nap z q exact\nreserve x f:2:0\ninit x 1 1\n\
        commit x t.0\nfinalize t.0\nfinalize t.0\nfinalize t.0\nfinalize t.0\nfinalize t.0\nfinalize t.0\nfinalize t.0\nfinalize t.0\n\
        finalize t.0\nfinalize t.0\nfinalize t.0\nfinalize t.0\nfinalize t.0\nfinalize t.0\nfinalize t.0\nfinalize t.0\nfinalize t.0\n\
        finalize t.0\nfinalize t.0\nfinalize t.0\nfinalize t.0\nfinalize t.0\nfinalize t.0\nfinalize t.0\nfinalize t.0\nfinalize t.0\n\
        finalize t.0\nfinalize t.0\nfinalize t.0\nfinalize t.0\nfinalize t.0\nfinalize t.0\nfinalize t.0\nfinalize t.0\nfinalize t.0\n\
        finalize t.0\nfinalize t.0\nfinalize t.0\nfinalize t.0\nfinalize t.0\nfinalize t.0\nfinalize t.0\nfinalize t.0\nfinalize t.0\n\
        finalize t.0\nfinalize t.0\nfinalize t.0\nfinalize t.0\nfinalize t.0\nfinalize t.0\nfinalize t.0\nfinalize t.0\nfinalize t.0\n\
        finalize t.0\nfinalize t.0\nfinalize t.0\nfinalize t.0\nfinalize t.0\nfinalize t.0\nfinalize t.0\nfinalize t.0\nfinalize t.0\n\
        finalize t.0\nfinalize t.0\nfinalize t.0\nfinalize t.0\nstart\nreserve z f:2:1\nstep 4\n",
        printed: b"ok\nok\nok\nok\nok\nok\nok\nok\nok\nok\nok\nok\nok\nok\nok\nok\nok\nok\nok\nok\nok\nok\nok\nok\nok\nok\nok\nok\nok\n\
        ok\nok\nok\nok\nok\nok\nok\nok\nok\nok\nok\nok\nok\nok\nok\nok\nok\nok\nok\nok\nok\nok\nok\nok\nok\nok\nok\nok\nok\nok\nok\nok\n\
        ok\nok\nok\nok\nok\nok\nok\nok\nok\nok\nok\nok\nok\nok\nok\nok\nidle\n",
    },
    // Without the poll, 67 leave it in progress.
    CollectedCase {
        script: b"arena 8 8\ntable t 2\npool p amc front\nap x p exact\npool q amc front\nap z q exact\nreserve x f:2:0\ninit x 1 1\n\
        commit x t.0\nfinalize t.0\nfinalize t.0\nfinalize t.0\nfinalize t.0\nfinalize t.0\nfinalize t.0\nfinalize t.0\nfinalize t.0\n\
        finalize t.0\nfinalize t.0\nfinalize t.0\nfinalize t.0\nfinalize t.0\nfinalize t.0\nfinalize t.0\nfinalize t.0\nfinalize t.0\n\
        finalize t.0\nfinalize t.0\nfinalize t.0\nfinalize t.0\nfinalize t.0\nfinalize t.0\nfinalize t.0\nfinalize t.0\nfinalize t.0\n\
        finalize t.0\nfinalize t.0\nfinalize t.0\nfinalize t.0\nfinalize t.0\nfinalize t.0\nfinalize t.0\nfinalize t.0\nfinalize t.0\n\
        finalize t.0\nfinalize t.0\nfinalize t.0\nfinalize t.0\nfinalize t.0\nfinalize t.0\nfinalize t.0\nfinalize t.0\nfinalize t.0\n\
        finalize t.0\nfinalize t.0\nfinalize t.0\nfinalize t.0\nfinalize t.0\nfinalize t.0\nfinalize t.0\nfinalize t.0\nfinalize t.0\n\
        finalize t.0\nfinalize t.0\nfinalize t.0\nfinalize t.0\nfinalize t.0\nfinalize t.0\nfinalize t.0\nfinalize t.0\nfinalize t.0\n\
        finalize t.0\nfinalize t.0\nfinalize t.0\nfinalize t.0\nstart\nstep 67\n",
        printed: b"ok\nok\nok\nok\nok\nok\nok\nok\nok\nok\nok\nok\nok\nok\nok\nok\nok\nok\nok\nok\nok\nok\nok\nok\nok\nok\nok\nok\nok\n\
        ok\nok\nok\nok\nok\nok\nok\nok\nok\nok\nok\nok\nok\nok\nok\nok\nok\nok\nok\nok\nok\nok\nok\nok\nok\nok\nok\nok\nok\nok\nok\nok\n\
        ok\nok\nok\nok\nok\nok\nok\nok\nok\nok\nok\nok\nok\nok\nok\nmore\n",
    },
    // With 68 it ends.
    CollectedCase {
        script: b"arena 8 8\ntable t 2\npool p amc front\nap x p exact\npool q amc front\nap z q exact\nreserve x f:2:0\ninit x 1 1\n\
        commit x t.0\nfinalize t.0\nfinalize t.0\nfinalize t.0\nfinalize t.0\nfinalize t.0\nfinalize t.0\nfinalize t.0\nfinalize t.0\n\
        finalize t.0\nfinalize t.0\nfinalize t.0\nfinalize t.0\nfinalize t.0\nfinalize t.0\nfinalize t.0\nfinalize t.0\nfinalize t.0\n\
        finalize t.0\nfinalize t.0\nfinalize t.0\nfinalize t.0\nfinalize t.0\nfinalize t.0\nfinalize t.0\nfinalize t.0\nfinalize t.0\n\
        finalize t.0\nfinalize t.0\nfinalize t.0\nfinalize t.0\nfinalize t.0\nfinalize t.0\nfinalize t.0\nfinalize t.0\nfinalize t.0\n\
        finalize t.0\nfinalize t.0\nfinalize t.0\nfinalize t.0\nfinalize t.0\nfinalize t.0\nfinalize t.0\nfinalize t.0\nfinalize t.0\n\
        finalize t.0\nfinalize t.0\nfinalize t.0\nfinalize t.0\nfinalize t.0\nfinalize t.0\nfinalize t.0\nfinalize t.0\nfinalize t.0\n\
        finalize t.0\nfinalize t.0\nfinalize t.0\nfinalize t.0\nfinalize t.0\nfinalize t.0\nfinalize t.0\nfinalize t.0\nfinalize t.0\n\
        finalize t.0\nfinalize t.0\nfinalize t.0\nfinalize t.0\nstart\nstep 68\n",
        printed: b"ok\nok\nok\nok\nok\nok\nok\nok\nok\nok\nok\nok\nok\nok\nok\nok\nok\nok\nok\nok\nok\nok\nok\nok\nok\nok\nok\nok\nok\n\
        ok\nok\nok\nok\nok\nok\nok\nok\nok\nok\nok\nok\nok\nok\nok\nok\nok\nok\nok\nok\nok\nok\nok\nok\nok\nok\nok\nok\nok\nok\nok\nok\n\
        ok\nok\nok\nok\nok\nok\nok\nok\nok\nok\nok\nok\nok\nok\nok\nidle\n",
    },
];

/// Words of areas that are written while a collection runs.
const WORDS: [CollectedCase; 7] = [
    // A word that shows an old address of an object that moved holds nothing.
    CollectedCase {
        script: b"arena 8 8\ntable t 3\narea a 1\npool p amc front\nap x p exact\nreserve x f:2:0\ninit x 1 7\ncommit x t.0\naddr t.0\n\
        start\npoke a.0 0x1000\npeek a.0\ntake t.1 a.0\npoke a.0 0x2000\ntake t.1 a.0\nsame t.1 t.0\nstep 1000\ntake t.2 a.0\n\
        same t.2 t.0\nlive\n",
        printed: b"ok\nok\nok\nok\nok\nok\nok\nok\n0x1000\nok\nnumber\n0x1000\nrefused 5\nblock\nok\nyes\nidle\nok\nyes\n1 2\n",
    },
    // One that shows an object that has still to move.
    CollectedCase {
        script: b"arena 8 8\ntable t 3\narea a 1\npool p amc front\nap x p exact\nreserve x f:2:0\ninit x 1 7\ncommit x t.0\n\
        reserve x f:2:1\ncommit x t.1\nput t.1 1 t.0\naddr t.0\nclear t.0\nstart\npoke a.0 0x1000\ntake t.2 a.0\nget t.0 t.1 1\n\
        addr t.0\nstep 1000\nnum t.0 1\nlive\n",
        printed: b"ok\nok\nok\nok\nok\nok\nok\nok\nok\nok\nok\n0x1000\nok\nok\nnumber\nrefused 5\nok\n0x2010\nidle\n7\n2 4\n",
    },
    // One that shows a marked object, and one that isn't.
    CollectedCase {
        script: b"arena 8 8\ntable t 3\narea a 1\npool p ams front\nap x p exact\nreserve x f:2:0\ninit x 1 7\ncommit x t.0\n\
        reserve x f:2:1\ncommit x t.1\naddr t.0\naddr t.1\nclear t.1\nstart\npoke a.0 0x1000\ntake t.2 a.0\nsame t.2 t.0\n\
        poke a.0 0x1010\ntake t.2 a.0\nstep 1000\nlive\n",
        printed: b"ok\nok\nok\nok\nok\nok\nok\nok\nok\nok\n0x1000\n0x1010\nok\nok\nblock\nok\nyes\nnumber\nrefused 5\nidle\n1 2\n",
    },
    // One that pins an object.
    CollectedCase {
        script: b"arena 8 8\ntable t 3\narea a 2\npool p amc front\nap x p exact\nreserve x f:2:0\ninit x 1 7\ncommit x t.0\n\
        pin a.0 t.0\nstart\naddr t.0\npoke a.1 0x1000\nclear t.0\ntake t.1 a.1\nsame t.1 t.0\nnum t.1 1\nstep 1000\naddr t.1\nlive\n",
        printed: b"ok\nok\nok\nok\nok\nok\nok\nok\nok\nok\n0x1000\nblock\nok\nok\nno\n7\nidle\n0x1000\n1 2\n",
    },
    // Words of each kind once registrations are examined: an old address, where the object is now, an object that is white, a marked and
    // a white one of a pool that marks, and a pinned one.
    CollectedCase {
        script: b"arena 16 16\ntable t 4\narea a 2\npool p amc front\npool s ams front\npool w awl front\nap x p exact\nap y s exact\n\
        ap z w weak\nreserve x f:2:0\ncommit x t.0\nreserve x f:2:0\ncommit x t.1\nfinalize t.1\nreserve x f:2:0\ncommit x t.1\n\
        reserve y f:2:0\ncommit y t.1\nreserve y f:2:0\ncommit y t.2\nreserve z f:2:1\ncommit z t.3\nreserve x f:2:0\ncommit x t.2\n\
        pin a.0 t.2\nclear t.2\nstart\nstep 4\npoke a.1 0x1000\npoke a.1 0x4000\npoke a.1 0x1020\npoke a.1 0x2000\npoke a.1 0x2010\n\
        poke a.1 0x1030\nstep 1000\nlive\n",
        printed: b"ok\nok\nok\nok\nok\nok\nok\nok\nok\nok\nok\nok\nok\nok\nok\nok\nok\nok\nok\nok\nok\nok\nok\nok\nok\nok\nok\nmore\n\
        number\nblock\nnumber\nblock\nnumber\nblock\nidle\n5 10\n",
    },
    // The same once weak blocks are scanned.
    CollectedCase {
        script: b"arena 16 16\ntable t 4\narea a 2\npool p amc front\npool s ams front\npool w awl front\nap x p exact\nap y s exact\n\
        ap z w weak\nreserve x f:2:0\ncommit x t.0\nreserve x f:2:0\ncommit x t.1\nfinalize t.1\nreserve x f:2:0\ncommit x t.1\n\
        reserve y f:2:0\ncommit y t.1\nreserve y f:2:0\ncommit y t.2\nreserve z f:2:1\ncommit z t.3\nreserve x f:2:0\ncommit x t.2\n\
        pin a.0 t.2\nclear t.2\nstart\nstep 6\npoke a.1 0x1000\npoke a.1 0x4000\npoke a.1 0x1020\npoke a.1 0x2000\npoke a.1 0x2010\n\
        poke a.1 0x1030\nstep 1000\nlive\n",
        printed: b"ok\nok\nok\nok\nok\nok\nok\nok\nok\nok\nok\nok\nok\nok\nok\nok\nok\nok\nok\nok\nok\nok\nok\nok\nok\nok\nok\nmore\n\
        number\nblock\nnumber\nblock\nnumber\nblock\nidle\n5 10\n",
    },
    // The same once segments are reclaimed.
    CollectedCase {
        script: b"arena 16 16\ntable t 4\narea a 2\npool p amc front\npool s ams front\npool w awl front\nap x p exact\nap y s exact\n\
        ap z w weak\nreserve x f:2:0\ncommit x t.0\nreserve x f:2:0\ncommit x t.1\nfinalize t.1\nreserve x f:2:0\ncommit x t.1\n\
        reserve y f:2:0\ncommit y t.1\nreserve y f:2:0\ncommit y t.2\nreserve z f:2:1\ncommit z t.3\nreserve x f:2:0\ncommit x t.2\n\
        pin a.0 t.2\nclear t.2\nstart\nstep 7\npoke a.1 0x1000\npoke a.1 0x4000\npoke a.1 0x1020\npoke a.1 0x2000\npoke a.1 0x2010\n\
        poke a.1 0x1030\nstep 1000\nlive\n",
        printed: b"ok\nok\nok\nok\nok\nok\nok\nok\nok\nok\nok\nok\nok\nok\nok\nok\nok\nok\nok\nok\nok\nok\nok\nok\nok\nok\nok\nmore\n\
        number\nblock\nnumber\nblock\nnumber\nblock\nidle\n5 10\n",
    },
];

#[test]
fn units_go_by_the_state_of_the_arena(rt: HostRuntime) -> Result<(), Fail> {
    check_all(&rt, rt.alloc(), &STATES)
}

#[test]
fn a_collect_ends_what_runs(rt: HostRuntime) -> Result<(), Fail> {
    check_all(&rt, rt.alloc(), &BANDS)
}

#[test]
fn objects_are_made_between_units(rt: HostRuntime) -> Result<(), Fail> {
    check_all(&rt, rt.alloc(), &MADE)
}

#[test]
fn a_poll_does_64_units(rt: HostRuntime) -> Result<(), Fail> {
    check_all(&rt, rt.alloc(), &POLLS)
}

#[test]
fn words_are_written_between_units(rt: HostRuntime) -> Result<(), Fail> {
    check_all(&rt, rt.alloc(), &WORDS)
}
