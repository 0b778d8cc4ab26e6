// Transforms: scripts on standard input and their answers.
use super::collected::{CollectedCase, check_all};
use std::test::Fail;

/// What a transform replaces.
const REPLACED: [CollectedCase; 5] = [
    // A reference and a slot lead to the new object, and the old one goes.
    CollectedCase {
        script: b"arena 8 8\ntable t 4\narea a 1\npool p ams front\nap x p exact\nreserve x f:2:1\ncommit x t.0\nreserve x f:2:0\n\
        commit x t.1\nreserve x f:2:0\ncommit x t.2\nput t.0 1 t.1\nsetnum t.2 1 9\ntransform z\ntransadd z t.1 t.2\ncollect\n\
        transadd z t.1 t.2\ntransapply z\nget t.3 t.0 1\nnum t.3 1\nsame t.1 t.2\ntransapply z\ncollect\nlive\n",
        printed: b"ok\nok\nok\nok\nok\nok\nok\nok\nok\nok\nok\nok\nok\nok\nrefused 22\nok\nok\nyes\nok\n9\nyes\nrefused 1\nok\n2 4\n",
    },
    // Nothing is replaced while a word of an area lies in an old object.
    CollectedCase {
        script: b"arena 8 8\ntable t 4\narea a 1\npool p ams front\nap x p exact\nreserve x f:2:1\ncommit x t.0\nreserve x f:2:0\n\
        commit x t.1\nreserve x f:2:0\ncommit x t.2\nput t.0 1 t.1\ncollect\ntransform z\ntransadd z t.1 t.2\npin a.0 t.1\n\
        transapply z\nsame t.1 t.2\npoke a.0 0\ntransapply z\nsame t.1 t.2\n",
        printed: b"ok\nok\nok\nok\nok\nok\nok\nok\nok\nok\nok\nok\nok\nok\nok\nok\nno\nno\nnumber\nyes\nyes\n",
    },
    // Each reference is replaced once, though the new object of one pair is the old one of another, and keeps its tag.
    CollectedCase {
        script: b"arena 8 8\ntable t 5\npool p amc front\nap x p exact\nreserve x f:2:0\ninit x 1 1\ncommit x t.0\nreserve x f:2:0\n\
        init x 1 2\ncommit x t.1\nreserve x f:2:0\ninit x 1 3\ncommit x t.2\nreserve x f:3:2\ninit x 1 t.0\ninit x 2 t.1\n\
        commit x t.3\nsettag t.3 1 5\npark\ntransform z\ntransadd z t.0 t.1\ntransadd z t.1 t.2\ntransapply z\nnum t.0 1\n\
        num t.1 1\nnum t.2 1\nget t.4 t.3 1\nnum t.4 1\ntag t.3 1\nget t.4 t.3 2\nnum t.4 1\ncollect\nlive\n",
        printed: b"ok\nok\nok\nok\nok\nok\nok\nok\nok\nok\nok\nok\nok\nok\nok\nok\nok\nok\nok\nok\nok\nok\nyes\n2\n3\n3\nok\n2\n5\nok\n3\n\
        ok\n3 7\n",
    },
    // A weak reference is replaced too, and the objects may be of other pools and of other sizes.
    CollectedCase {
        script: b"arena 8 8\ntable t 4\npool w awl front\npool l lo leaf\nap y w weak\nap x l exact\nreserve x l:2\ncommit x t.0\n\
        reserve x l:3\ncommit x t.1\nreserve y f:3:1\ninit y 1 t.0\ninit y 2 7\ncommit y t.2\npark\ntransform z\n\
        transadd z t.0 t.1\ntransapply z\nget t.3 t.2 1\nhead t.3\nclear t.0\nclear t.1\nclear t.3\ncollect\nget t.3 t.2 1\n\
        null t.3\nnum t.2 2\nlive\n",
        printed: b"ok\nok\nok\nok\nok\nok\nok\nok\nok\nok\nok\nok\nok\nok\nok\nok\nok\nyes\nok\nl:3\nok\nok\nok\nok\nok\nyes\n7\n1 3\n",
    },
    // A reservation that a flip ended doesn't count.
    CollectedCase {
        script: b"arena 8 8\ntable t 2\npool p amc front\nap x p exact\nreserve x f:2:0\ncommit x t.0\nreserve x f:3:0\ncommit x t.1\n\
        reserve x f:2:0\ncollect\ntransform z\ntransadd z t.0 t.1\ntransapply z\nhead t.0\ncommit x t.1\nhead t.1\n",
        printed: b"ok\nok\nok\nok\nok\nok\nok\nok\nok\nok\nok\nok\nyes\nf:3:0\nflipped\nf:3:0\n",
    },
];

/// What a transform loses.
const LOST: [CollectedCase; 2] = [
    // Each call that may have objects move takes its pairs, so the same old object can be added again. A `park` leaves them.
    CollectedCase {
        script: b"arena 8 8\ntable t 2\npool p ams front\nap x p exact\nreserve x f:2:0\ncommit x t.0\nreserve x f:2:0\ncommit x t.1\n\
        transform z\npark\ntransadd z t.0 t.1\npark\ntransadd z t.0 t.1\nclamp\npark\ntransadd z t.0 t.1\nrelease\npark\n\
        transadd z t.0 t.1\ncollect\ntransadd z t.0 t.1\nstart\npark\ntransadd z t.0 t.1\ncollect\ntransapply z\nsame t.0 t.1\n",
        printed: b"ok\nok\nok\nok\nok\nok\nok\nok\nok\nok\nok\nok\nrefused 21\nok\nok\nok\nok\nok\nok\nok\nok\nok\nok\nok\nok\nyes\nno\n",
    },
    // A transform that is dropped goes with its pairs, and its name is free.
    CollectedCase {
        script: b"arena 8 8\ntable t 2\npool p ams front\nap x p exact\nreserve x f:2:0\ncommit x t.0\nreserve x f:2:0\ncommit x t.1\n\
        transform z\npark\ntransadd z t.0 t.1\ntransdrop z\ntransdrop z\ntransapply z\ntransform z\ntransadd z t.0 t.1\n\
        transdrop z\ntable z 1\nsame t.0 t.1\n",
        printed: b"ok\nok\nok\nok\nok\nok\nok\nok\nok\nok\nok\nok\nrefused 1\nrefused 1\nok\nok\nok\nok\nno\n",
    },
];

/// What is refused, and in which order.
const REFUSED: [CollectedCase; 3] = [
    // A taken name; no transform, no slots, null slots, an arena that isn't parked, an old object twice.
    CollectedCase {
        script: b"arena 8 8\ntable t 2\npool p ams front\nap x p exact\ntransform t\ntransform z\ntransform z\ntable z 1\n\
        transadd t u.0 u.0\ntransadd z u.0 t.2\ntransadd z t.2 u.0\ntransadd z t.0 u.0\ntransadd z t.0 t.2\ntransadd z t.0 t.1\n\
        reserve x f:2:0\ncommit x t.0\ntransadd z t.0 t.1\ntransadd z t.1 t.0\nreserve x f:2:0\ncommit x t.1\n\
        transadd z t.0 t.1\npark\ntransadd z t.0 t.1\ntransadd z t.0 t.0\n",
        printed: b"ok\nok\nok\nok\nrefused 2\nok\nrefused 2\nrefused 2\nrefused 1\nrefused 1\nrefused 3\nrefused 1\nrefused 3\n\
        refused 4\nok\nok\nrefused 4\nrefused 4\nok\nok\nrefused 22\nok\nok\nrefused 21\n",
    },
    // The order of what a `transapply` refuses.
    CollectedCase {
        script: b"arena 8 8\ntable t 2\npool p ams front\nap x p exact\ntransform z\nreserve x f:2:0\ntransapply t\ntransapply z\n\
        park\ntransapply t\ntransapply z\ncommit x t.0\ntransapply z\n",
        printed: b"ok\nok\nok\nok\nok\nok\nrefused 1\nrefused 22\nok\nrefused 1\nrefused 8\nok\nyes\n",
    },
    // There are sixteen transforms. One that is dropped or applied makes room.
    CollectedCase {
        script: b"arena 8 8\ntransform z0\ntransform z1\ntransform z2\ntransform z3\ntransform z4\ntransform z5\ntransform z6\n\
        transform z7\ntransform z8\ntransform z9\ntransform z10\ntransform z11\ntransform z12\ntransform z13\ntransform z14\n\
        transform z15\ntransform z16\ntransform z15\ntransdrop z3\ntransform z16\ntransform z17\npark\ntransapply z5\n\
        transform z17\n",
        printed: b"ok\nok\nok\nok\nok\nok\nok\nok\nok\nok\nok\nok\nok\nok\nok\nok\nok\nrefused 16 16\nrefused 2\nok\nok\nrefused 16 16\n\
        ok\nyes\nok\n",
    },
];

#[test]
fn references_are_replaced(rt: HostRuntime) -> Result<(), Fail> {
    check_all(&rt, rt.alloc(), &REPLACED)
}

#[test]
fn pairs_are_lost(rt: HostRuntime) -> Result<(), Fail> {
    check_all(&rt, rt.alloc(), &LOST)
}

#[test]
fn calls_on_transforms_are_refused(rt: HostRuntime) -> Result<(), Fail> {
    check_all(&rt, rt.alloc(), &REFUSED)
}
