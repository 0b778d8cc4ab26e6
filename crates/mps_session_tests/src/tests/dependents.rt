// Dependents: scripts on standard input and their answers.
use super::collected::{CollectedCase, check_all};
use std::test::Fail;

/// Weak tables of keys, with values in their dependents.
const PAIRED: [CollectedCase; 8] = [
    // The value goes in the collection in which its key does, and the other pair stays.
    CollectedCase {
        script: b"arena 8 8\ntable t 6\npool l lo leaf\npool w awl front\nap x l exact\nap k w weak\nap v w exact\nreserve x l:2\n\
        commit x t.0\nreserve x l:2\ncommit x t.1\nreserve k f:3:2\ninit k 1 t.0\ninit k 2 t.1\ncommit k t.2\nreserve x l:2\n\
        commit x t.3\nreserve x l:2\ncommit x t.4\nreserve v f:3:2\ninit v 1 t.3\ninit v 2 t.4\ncommit v t.5\ndepend t.2 t.5\n\
        clear t.3\nclear t.4\nclear t.0\ncollect\nlive\nget t.3 t.2 1\nnull t.3\nget t.3 t.5 1\nnull t.3\nget t.3 t.5 2\nnull t.3\n",
        printed: b"ok\nok\nok\nok\nok\nok\nok\nok\nok\nok\nok\nok\nok\nok\nok\nok\nok\nok\nok\nok\nok\nok\nok\nok\nok\nok\nok\nok\n\
        5 12\nok\nyes\nok\nyes\nok\nno\n",
    },
    // So it is between the units of a collection.
    CollectedCase {
        script: b"arena 8 8\ntable t 6\npool l lo leaf\npool w awl front\nap x l exact\nap k w weak\nap v w exact\nreserve x l:2\n\
        commit x t.0\nreserve x l:2\ncommit x t.1\nreserve k f:3:2\ninit k 1 t.0\ninit k 2 t.1\ncommit k t.2\nreserve x l:2\n\
        commit x t.3\nreserve x l:2\ncommit x t.4\nreserve v f:3:2\ninit v 1 t.3\ninit v 2 t.4\ncommit v t.5\ndepend t.2 t.5\n\
        clear t.3\nclear t.4\nclear t.0\nstart\nstep 1\nget t.3 t.5 1\nnull t.3\nclear t.3\nstep 100\nlive\nget t.3 t.5 1\nnull t.3\n",
        printed: b"ok\nok\nok\nok\nok\nok\nok\nok\nok\nok\nok\nok\nok\nok\nok\nok\nok\nok\nok\nok\nok\nok\nok\nok\nok\nok\nok\nok\n\
        more\nok\nno\nok\nidle\n5 12\nok\nyes\n",
    },
    // A key that is read before weak references are cleared stays, and so does its value.
    CollectedCase {
        script: b"arena 8 8\ntable t 6\npool l lo leaf\npool w awl front\nap x l exact\nap k w weak\nap v w exact\nreserve x l:2\n\
        commit x t.0\nreserve x l:2\ncommit x t.1\nreserve k f:3:2\ninit k 1 t.0\ninit k 2 t.1\ncommit k t.2\nreserve x l:2\n\
        commit x t.3\nreserve x l:2\ncommit x t.4\nreserve v f:3:2\ninit v 1 t.3\ninit v 2 t.4\ncommit v t.5\ndepend t.2 t.5\n\
        clear t.3\nclear t.4\nclear t.0\nstart\nstep 2\nget t.3 t.2 1\nnull t.3\nget t.3 t.5 1\nnull t.3\npark\nlive\n",
        printed: b"ok\nok\nok\nok\nok\nok\nok\nok\nok\nok\nok\nok\nok\nok\nok\nok\nok\nok\nok\nok\nok\nok\nok\nok\nok\nok\nok\nok\n\
        more\nok\nno\nok\nno\nok\n6 14\n",
    },
    // A cell of the dependent that is a number stays.
    CollectedCase {
        script: b"arena 8 8\ntable t 6\npool l lo leaf\npool w awl front\nap x l exact\nap k w weak\nap v w exact\nreserve x l:2\n\
        commit x t.0\nreserve x l:2\ncommit x t.1\nreserve k f:3:2\ninit k 1 t.0\ninit k 2 t.1\ncommit k t.2\nreserve x l:2\n\
        commit x t.3\nreserve v f:3:1\ninit v 1 t.3\ninit v 2 9\ncommit v t.5\ndepend t.2 t.5\nclear t.1\ncollect\nnum t.5 2\n\
        get t.4 t.5 1\nsame t.3 t.4\n",
        printed: b"ok\nok\nok\nok\nok\nok\nok\nok\nok\nok\nok\nok\nok\nok\nok\nok\nok\nok\nok\nok\nok\nok\nok\nok\n9\nok\nyes\n",
    },
    // Two holders share a dependent. A holder's later dependent takes the place of the earlier one, whose cell stays.
    CollectedCase {
        script: b"arena 8 8\ntable t 6\npool l lo leaf\npool w awl front\nap x l exact\nap k w weak\nap v w exact\nreserve x l:2\n\
        commit x t.0\nreserve k f:2:1\ninit k 1 t.0\ncommit k t.1\nreserve k f:2:1\ninit k 1 t.0\ncommit k t.2\nreserve v f:2:1\n\
        init v 1 t.1\ncommit v t.3\nreserve v f:2:1\ninit v 1 t.1\ncommit v t.4\ndepend t.1 t.3\ndepend t.2 t.3\ndepend t.1 t.4\n\
        clear t.0\ncollect\nget t.0 t.3 1\nnull t.0\nget t.0 t.4 1\nnull t.0\nundepend t.1\nundepend t.2\nundepend t.2\n",
        printed: b"ok\nok\nok\nok\nok\nok\nok\nok\nok\nok\nok\nok\nok\nok\nok\nok\nok\nok\nok\nok\nok\nok\nok\nok\nok\nok\nok\nyes\nok\n\
        yes\nok\nok\nrefused 20\n",
    },
    // A pair keeps no dependent alive, and ends with it.
    CollectedCase {
        script: b"arena 8 8\ntable t 6\npool l lo leaf\npool w awl front\nap x l exact\nap k w weak\nap v w exact\nreserve x l:2\n\
        commit x t.0\nreserve x l:2\ncommit x t.1\nreserve k f:3:2\ninit k 1 t.0\ninit k 2 t.1\ncommit k t.2\nreserve x l:2\n\
        commit x t.3\nreserve x l:2\ncommit x t.4\nreserve v f:3:2\ninit v 1 t.3\ninit v 2 t.4\ncommit v t.5\ndepend t.2 t.5\n\
        clear t.5\ncollect\nundepend t.2\nclear t.0\ncollect\nlive\n",
        printed: b"ok\nok\nok\nok\nok\nok\nok\nok\nok\nok\nok\nok\nok\nok\nok\nok\nok\nok\nok\nok\nok\nok\nok\nok\nok\nok\nrefused 20\n\
        ok\nok\n4 9\n",
    },
    // What is refused, and in which order.
    CollectedCase {
        script: b"arena 8 8\ntable t 6\npool l lo leaf\npool w awl front\nap x l exact\nap k w weak\nap v w exact\nreserve x l:2\n\
        commit x t.0\nreserve x l:2\ncommit x t.1\nreserve k f:3:2\ninit k 1 t.0\ninit k 2 t.1\ncommit k t.2\nreserve x l:2\n\
        commit x t.3\nreserve x l:2\ncommit x t.4\nreserve v f:3:2\ninit v 1 t.3\ninit v 2 t.4\ncommit v t.5\nundepend t.2\n\
        depend t.5 t.2\ndepend t.2 t.2\ndepend t.2 t.0\ndepend t.0 t.5\ndepend t.6 t.5\ndepend t.2 t.6\ndepend u.0 t.6\nclear t.0\n\
        depend t.0 t.6\ndepend t.0 t.5\ndepend t.2 t.0\nundepend t.0\nundepend t.6\nundepend u.0\n",
        printed: b"ok\nok\nok\nok\nok\nok\nok\nok\nok\nok\nok\nok\nok\nok\nok\nok\nok\nok\nok\nok\nok\nok\nok\nrefused 20\nrefused 13\n\
        refused 13\nrefused 13\nrefused 13\nrefused 3\nrefused 3\nrefused 1\nok\nrefused 3\nrefused 4\nrefused 4\nrefused 4\nrefused 3\n\
        refused 1\n",
    },
    // The tag of a reference that becomes null stays.
    CollectedCase {
        script: b"arena 8 8\ntable t 6\npool l lo leaf\npool w awl front\nap x l exact\nap k w weak\nap v w exact\nreserve x l:2\n\
        commit x t.0\nreserve x l:2\ncommit x t.1\nreserve k f:3:2\ninit k 1 t.0\ninit k 2 t.1\ncommit k t.2\nreserve x l:2\n\
        commit x t.3\nreserve x l:2\ncommit x t.4\nreserve v f:3:2\ninit v 1 t.3\ninit v 2 t.4\ncommit v t.5\nsettag t.5 1 5\n\
        depend t.2 t.5\nclear t.3\nclear t.0\ncollect\ntag t.5 1\nget t.3 t.5 1\nnull t.3\n",
        printed: b"ok\nok\nok\nok\nok\nok\nok\nok\nok\nok\nok\nok\nok\nok\nok\nok\nok\nok\nok\nok\nok\nok\nok\nok\nok\nok\nok\nok\n5\n\
        ok\nyes\n",
    },
];

#[test]
fn values_go_with_their_keys(rt: HostRuntime) -> Result<(), Fail> {
    check_all(&rt, rt.alloc(), &PAIRED)
}
