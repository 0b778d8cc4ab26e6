// Each limit: the last thing that may be made, the next one, which is refused, and what a dropped one gives back.
use super::{Case, Loop, check_all};
use std::test::Fail;

/// After so many things the next one is refused, and is made once one was dropped.
const LIMITS: [Case; 9] = [
    Case {
        name: "256 tables",
        first: b"arena 8 8\n",
        first_answers: b"ok\n",
        loops: &[Loop {
            before: b"table t",
            is_numbered: true,
            after: b" 1\n",
            answers: b"ok\n",
            times: 256,
        }],
        last: b"table u 1\narea u 1\nblocks u 1\ndroproot t7\ntable t7 1\narea u 1\n",
        last_answers: b"refused 16 256\nrefused 16 256\nrefused 16 256\nok\nok\nrefused 16 256\n",
    },
    Case {
        name: "256 roots of all kinds",
        first: b"arena 8 8\n",
        first_answers: b"ok\n",
        loops: &[
            Loop {
                before: b"table t",
                is_numbered: true,
                after: b" 1\n",
                answers: b"ok\n",
                times: 100,
            },
            Loop {
                before: b"area a",
                is_numbered: true,
                after: b" 1\n",
                answers: b"ok\n",
                times: 100,
            },
            Loop {
                before: b"blocks b",
                is_numbered: true,
                after: b" 1\n",
                answers: b"ok\n",
                times: 56,
            },
        ],
        last: b"blocks c 1\narea c 1\ntable c 1\ndroproot a7\nblocks c 1\ntable d 1\n",
        last_answers: b"refused 16 256\nrefused 16 256\nrefused 16 256\nok\nok\nrefused 16 256\n",
    },
    Case {
        name: "64 pools of all kinds",
        first: b"arena 8 8\nchain c 1\n",
        first_answers: b"ok\nok\n",
        loops: &[
            Loop {
                before: b"pool p",
                is_numbered: true,
                after: b" amc front\n",
                answers: b"ok\n",
                times: 62,
            },
            Loop {
                before: b"pool m",
                is_numbered: true,
                after: b" mfs 4\n",
                answers: b"ok\n",
                times: 2,
            },
        ],
        last: b"pool q amc front\npool q amc front c\npool q mfs 4\npool q mvff\n",
        last_answers: b"refused 16 64\nrefused 16 64\nrefused 16 64\nrefused 16 64\n",
    },
    Case {
        name: "256 points",
        first: b"arena 8 8\npool p amc front\n",
        first_answers: b"ok\nok\n",
        loops: &[Loop {
            before: b"ap x",
            is_numbered: true,
            after: b" p exact\n",
            answers: b"ok\n",
            times: 256,
        }],
        last: b"ap y p exact\ndropap x9\nap y p exact\nap z p exact\n",
        last_answers: b"refused 16 256\nok\nok\nrefused 16 256\n",
    },
    Case {
        name: "16 chains",
        first: b"arena 8 8\n",
        first_answers: b"ok\n",
        loops: &[Loop {
            before: b"chain c",
            is_numbered: true,
            after: b" 1 2\n",
            answers: b"ok\n",
            times: 16,
        }],
        last: b"chain d 1 2\n",
        last_answers: b"refused 16 16\n",
    },
    Case {
        name: "256 dependencies",
        first: b"arena 8 8\n",
        first_answers: b"ok\n",
        loops: &[Loop {
            before: b"ld d",
            is_numbered: true,
            after: b"\n",
            answers: b"ok\n",
            times: 256,
        }],
        last: b"ld e\n",
        last_answers: b"refused 16 256\n",
    },
    Case {
        name: "65,536 registrations and messages",
        first: b"arena 8 8\ntable t 2\npool p amc front\nap x p exact\nreserve x f:2:0\ncommit x t.0\n",
        first_answers: b"ok\nok\nok\nok\nok\nok\n",
        loops: &[Loop {
            before: b"finalize t.0",
            is_numbered: false,
            after: b"\n",
            answers: b"ok\n",
            times: 65_536,
        }],
        last: b"finalize t.0\ndefinalize t.0\nfinalize t.0\nfinalize t.0\nclear t.0\ncollect\nmessage t.0\nfinalize t.0\n\
        finalize t.0\n",
        last_answers: b"refused 16 65536\nok\nok\nrefused 16 65536\nok\nok\nok\nok\nrefused 16 65536\n",
    },
    Case {
        name: "65,536 slots, words and places",
        first: b"arena 8 8\ntable a 65535\n",
        first_answers: b"ok\nok\n",
        loops: &[],
        last: b"table b 2\ntable b 1\ntable c 1\narea c 1\nblocks c 1\ndroproot b\nblocks c 1\narea d 1\ndroproot a\n\
        area a 65535\ntable d 1\n",
        last_answers: b"refused 16 65536\nok\nrefused 16 65536\nrefused 16 65536\nrefused 16 65536\nok\nok\nrefused 16 65536\nok\n\
        ok\nrefused 16 65536\n",
    },
    Case {
        name: "4,096 pairs of transforms",
        first: b"arena 32 32\ntable t 4097\npool p ams front\nap x p exact\ntransform y\ntransform z\npark\n",
        first_answers: b"ok\nok\nok\nok\nok\nok\nok\n",
        loops: &[
            Loop {
                before: b"reserve x f:2:0\ncommit x t.",
                is_numbered: true,
                after: b"\n",
                answers: b"ok\nok\n",
                times: 4097,
            },
            Loop {
                before: b"transadd y t.",
                is_numbered: true,
                after: b" t.4096\n",
                answers: b"ok\n",
                times: 4096,
            },
        ],
        last: b"transadd y t.4096 t.0\ntransadd z t.0 t.1\ntransadd y t.0 t.1\ntransapply y\nsame t.0 t.4095\ntransadd z t.0 t.1\n",
        last_answers: b"refused 16 4096\nrefused 16 4096\nrefused 21\nyes\nyes\nok\n",
    },
];

#[test]
fn each_limit_is_at_its_number(rt: HostRuntime) -> Result<(), Fail> {
    check_all(&rt, rt.alloc(), &LIMITS)
}
