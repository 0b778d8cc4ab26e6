// Generated scripts over a desk in memory, and line by line.
use crate::{GenLines, generate};
use mps_desk::MemDesk;
use std::test::Fail;

const OF_NO_STEPS: &[u8] =
    b"arena 1024 1024\nchain c 4 8\npool p amc front c\ntable t 16\nap x p exact\n\
    collect\nlive\ncommitted\n";

const OF_SIX_STEPS: &[u8] =
    b"arena 1024 1024\nchain c 4 8\npool p amc front c\ntable t 16\nap x p exact\n\
    put t.6 2 t.9\n\
    reserve x f:8:3\ninit x 4 1\ninit x 1 t.10\ncommit x t.6\n\
    reserve x f:8:3\ninit x 4 2\ninit x 1 t.6\ncommit x t.10\n\
    reserve x f:8:3\ninit x 4 3\ninit x 1 t.11\ncommit x t.10\n\
    reserve x f:8:3\ninit x 4 4\ninit x 1 t.0\ncommit x t.12\n\
    step 7\n\
    collect\nlive\ncommitted\n";

#[test]
fn printed_whole(rt: HostRuntime) -> Result<(), Fail> {
    for (count, script) in [(0u64, OF_NO_STEPS), (6, OF_SIX_STEPS)] {
        let mut desk = MemDesk::new(rt.alloc());
        assert_eq!(rt; generate(rt.alloc(), 1, count, &mut desk), 0);
        assert_eq!(rt; desk.printed(), script);
    }
    Ok(())
}

#[test]
fn line_by_line(rt: HostRuntime) -> Result<(), Fail> {
    let mut lines = GenLines::new(1, 6);
    let mut line = [0u8; 64];
    let mut rest = OF_SIX_STEPS;
    for _ in 0..100 {
        let Some(length) = lines.next_line(&mut line) else {
            break;
        };
        let length = length as usize;
        assert!(rt; line.get(..length) == rest.get(..length));
        rest = rest.get(length..).unwrap_or(b"");
    }
    assert!(rt; rest.is_empty());
    Ok(())
}
