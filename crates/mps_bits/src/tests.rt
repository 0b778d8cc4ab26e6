// Each call once, and the searches at the edges of a word.
use crate::Bits;
use std::alloc::AllocError;

/// The highest set bit at or below an index, None if the table has no such index.
fn previous(bits: &Bits, at: usize) -> Option<usize> {
    if at < bits.len() {
        bits.previous_set(at)
    } else {
        None
    }
}

/// The lowest run of clear bits in a range, None if the table has no such range.
fn run(bits: &Bits, from: usize, to: usize, count: usize) -> Option<usize> {
    if count > 0 && to <= bits.len() {
        bits.lowest_clear_run(from, to, count)
    } else {
        None
    }
}

#[test]
fn searches_at_the_edges_of_a_word(rt: HostRuntime) -> Result<(), AllocError> {
    let mut bits = Bits::new(rt.alloc(), 200)?;
    assert_eq!(rt; bits.len(), 200);
    assert!(rt; bits.next_set(0).is_none());
    assert!(rt; bits.previous_set(199).is_none());
    bits.set(63);
    bits.set_range(128, 192);
    for (from, want) in [
        (0, Some(63)),
        (63, Some(63)),
        (64, Some(128)),
        (191, Some(191)),
        (192, None),
    ] {
        assert_eq!(rt; bits.next_set(from), want, "next at {from}");
    }
    for (at, want) in [
        (62, None),
        (63, Some(63)),
        (127, Some(63)),
        (128, Some(128)),
        (199, Some(191)),
    ] {
        assert_eq!(rt; previous(&bits, at), want, "previous at {at}");
    }
    assert!(rt; bits.next_set_below(64, 128).is_none());
    assert_eq!(rt; bits.count_set(0, 200), 65);
    assert_eq!(rt; bits.count_set(63, 130), 3);
    bits.clear(63);
    bits.clear_range(129, 192);
    assert!(rt; !bits.test(63));
    assert!(rt; bits.test(128));
    assert_eq!(rt; bits.count_set(0, 200), 1);
    Ok(())
}

#[test]
fn runs_at_the_edges_of_a_word(rt: HostRuntime) -> Result<(), AllocError> {
    let mut bits = Bits::new(rt.alloc(), 200)?;
    assert_eq!(rt; bits.lowest_clear_run(0, 200, 200), Some(0));
    bits.set(63);
    bits.set_range(128, 192);
    for (from, to, count, want) in [
        (0, 200, 64, Some(64)),
        (0, 200, 65, None),
        (0, 200, 63, Some(0)),
        (1, 200, 63, Some(64)),
        (65, 200, 63, Some(65)),
        (192, 200, 8, Some(192)),
        (192, 199, 8, None),
    ] {
        let found = run(&bits, from, to, count);
        assert_eq!(rt; found, want, "{count} from {from} to {to}");
    }
    Ok(())
}
