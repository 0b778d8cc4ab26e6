// Each call once, compared with the list of all flips.
use crate::{Epochs, Ld};
use mps_base::{Addr, ZoneSet};

#[test]
fn counts_four_flips_and_then_all(rt: HostRuntime) {
    let mut epochs = Epochs::new();
    epochs.flip(ZoneSet(1 << 1));
    let mut early = Ld::new(&epochs);
    early.add(Addr(0x1000));
    assert!(rt; !early.is_stale(&epochs));
    epochs.flip(ZoneSet(1 << 2));
    epochs.flip(ZoneSet(1 << 3));
    epochs.flip(ZoneSet(1 << 4));
    epochs.flip(ZoneSet(1 << 5));
    assert!(rt; !early.is_stale(&epochs));
    epochs.flip(ZoneSet(0));
    assert!(rt; early.is_stale(&epochs));
    assert_eq!(rt; epochs.count(), 6);
    let mut late = Ld::new(&epochs);
    late.add(Addr(0x40000));
    epochs.flip(ZoneSet(1));
    assert!(rt; late.is_stale(&epochs));
    late.reset(&epochs);
    late.add(Addr(0x3000));
    assert!(rt; !late.is_stale(&epochs));
    late.merge(&early);
    assert!(rt; late.is_stale(&epochs));
}
