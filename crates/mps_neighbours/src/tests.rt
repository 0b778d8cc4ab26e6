// Each call once.
use crate::Neighbours;
use mps_base::Addr;
use std::alloc::AllocError;

#[test]
fn each_table_is_reached(rt: HostRuntime) -> Result<(), AllocError> {
    let mut beside = Neighbours::new(rt.alloc())?;
    assert!(rt; beside.dependents.link(Addr(8), Addr(16)) == Ok(()));
    assert!(rt; beside.transforms.has_room());
    assert_eq!(rt; beside.caches.count(), 0);
    let made = beside.frames.new_pool()?;
    beside.frames.add_pool(2, made);
    assert_eq!(rt; beside.frames.frames(2), 0);
    Ok(())
}
