// Each call once, and 2,000 random steps compared with plain lists.
use crate::{Roots, Stored};
use std::alloc::AllocError;

#[test]
fn keys_are_given_out_again(rt: HostRuntime) -> Result<(), AllocError> {
    let mut roots = Roots::new(rt.alloc());
    let first = roots.table(2)?;
    roots.set_slot(first, 1, 8);
    assert_eq!(rt; roots.slot(first, 1), 8);
    roots.drop_table(first);
    assert!(rt; roots.slots(first).is_none());
    let again = roots.table(3)?;
    assert_eq!(rt; first, again);
    assert!(rt; roots.order() == [again].as_slice());
    let area = roots.area(1)?;
    let held = Stored {
        word: 8,
        holds: true,
    };
    roots.set_word(area, 0, held);
    assert!(rt; roots.word(area, 0) == held);
    roots.drop_area(area);
    assert!(rt; roots.words(area).is_none());
    let number = roots.blocks(1)?;
    assert_eq!(rt; roots.block_tables(), 1);
    roots.set_place(number, 0, 8);
    assert_eq!(rt; roots.place(number, 0), 8);
    assert_eq!(rt; roots.places(number).len(), 1);
    Ok(())
}

// A table as it is to be, and its key.
#[derive(Drop)]
struct Table {
    key: usize,
    slots: Vec<u64>,
}

// Makes a table, drops one or writes a slot, of the tables and of the list of them.
fn step(
    rt: &HostRuntime,
    roots: &mut Roots,
    tables: &mut Vec<Table>,
    choice: u64,
    number: u64,
) -> Result<(), AllocError> {
    let position = (number % 8) as usize;
    if position >= tables.len() {
        let n = 1 + (number % 4) as u32;
        let key = roots.table(n)?;
        let slots = vec![in rt.alloc(); 0u64; n as usize]?;
        tables.push(Table { key, slots })?;
        return Ok(());
    }
    let key = tables[position].key;
    let Some(slots) = roots.slots(key) else {
        return Ok(());
    };
    if choice == 0 {
        roots.drop_table(key);
        let _ = tables.remove(position);
        return Ok(());
    }
    let index = (choice % 4) as usize;
    if index < slots.len() && index < tables[position].slots.len() {
        roots.set_slot(key, index, number);
        let table = &mut tables[position];
        table.slots[index] = number;
    }
    Ok(())
}

// Whether the order and each table are those of the list.
fn agree(roots: &Roots, tables: &[Table]) -> bool {
    if roots.order().len() != tables.len() {
        return false;
    }
    for (table, key) in tables.iter().zip(roots.order()) {
        if table.key != *key || roots.slots(*key) != Some(table.slots.as_slice()) {
            return false;
        }
    }
    true
}

#[test]
fn stays_beside_plain_lists(rt: HostRuntime) -> Result<(), AllocError> {
    let mut roots = Roots::new(rt.alloc());
    let mut tables = Vec::new(rt.alloc());
    let mut seed = 1u64;
    for _ in 0..2_000 {
        seed = seed
            .wrapping_mul(6364136223846793005)
            .wrapping_add(1442695040888963407);
        step(&rt, &mut roots, &mut tables, (seed >> 33) % 8, seed >> 40)?;
        assert!(rt; agree(&roots, &tables));
    }
    Ok(())
}
