// Each call once.
use crate::{AreaKey, Keys, PointKey, TableKey, are_same};
use mps_base::Name;
use std::alloc::AllocError;

// The name that has one letter.
fn named(letter: u8) -> Name {
    let mut bytes = [0; 16];
    bytes[0] = letter;
    Name { bytes }
}

#[test]
fn a_key_is_good_until_it_is_taken_back(rt: HostRuntime) -> Result<(), AllocError> {
    let mut keys = Keys::new(rt.alloc())?;
    let name = named(97);
    assert!(rt; keys.give_table(3, name) == Some(0));
    assert!(rt; keys.give_table(3, name) == Some(0));
    assert!(rt; keys.give_table(3, named(98)) == None);
    let key = TableKey { place: 3, count: 0 };
    assert!(rt; keys.table_name(key) == Some(name));
    keys.drop_table(3, named(98));
    assert!(rt; keys.table_name(key) == Some(name));
    keys.drop_table(3, name);
    assert!(rt; keys.table_name(key) == None);
    assert!(rt; keys.give_table(3, name) == Some(1));
    assert!(rt; keys.table_name(key) == None);
    Ok(())
}

#[test]
fn places_of_areas_and_points_have_keys(rt: HostRuntime) -> Result<(), AllocError> {
    let mut keys = Keys::new(rt.alloc())?;
    assert!(rt; keys.give_area(0, named(97)) == Some(0));
    let area = AreaKey { place: 0, count: 0 };
    assert!(rt; keys.area_name(area) == Some(named(97)));
    assert!(rt; keys.give_point(255, named(98)) == Some(0));
    assert!(rt; keys.give_point(256, named(99)) == None);
    let point = PointKey {
        place: 255,
        count: 0,
    };
    assert!(rt; keys.point_name(point) == Some(named(98)));
    keys.drop_point(255, named(98));
    keys.drop_area(0, named(97));
    assert!(rt; keys.area_name(area) == None);
    assert!(rt; keys.point_name(point) == None);
    Ok(())
}

#[test]
fn names_are_compared_by_all_bytes(rt: HostRuntime) -> Result<(), AllocError> {
    let mut other = [0; 16];
    assert!(rt; are_same(&[0; 16], &other));
    other[15] = 1;
    assert!(rt; !are_same(&[0; 16], &other));
    Ok(())
}
