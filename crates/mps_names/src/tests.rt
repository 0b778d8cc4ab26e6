// Each call once.
use crate::{Names, Thing};
use mps_base::{Name, Refusal};
use std::alloc::AllocError;

#[test]
fn takes_a_name_once(rt: HostRuntime) -> Result<(), AllocError> {
    let mut bytes = [0; 16];
    bytes[0] = 97;
    let name = Name { bytes };
    let mut names = Names::new(rt.alloc())?;
    assert!(rt; names.refuse_taken(name) == Ok(()));
    names.make_room()?;
    if names.get(name).is_none() {
        names.take(name, Thing::Pool(3));
    }
    assert!(rt; names.get(name) == Some(Thing::Pool(3)));
    assert!(rt; names.refuse_taken(name) == Err(Refusal::NameTaken));
    assert!(rt; names.drop_name(name) == Some(Thing::Pool(3)));
    assert!(rt; names.get(name) == None);
    assert!(rt; names.drop_name(name) == None);
    Ok(())
}

// Whether a label, a cache and a transform have names, in the room of their own.
fn take_three(names: &mut Names) -> bool {
    for number in 0..3u8 {
        let mut bytes = [0; 16];
        bytes[0] = 97 + number;
        let name = Name { bytes };
        let thing = match number {
            0 => Thing::Label(4),
            1 => Thing::Cache(5),
            _ => Thing::Transform(6),
        };
        if names.get(name).is_some() || !names.has_own_room_for(thing) {
            return false;
        }
        names.take(name, thing);
    }
    true
}

#[test]
fn takes_no_memory_for_a_label(rt: HostRuntime) -> Result<(), AllocError> {
    let mut names = Names::new(rt.alloc())?;
    assert!(rt; take_three(&mut names));
    let mut bytes = [0; 16];
    bytes[0] = 99;
    assert!(rt; names.get(Name { bytes }) == Some(Thing::Transform(6)));
    assert!(rt; names.drop_name(Name { bytes }) == Some(Thing::Transform(6)));
    assert!(rt; names.get(Name { bytes }) == None);
    bytes[0] = 97;
    assert!(rt; names.refuse_taken(Name { bytes }) == Err(Refusal::NameTaken));
    Ok(())
}

// The name that has one letter.
fn named(letter: u8) -> Name {
    let mut bytes = [0; 16];
    bytes[0] = letter;
    Name { bytes }
}

// Takes a free name for the table 3.
fn take_table(names: &mut Names, name: Name) -> Result<(), AllocError> {
    names.make_room()?;
    if names.get(name).is_none() {
        names.take(name, Thing::Table(3));
    }
    Ok(())
}

// Takes a free name for the area of a number.
fn take_area(names: &mut Names, name: Name, number: usize) -> Result<(), AllocError> {
    names.make_room()?;
    if names.get(name).is_none() {
        names.take(name, Thing::Area(number));
    }
    Ok(())
}

// Takes a free name for the point of a number.
fn take_point(names: &mut Names, name: Name, number: u32) -> Result<(), AllocError> {
    names.make_room()?;
    if names.get(name).is_none() {
        names.take(name, Thing::Point(number));
    }
    Ok(())
}

#[test]
fn a_key_is_good_until_its_table_is_dropped(rt: HostRuntime) -> Result<(), AllocError> {
    let mut names = Names::new(rt.alloc())?;
    let name = named(97);
    assert!(rt; names.table_key(name) == None);
    take_table(&mut names, name)?;
    assert!(rt; names.area_key(name) == None);
    let Some(key) = names.table_key(name) else {
        assert!(rt; false);
        return Ok(());
    };
    assert!(rt; names.table_key(name) == Some(key));
    assert!(rt; names.table_name(key) == Some(name));
    assert!(rt; names.drop_name(name) == Some(Thing::Table(3)));
    assert!(rt; names.table_name(key) == None);
    take_table(&mut names, name)?;
    assert!(rt; names.table_name(key) == None);
    assert!(rt; names.table_key(name) != Some(key));
    Ok(())
}

#[test]
fn areas_and_points_have_keys(rt: HostRuntime) -> Result<(), AllocError> {
    let mut names = Names::new(rt.alloc())?;
    take_area(&mut names, named(97), 0)?;
    take_point(&mut names, named(98), 255)?;
    take_point(&mut names, named(99), 256)?;
    let area = names.area_key(named(97));
    let point = names.point_key(named(98));
    assert!(rt; names.point_key(named(99)) == None);
    let (Some(area), Some(point)) = (area, point) else {
        assert!(rt; false);
        return Ok(());
    };
    assert!(rt; names.area_name(area) == Some(named(97)));
    assert!(rt; names.point_name(point) == Some(named(98)));
    Ok(())
}
