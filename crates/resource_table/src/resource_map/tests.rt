// The life of three resources, each call once.
ghost use Rattle.std.specs.Prelude.{◌≡◌, ◌≤◌, true, IsSome};
ghost use Rattle.std.specs.FinMap.{get};

use super::{ResourceTable, place_of};
use bitmap_kind::{Bitmap, Config, Rule, Transform};
use cache_key::{EngineKey, KeyOf, Text};
use engine_resource::Resource;
use faults::NoMemory;
use std::alloc::Global;
use std::test::Fail;

fn resource(alloc: Global, number: u64, width: u32) -> Result<Resource, NoMemory>
    requires { (1 ≤ width) × (width ≤ 16384) }
{
    let key = EngineKey {
        url: Text::new(alloc, b"red")?,
        sig: Text::new(alloc, b"1")?,
        width,
        height: 1,
        transform: Transform::Nothing,
        config: Config::Alpha8,
        rule: Rule::AtLeast,
    };
    Ok(Resource::new(
        Bitmap::make(alloc, number, width, 1, Config::Alpha8)?,
        key,
        true,
    ))
}

// Whether a number has a resource.
fn has(table: &ResourceTable, number: u64) -> bool
    ensures { result ≡ true → IsSome (get table.now.resources number) }
{
    place_of(&table.entries, number) < table.entries.len()
}

// Adds a resource where there is room and its number has none yet.
fn added(table: &mut ResourceTable, resource: Resource) -> bool {
    let place = place_of(&table.entries, resource.number());
    if table.entries.len() >= table.room || place < table.entries.len() {
        return false;
    }
    table.add(resource);
    true
}

// The width of the bitmap, and of the key, of a number's resource.
fn widths(table: &ResourceTable, number: u64) -> Option<(u32, u32)> {
    if !has(table, number) {
        return None;
    }
    Some((table.get(number).bitmap().width(), table.key(number).width))
}

fn removed(table: &mut ResourceTable, number: u64) -> Option<u64> {
    if !has(table, number) {
        return None;
    }
    Some(table.remove(number).number())
}

#[test]
fn keeps_resources_by_number(rt: HostRuntime) -> Result<(), Fail> {
    let alloc = rt.alloc();
    let mut table = ResourceTable::new(alloc, 2)?;
    assert_eq!(rt; widths(&table, 7), None);
    assert!(rt; added(&mut table, resource(alloc, 7, 3)?));
    assert!(rt; !added(&mut table, resource(alloc, 7, 5)?));
    assert!(rt; added(&mut table, resource(alloc, 4, 5)?));
    assert!(rt; !added(&mut table, resource(alloc, 9, 6)?));
    assert_eq!(rt; table.len(), 2);
    assert_eq!(rt; widths(&table, 4), Some((5, 5)));
    assert_eq!(rt; widths(&table, 7), Some((3, 3)));
    assert_eq!(rt; removed(&mut table, 7), Some(7));
    assert_eq!(rt; removed(&mut table, 7), None);
    assert!(rt; added(&mut table, resource(alloc, 9, 6)?));
    assert_eq!(rt; widths(&table, 9), Some((6, 6)));
    assert_eq!(rt; removed(&mut table, 4), Some(4));
    assert_eq!(rt; removed(&mut table, 9), Some(9));
    assert_eq!(rt; table.len(), 0);
    Ok(())
}
