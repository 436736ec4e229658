//! Values from outside: a map of two segments.

use crate::checks::same;
use load_map::{LoadMap, MapEntry};
use rofixup::{Outside, apply, emit};
use std::alloc::Global;
use std::test::Fail;

fn two_segments(alloc: Global) -> Result<LoadMap, Fail> {
    let entries = [
        MapEntry {
            addr: 0x20000,
            vaddr: 0,
            memsz: 0x400,
        },
        MapEntry {
            addr: 0x30000,
            vaddr: 0x10000,
            memsz: 0x100,
        },
    ];
    Ok(LoadMap::new(alloc, &entries)?)
}

#[test]
fn values_are_replaced(rt: HostRuntime) -> Result<(), Fail> {
    let map = two_segments(rt.alloc())?;
    let mut values = [0x8, 0x10010];
    same(&rt, apply(&map, &mut values), Ok(()));
    same(&rt, values.as_slice(), [0x20008, 0x30010].as_slice());
    Ok(())
}

#[test]
fn all_stay_where_one_has_no_place(rt: HostRuntime) -> Result<(), Fail> {
    let map = two_segments(rt.alloc())?;
    let mut values = [0x8, 0x50000];
    same(&rt, apply(&map, &mut values), Err(Outside(1)));
    same(&rt, values.as_slice(), [0x8, 0x50000].as_slice());
    let mut more = [0x8, 0x50000, 0x10, 0x60000];
    same(&rt, apply(&map, &mut more), Err(Outside(1)));
    let mut none: [u32; 0] = [];
    same(&rt, apply(&map, &mut none), Ok(()));
    Ok(())
}

#[test]
fn the_got_is_last(rt: HostRuntime) -> Result<(), Fail> {
    let entries = emit(rt.alloc(), &[0x10020, 0x10024], 0x10000)?;
    same(
        &rt,
        entries.as_slice(),
        [0x10020, 0x10024, 0x10000].as_slice(),
    );
    let alone = emit(rt.alloc(), &[], 0x10000)?;
    same(&rt, alone.as_slice(), [0x10000].as_slice());
    Ok(())
}
