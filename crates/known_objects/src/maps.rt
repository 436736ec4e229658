//! Values from outside: a map of two segments, and the edges of the largest.

use crate::checks::{same, same_at};
use fd_base::Seq;
use load_map::{LoadMap, MapEntry, is_placed_at, map_at, placed};
use std::test::Fail;

const LAST: u32 = 0xffff_ffff;

#[test]
fn two_segments(rt: HostRuntime) -> Result<(), Fail> {
    let entries = [
        MapEntry {
            addr: 0x20000,
            vaddr: 0,
            memsz: 0x400,
        },
        MapEntry {
            addr: 0x80000,
            vaddr: 0x10000,
            memsz: 0x100,
        },
    ];
    let map = LoadMap::new(rt.alloc(), &entries)?;
    let rows = [
        (0x3ff, Some(0x203ff)),
        (0x400, Some(0x20400)),
        (0x10000, Some(0x80000)),
        (0x10100, Some(0x80100)),
        (0x500, None),
        (0xffff, None),
        (0x10101, None),
        (LAST, None),
    ];
    for (v, addr) in rows {
        same_at(&rt, v, map.translate(v), addr);
    }
    for (v, addr) in rows {
        same_at(&rt, v, placed(map.as_slice(), v), addr.unwrap_or(0));
    }
    let image = map.image();
    let text = hex::encode(rt.alloc(), image.as_slice())?;
    same(
        &rt,
        text.as_str(),
        "00000200000002000000000000040000000008000000010000010000",
    );
    Ok(())
}

#[test]
fn eight_segments_up_to_the_last_address(rt: HostRuntime) -> Result<(), Fail> {
    let far = MapEntry {
        addr: LAST - 1,
        vaddr: LAST - 2,
        memsz: 1,
    };
    let next = MapEntry {
        addr: 0x1000,
        vaddr: LAST - 1,
        memsz: 1,
    };
    let none = MapEntry {
        addr: 0x2000,
        vaddr: 7,
        memsz: 0,
    };
    let map = LoadMap::new(rt.alloc(), &[none, far, next, none, none, none, none, none])?;
    let rows = [
        (LAST - 2, Some(LAST - 1)),
        (LAST - 1, Some(0x1000)),
        (LAST, Some(0x1001)),
        (7, Some(0x2000)),
        (8, None),
    ];
    for (v, addr) in rows {
        same_at(&rt, v, map.translate(v), addr);
    }
    let image = map.image();
    same(&rt, image.as_slice().len(), 100);
    same(
        &rt,
        &image.as_slice()[..16],
        [0, 0, 8, 0, 0, 0x20, 0, 0, 7, 0, 0, 0, 0, 0, 0, 0].as_slice(),
    );
    let empty = LoadMap::new(rt.alloc(), &[])?;
    same(&rt, empty.translate(0), None);
    same(&rt, empty.image().as_slice(), [0, 0, 0, 0].as_slice());
    Ok(())
}

#[test]
fn places_of_modules(rt: HostRuntime) -> Result<(), Fail> {
    let entry = MapEntry {
        addr: LAST - 4,
        vaddr: 0,
        memsz: 4,
    };
    let rows = [
        (LAST - 5, false),
        (LAST - 4, true),
        (LAST - 1, true),
        (LAST, false),
        (0, false),
    ];
    for (addr, is_placed) in rows {
        same_at(&rt, addr, is_placed_at(&entry, addr), is_placed);
    }
    let maps = [Seq::new(rt.alloc()), Seq::from_slice(rt.alloc(), &[entry])?];
    same(&rt, map_at(&maps, 0), [].as_slice());
    same(&rt, map_at(&maps, 1), [entry].as_slice());
    same(&rt, map_at(&maps, 2), [].as_slice());
    Ok(())
}
