//! Values from outside: a few slots, and an address elsewhere.

use crate::checks::same;
use elf_model::Func;
use func_desc::{DescPool, Full};
use std::test::Fail;

const FOO: Func = Func {
    module: 1,
    value: 0x300,
};

const BAR: Func = Func {
    module: 2,
    value: 0x300,
};

const LOCAL: Func = Func {
    module: 0,
    value: 0x120,
};

/// It falls into the bucket of FOO.
const TWIN: Func = Func {
    module: 0,
    value: 0x9d8,
};

const PRIVATE: Func = Func {
    module: 1,
    value: 0x304,
};

#[test]
fn one_address_for_each_function(rt: HostRuntime) -> Result<(), Fail> {
    let mut pool = DescPool::new(rt.alloc(), 0x3000, 2)?;
    same(&rt, pool.free(), 2);
    assert_eq!(rt; pool.get(&LOCAL), None);
    same(&rt, pool.free_at(0), Some(0x3000));
    same(&rt, pool.free_at(1), Some(0x3008));
    same(&rt, pool.free_at(2), None);
    pool.reserve(1)?;
    pool.adopt(&LOCAL, 0x80010);
    same(&rt, pool.get(&LOCAL), Some(0x80010));
    same(&rt, pool.ensure(&LOCAL), Ok(0x80010));
    same(&rt, pool.free(), 2);
    same(&rt, pool.ensure(&FOO), Ok(0x3000));
    same(&rt, pool.ensure(&FOO), Ok(0x3000));
    same(&rt, pool.free_at(0), Some(0x3008));
    same(&rt, pool.ensure(&BAR), Ok(0x3008));
    same(&rt, pool.free(), 0);
    same(&rt, pool.free_at(0), None);
    same(&rt, pool.get(&FOO), Some(0x3000));
    let other = Func {
        module: 2,
        value: 0x304,
    };
    same(&rt, pool.ensure(&other), Err(Full));
    same(&rt, pool.get(&other), None);
    same(&rt, pool.ensure(&BAR), Ok(0x3008));
    let mut none = DescPool::new(rt.alloc(), 0xffff_ffff, 0)?;
    same(&rt, none.ensure(&FOO), Err(Full));
    Ok(())
}

#[test]
fn functions_of_a_module_go(rt: HostRuntime) -> Result<(), Fail> {
    let mut pool = DescPool::new(rt.alloc(), 0x3000, 3)?;
    pool.reserve(1)?;
    pool.adopt(&PRIVATE, 0x80010);
    for (f, addr) in [(FOO, 0x3000), (TWIN, 0x3008), (BAR, 0x3010)] {
        same(&rt, pool.ensure(&f), Ok(addr));
    }
    same(&rt, pool.get(&PRIVATE), Some(0x80010));
    pool.drop_module(FOO.module);
    for (f, addr) in [
        (FOO, None),
        (PRIVATE, None),
        (TWIN, Some(0x3008)),
        (BAR, Some(0x3010)),
    ] {
        same(&rt, pool.get(&f), addr);
    }
    same(&rt, pool.free(), 1);
    for (f, addr) in [(TWIN, Ok(0x3008)), (PRIVATE, Ok(0x3000)), (FOO, Err(Full))] {
        same(&rt, pool.ensure(&f), addr);
    }
    Ok(())
}
