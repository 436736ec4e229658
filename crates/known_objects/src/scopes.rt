//! Values from outside: which definition wins, what is exported, and the order of a closure.

ghost use Rattle.std.specs.Prelude.{◌<◌, OnOk};

use crate::checks::{same, same_at};
use elf_model::{Inits, Kind, Object, Place, Symbol};
use fd_base::{Name, Numbers, Seq};
use std::alloc::Global;
use std::process::Abort;
use std::test::Fail;
use symbol_scope::{MAX_MODULES, Tables};

fn symbol(
    alloc: Global,
    name: &[u8],
    (binding, kind, visibility): (u8, u8, u8),
    place: Place,
) -> Result<Symbol, Fail> {
    Ok(Symbol {
        name: Name::new(alloc, name).ok(),
        value: 0x300,
        size: 0,
        binding,
        kind,
        visibility,
        place,
    })
}

fn object(alloc: Global, needed: &[&[u8]], symbols: Vec<Symbol>) -> Result<Object, Fail> {
    let mut names = Seq::new(alloc);
    for name in needed {
        names.push(Name::new(alloc, name)?)?;
    }
    Ok(Object {
        kind: Kind::Dyn,
        entry: 0,
        segments: Seq::new(alloc),
        got: 0x10000,
        needed: names,
        soname: None,
        symbols: Seq::from_vec(symbols),
        rels: Seq::new(alloc),
        jmprels: Seq::new(alloc),
        fixups: None,
        symbolic: false,
        now: false,
        inits: Inits {
            init: None,
            fini: None,
            init_array: None,
            fini_array: None,
        },
    })
}

/// Adds a module with these needed names and symbols.
fn enter(
    rt: &impl Abort,
    alloc: Global,
    tables: &mut Tables,
    number: u32,
    needed: &[&[u8]],
    symbols: Vec<Symbol>,
) -> Result<(), Fail>
    ensures { OnOk result (number < tables.new.room) }
{
    assert!(rt; number < MAX_MODULES);
    let o = object(alloc, needed, symbols)?;
    assert!(rt; o.symbols.len() < 9);
    let name = Name::new(alloc, &[b'a' + number as u8])?;
    tables.add(number, &name, &o)?;
    Ok(())
}

const FUNC: u8 = 2;

const HERE: Place = Place::Here;

/// A program without definitions, a library that defines `foo` twice behind another name, and one that defines it once.
fn add_three(rt: &impl Abort, alloc: Global, tables: &mut Tables) -> Result<(), Fail>
    ensures { OnOk result (2 < tables.new.room) }
{
    let program = vec![in alloc; symbol(alloc, b"foo", (1, FUNC, 0), Place::Undefined)?]?;
    enter(rt, alloc, tables, 0, &[], program)?;
    let weak = vec![in alloc;
        symbol(alloc, b"bar", (1, FUNC, 0), HERE)?,
        symbol(alloc, b"foo", (2, FUNC, 0), HERE)?,
        symbol(alloc, b"foo", (1, FUNC, 0), HERE)?,
    ]?;
    enter(rt, alloc, tables, 1, &[], weak)?;
    let global = vec![in alloc; symbol(alloc, b"foo", (1, FUNC, 0), HERE)?]?;
    enter(rt, alloc, tables, 2, &[], global)
}

/// The module and the symbol that a name leads to in a scope.
fn found(
    alloc: Global,
    tables: &Tables,
    scope: &[u32],
    name: &[u8],
) -> Result<Option<(u32, u32)>, Fail> {
    let scope = Numbers::from_slice(alloc, scope)?;
    let found = tables.find(&scope, &Name::new(alloc, name)?);
    Ok(found.map(|found| (found.module, found.symbol)))
}

#[test]
fn first_definition_wins(rt: HostRuntime) -> Result<(), Fail> {
    let alloc = rt.alloc();
    let mut tables = Tables::new(alloc);
    add_three(&rt, alloc, &mut tables)?;
    for (scope, wanted) in [
        ([0, 1, 2].as_slice(), Some((1, 1))),
        ([0, 2, 1].as_slice(), Some((2, 0))),
        ([0].as_slice(), None),
        ([7, 64, 2].as_slice(), Some((2, 0))),
        ([].as_slice(), None),
    ] {
        same(&rt, found(alloc, &tables, scope, b"foo")?, wanted);
    }
    tables.remove(1);
    let first = found(alloc, &tables, &[0, 1, 2], b"foo")?;
    same(&rt, first, Some((2, 0)));
    Ok(())
}

/// A table that is taken out and put in under another number is found there.
#[test]
fn table_of_another_number(rt: HostRuntime) -> Result<(), Fail> {
    let alloc = rt.alloc();
    let mut tables = Tables::new(alloc);
    add_three(&rt, alloc, &mut tables)?;
    let table = tables.take(1).ok_or("no table")?;
    same(&rt, tables.take(1).is_some(), false);
    same(&rt, tables.take(64).is_some(), false);
    same(&rt, found(alloc, &tables, &[0, 1], b"foo")?, None);
    tables.put(0, table);
    let first = found(alloc, &tables, &[0, 1], b"foo")?;
    same(&rt, first, Some((0, 1)));
    Ok(())
}

/// Whether module 63 exports `f`, by its binding, kind and visibility, and where it stands.
fn exports(
    rt: &impl Abort,
    alloc: Global,
    kinds: (u8, u8, u8),
    place: Place,
) -> Result<bool, Fail> {
    let symbols = vec![in alloc; symbol(alloc, b"f", kinds, place)?]?;
    let mut tables = Tables::new(alloc);
    enter(rt, alloc, &mut tables, 63, &[], symbols)?;
    let other = found(alloc, &tables, &[63], b"ff")?;
    same(rt, other, None);
    Ok(found(alloc, &tables, &[63], b"f")?.is_some())
}

#[test]
fn what_is_exported(rt: HostRuntime) -> Result<(), Fail> {
    let rows = [
        ((1, 0, 0), HERE, true),
        ((2, 1, 3), HERE, true),
        ((1, 2, 3), Place::Absolute, true),
        ((2, 2, 0), Place::Absolute, true),
        ((0, 2, 0), HERE, false),
        ((10, 2, 0), HERE, false),
        ((1, 3, 0), HERE, false),
        ((1, 4, 0), Place::Absolute, false),
        ((1, 2, 1), HERE, false),
        ((1, 2, 2), HERE, false),
        ((1, 2, 0), Place::Undefined, false),
        ((1, 2, 0), Place::Common, false),
        ((1, 2, 0), Place::Section(0), false),
        ((1, 2, 0), Place::Dropped, false),
    ];
    for (i, (kinds, place, wanted)) in rows.into_iter().enumerate() {
        same_at(&rt, i, exports(&rt, rt.alloc(), kinds, place)?, wanted);
    }
    Ok(())
}

#[test]
fn breadth_before_depth(rt: HostRuntime) -> Result<(), Fail> {
    let alloc = rt.alloc();
    let mut tables = Tables::new(alloc);
    let modules: [(u32, &[&[u8]]); 6] = [
        (0, &[b"f", b"c", b"f"]),
        (5, &[b"b", b"a"]),
        (2, &[b"g", b"b"]),
        (1, &[]),
        (6, &[b"a", b"g"]),
        (7, &[b"c"]),
    ];
    for (number, needed) in modules {
        enter(&rt, alloc, &mut tables, number, needed, Vec::new(alloc))?;
    }
    same(
        &rt,
        tables.closure(alloc, 0)?.as_slice(),
        [0, 5, 2, 1, 6].as_slice(),
    );
    same(
        &rt,
        tables.closure(alloc, 7)?.as_slice(),
        [7, 2, 6, 1, 0, 5].as_slice(),
    );
    same(&rt, tables.closure(alloc, 1)?.as_slice(), [1].as_slice());
    Ok(())
}
