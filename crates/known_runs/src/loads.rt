//! What stands in memory after loads. Objects have their text at link address 0 (0x400 bytes, none of them in the file)
//! and their data at 0x10000 (0x100 bytes).

ghost use Rattle.std.specs.Prelude.{◌<◌, length, IfOk};
ghost use Rattle.load_model.specs.Plan.{Fits};
ghost use Rattle.load_state.specs.Consistent.{IsConsistent};

mod opens;

use crate::checks::{same, same_at};
use crate::files::{Image, add};
use elf_model::Func;
use fd_base::{MemStore, Name, Seq};
use mod_load::{LoadErr, LoadRefusal, Loader, MemPlan, PlaceLine, Places, load_program};
use std::alloc::Global;
use std::process::Abort;
use std::test::Fail;

/// The text, the data with so many bytes in the file, and at their end the dynamic section.
fn put_segments(image: &mut Image, size: u32, dynamic: u32) -> Result<(), Fail>
    requires size { size < 4096 }
    requires dynamic { dynamic < size }
{
    let end = size - dynamic;
    image.segment(1, [148, 0], [0, 0x400], 5)?;
    image.segment(1, [148, 0x1_0000], [size, 0x100], 6)?;
    image.segment(2, [148 + end, 0x1_0000 + end], [dynamic, dynamic], 4)
}

/// The list of fixups, the names of sections, and the headers of both, of which the list's begins at an offset.
fn put_fixups(image: &mut Image, fixups: &[u32], at: u32) -> Result<(), Fail>
    requires few { length fixups.now < 64 }
    requires at { at < 4096 }
{
    let size = 4 * fixups.len() as u32;
    image.words(fixups)?;
    image.bytes.extend_from_slice(b"\0.rofixup\0.shstrtab\0")?;
    image.words(&[0; 10])?;
    image.words(&[1, 1, 2, 0, at, size, 0, 0, 4, 0])?;
    image.words(&[10, 3, 0, 0, at + size, 20, 0, 0, 1, 0])
}

/// The bytes of an object: these words from 0x1000c on, behind them the dynamic section, and a list of fixups.
fn object(alloc: Global, words: &[u32], dynamic: &[u32], fixups: &[u32]) -> Result<Vec<u8>, Fail>
    requires words { length words.now < 64 }
    requires dynamic { length dynamic.now < 64 }
    requires fixups { length fixups.now < 64 }
{
    let mut image = Image::new(alloc);
    put_object(&mut image, words, dynamic, fixups)?;
    Ok(image.bytes)
}

fn put_object(image: &mut Image, words: &[u32], dynamic: &[u32], fixups: &[u32]) -> Result<(), Fail>
    requires words { length words.now < 64 }
    requires dynamic { length dynamic.now < 64 }
    requires fixups { length fixups.now < 64 }
{
    let tail = 4 * dynamic.len() as u32;
    let size = 12 + 4 * words.len() as u32 + tail;
    let list = 148 + size;
    if fixups.is_empty() {
        image.header(0, 3)?;
    } else {
        image.header_of_sections(0, 3, [3, 2], list + 4 * fixups.len() as u32 + 20)?;
    }
    put_segments(image, size, tail)?;
    image.words(&[0, 0, 0])?;
    image.words(words)?;
    image.words(dynamic)?;
    if !fixups.is_empty() {
        put_fixups(image, fixups, list)?;
    }
    Ok(())
}

/// Adds such an object.
fn add_object(
    store: &mut MemStore,
    alloc: Global,
    name: &[u8],
    words: &[u32],
    dynamic: &[u32],
    fixups: &[u32],
) -> Result<(), Fail>
    requires words { length words.now < 64 }
    requires dynamic { length dynamic.now < 64 }
    requires fixups { length fixups.now < 64 }
{
    let bytes = object(alloc, words, dynamic, fixups)?;
    add(store, alloc, name, &bytes)
}

/// Objects by what loading fills in them.
fn folder(alloc: Global) -> Result<MemStore, Fail> {
    let mut store = MemStore::new(alloc);
    add_programs(&mut store, alloc)?;
    add_later(&mut store, alloc)?;
    Ok(store)
}

/// Programs by what loading fills in them, and the library that one of them needs.
fn add_programs(store: &mut MemStore, alloc: Global) -> Result<(), Fail> {
    let relative = [0, 0, 0, 0, 0, 0x400, 0x1_0020, 23];
    let dynamic = [3, 0x1_0000, 17, 0x1_0024, 18, 8, 19, 8, 0, 0];
    add_object(store, alloc, b"relative", &relative, &dynamic, &[])?;
    let dynamic = [21, 0, 0, 0];
    let list = [0x1_0010, 0x1_0014, 0x1_0000];
    let fixed = [0, 0x8, 0x1_0010];
    add_object(store, alloc, b"fixups", &fixed, &dynamic, &list)?;
    let lost = [0, 0x8, 0x5_0000];
    add_object(store, alloc, b"lost", &lost, &dynamic, &list)?;
    add_naming(store, alloc, b"asks", [NEEDED, FOO], UNDEFINED)?;
    add_calling(store, alloc)?;
    add_exporting(store, alloc)
}

/// Objects that need no other: two that ask for a function of a loaded module, and two that define the one they ask for.
fn add_later(store: &mut MemStore, alloc: Global) -> Result<(), Fail> {
    add_naming(store, alloc, b"asks_bar", [DEBUG, BAR], UNDEFINED)?;
    add_naming(store, alloc, b"asks_baz", [DEBUG, BAZ], UNDEFINED)?;
    add_naming(store, alloc, b"baz", [DEBUG, BAZ], DEFINED)?;
    add_naming(store, alloc, b"no_room", [DEBUG, BAZ], DEFINED)
}

/// The tag of a needed object.
const NEEDED: u32 = 1;
/// A tag that loading passes over.
const DEBUG: u32 = 21;
/// A zero byte, and behind it a name.
const FOO: u32 = 0x6f6f_6600;
/// The same with another name.
const BAR: u32 = 0x7261_6200;
/// And with a third one.
const BAZ: u32 = 0x7a61_6200;
/// The value, the size and the rest of the symbol of a function that another object defines.
const UNDEFINED: [u32; 3] = [0, 0, 0x12];
/// The same of a function at 0x100.
const DEFINED: [u32; 3] = [0x100, 0, 0x1_0012];

/// An object with one symbol, and the address of its function's descriptor at 0x1000c. With the tag `NEEDED` it needs
/// `l.so`.
fn add_naming(
    store: &mut MemStore,
    alloc: Global,
    file: &[u8],
    [tag, name]: [u32; 2],
    symbol: [u32; 3],
) -> Result<(), Fail> {
    let words = [
        0,
        0x1_000c,
        0x1a3, // the word and its relocation
        1,
        2,
        1,
        0,
        0, // the hash table
        0,
        0,
        0,
        0,
        1,
        symbol[0],
        symbol[1],
        symbol[2], // the symbols
        name,
        0x732e_6c00,
        0x6f, // the strings
    ];
    let dynamic = [
        tag, 5, 3, 0x1_0000, 17, 0x1_0010, 18, 8, 19, 8, // the library, the GOT and the relocation
        4, 0x1_0018, 6, 0x1_002c, 5, 0x1_004c, 10, 12, 0, 0, // symbols and strings
    ];
    add_object(store, alloc, file, &words, &dynamic, &[])
}

/// A program that needs `l.so`, with a slot for its `foo` at 0x1000c.
fn add_calling(store: &mut MemStore, alloc: Global) -> Result<(), Fail> {
    let words = [
        0,
        0,
        0x1_000c,
        0x1a4, // the slot and its relocation
        1,
        2,
        1,
        0,
        0, // the hash table
        0,
        0,
        0,
        0,
        1,
        0,
        0,
        0x12, // the symbols
        FOO,
        0x732e_6c00,
        0x6f, // the strings
    ];
    let dynamic = [
        NEEDED, 5, 3, 0x1_0000, 23, 0x1_0014, 2, 8, 20, 17, // the library, the GOT and the slot
        4, 0x1_001c, 6, 0x1_0030, 5, 0x1_0050, 10, 12, 0, 0, // symbols and strings
    ];
    add_object(store, alloc, b"calls", &words, &dynamic, &[])
}

/// A library with `foo` and `bar` at 0x300, and the address of the descriptor of `bar` at 0x1000c.
fn add_exporting(store: &mut MemStore, alloc: Global) -> Result<(), Fail> {
    let words = [
        0,
        0x1_000c,
        0x2a3, // the word and its relocation
        1,
        3,
        1,
        0,
        2,
        0, // the hash table
        0,
        0,
        0,
        0,
        1,
        0x300,
        0,
        0x1_0012,
        5,
        0x300,
        0,
        0x1_0012, // the symbols
        0x6f6f_6600,
        0x7261_6200,
        0, // the strings
    ];
    let dynamic = [
        3, 0x1_0000, 17, 0x1_0010, 18, 8, 19, 8, // the GOT and the relocation
        4, 0x1_0018, 6, 0x1_0030, 5, 0x1_0060, 10, 12, 0, 0, // symbols and strings
    ];
    add_object(store, alloc, b"l.so", &words, &dynamic, &[])
}

fn place(alloc: Global, places: &mut Places, name: &[u8], addrs: &[u32]) -> Result<(), Fail> {
    places.push(PlaceLine {
        name: Name::new(alloc, name)?,
        addrs: Seq::from_slice(alloc, addrs)?,
    })?;
    Ok(())
}

fn plan_with(places: Places) -> MemPlan
    ensures { Fits result }
{
    MemPlan {
        memory: 0x10_0000,
        descriptors: 64,
        stack: 1024,
        places,
        threads: 8,
        processes: 1,
    }
}

/// Where these programs and libraries lie. The data of `no_room` would lie where the library's text does.
fn places(alloc: Global, data: u32) -> Result<Places, Fail> {
    let mut places = Seq::new(alloc);
    place_all(alloc, &mut places, data)?;
    Ok(places)
}

fn place_all(alloc: Global, places: &mut Places, data: u32) -> Result<(), Fail> {
    place(alloc, places, b"relative", &[0x2_0000, data])?;
    place(alloc, places, b"fixups", &[0x2_0000, data])?;
    place(alloc, places, b"asks", &[0x2_0000, data])?;
    place(alloc, places, b"calls", &[0x2_0000, data])?;
    place(alloc, places, b"l.so", &[0x4_0000, 0x5_0000])?;
    place(alloc, places, b"baz", &[0x6_0000, 0x7_0000])?;
    place(alloc, places, b"no_room", &[0x6_0000, 0x4_0000])?;
    place(alloc, places, b"asks_bar", &[0x9_0000, 0xa_0000])?;
    place(alloc, places, b"asks_baz", &[0x9_0000, 0xa_0000])
}

/// The program of this name, loaded by a plan.
fn loaded(
    alloc: Global,
    plan: &MemPlan,
    program: &Name,
    store: &mut MemStore,
) -> Result<Loader, Fail>
    requires { Fits plan.now }
    ensures { IfOk result (λ l. IsConsistent l.loaded) }
{
    match load_program(alloc, plan, program, store) {
        Ok(loader) => Ok(loader),
        Err(_) => Err("refused")?,
    }
}

/// The program of this name, loaded with its data at an address.
fn load(alloc: Global, program: &[u8], data: u32) -> Result<Loader, Fail>
    ensures { IfOk result (λ l. IsConsistent l.loaded) }
{
    let plan = plan_with(places(alloc, data)?);
    let name = Name::new(alloc, program)?;
    loaded(alloc, &plan, &name, &mut folder(alloc)?)
}

/// A program, where its data lies, and words in memory.
#[derive(Clone, Copy)]
struct Case {
    program: &'static [u8],
    data: u32,
    words: &'static [(u32, u32)],
}

fn check_words(rt: &impl Abort, loader: &mut Loader, words: &[(u32, u32)]) {
    for (addr, word) in words {
        same_at(rt, *addr, loader.guest().read32(*addr), Ok(*word));
    }
}

/// The text of the program lies at 0x20000, and its GOT at an address.
fn is_placed(rt: &impl Abort, loader: &Loader, got: u32)
    requires { IsConsistent loader.now.loaded }
{
    same(rt, loader.got(0), Some(got));
    for (addr, module) in [(0x2_03ff, Some(0)), (0x2_0400, None)] {
        same_at(rt, addr, loader.module_at(addr), module);
    }
}

#[test]
fn words_in_memory(rt: HostRuntime) -> Result<(), Fail> {
    for case in [
        // the end of the text is placed where the text is; the header of the GOT
        Case {
            program: b"relative",
            data: 0x8_0000,
            words: &[(0x8_0020, 0x2_0400), (0x8_0000, 0x1000), (0x8_0008, 0x1400)],
        },
        // words that a list of fixups names, each by the segment that holds what it says
        Case {
            program: b"fixups",
            data: 0x3_0000,
            words: &[(0x3_0010, 0x2_0008), (0x3_0014, 0x3_0010), (0x3_0004, 0)],
        },
        // the stubs: svc 240, ldr r9, [r12, #4], ldr pc, [r12], svc 6 and svc 0, whatever the program
        Case {
            program: b"fixups",
            data: 0x3_0000,
            words: &[
                (0x1000, 0xef00_00f0),
                (0x1004, 0xe59c_9004),
                (0x1008, 0xe59c_f000),
                (0x100c, 0xef00_0006),
                (0x1010, 0xef00_0000),
            ],
        },
        // one descriptor for one function, whatever its name
        Case {
            program: b"asks",
            data: 0x8_0000,
            words: &[(0x8_000c, 0x3000), (0x5_000c, 0x3000), (0x3000, 0x4_0300)],
        },
    ] {
        let mut loader = load(rt.alloc(), case.program, case.data)?;
        is_placed(&rt, &loader, case.data);
        check_words(&rt, &mut loader, case.words);
    }
    Ok(())
}

/// A slot leads to the definition of its name, and past the last slot and the last module nothing leads anywhere.
#[test]
fn where_slots_lead(rt: HostRuntime) -> Result<(), Fail> {
    let loader = load(rt.alloc(), b"calls", 0x8_0000)?;
    let foo = Func {
        module: 1,
        value: 0x300,
    };
    for (m, k, target) in [(0, 0, Some(foo)), (0, 1, None), (1, 0, None), (64, 0, None)] {
        same_at(&rt, m, loader.slot_def(m, k), target);
    }
    Ok(())
}

#[test]
fn word_without_address(rt: HostRuntime) -> Result<(), Fail> {
    let plan = plan_with(Seq::new(rt.alloc()));
    let name = Name::new(rt.alloc(), b"lost")?;
    let end = load_program(rt.alloc(), &plan, &name, &mut folder(rt.alloc())?);
    match end {
        Err(LoadErr::Refused(LoadRefusal::BadAddress(m, site))) => {
            same(&rt, (m, site), (0, 0x1_0014));
        }
        _ => Err("not refused")?,
    }
    Ok(())
}
