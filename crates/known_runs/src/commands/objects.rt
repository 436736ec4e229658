//! Objects and jobs, and files that are none.

ghost use Rattle.std.specs.Prelude.{◌<◌, length};

use crate::files::{Image, add};
use fd_base::MemStore;
use std::alloc::Global;
use std::test::Fail;

/// Text at link address 0 (0x400 bytes) and data at 0x10000 (0x100 bytes) with the GOT at 0x10000 and, behind its
/// header, these words and then the dynamic section. The file's bytes of the data stand at an offset.
fn object(alloc: Global, offset: u32, tables: &[u32], dynamic: &[u32]) -> Result<Vec<u8>, Fail>
    requires tables { length tables.now < 64 }
    requires dynamic { length dynamic.now < 64 }
    requires offset { offset < 4096 }
{
    let mut image = Image::new(alloc);
    put_object(&mut image, offset, tables, dynamic)?;
    Ok(image.bytes)
}

fn put_object(image: &mut Image, offset: u32, tables: &[u32], dynamic: &[u32]) -> Result<(), Fail>
    requires tables { length tables.now < 64 }
    requires dynamic { length dynamic.now < 64 }
    requires offset { offset < 4096 }
{
    let at = 12 + 4 * tables.len() as u32;
    let size = 4 * dynamic.len() as u32;
    image.header(0, 3)?;
    image.segment(1, [0, 0], [0, 0x400], 5)?;
    image.segment(1, [offset, 0x1_0000], [at + size, 0x100], 6)?;
    image.segment(2, [offset + at, 0x1_0000 + at], [size, size], 4)?;
    for _ in image.bytes.len()..offset as usize {
        image.bytes.push(0)?;
    }
    image.words(&[0, 0, 0])?;
    image.words(tables)?;
    image.words(dynamic)
}

/// Adds such an object, with its bytes of the data behind its headers.
fn add_object(
    store: &mut MemStore,
    alloc: Global,
    name: &[u8],
    tables: &[u32],
    dynamic: &[u32],
) -> Result<(), Fail>
    requires tables { length tables.now < 64 }
    requires dynamic { length dynamic.now < 64 }
{
    let bytes = object(alloc, 148, tables, dynamic)?;
    add(store, alloc, name, &bytes)
}

/// An object without slots, one with a slot at 0x1000c on symbol 0, with the file word 0x300, and one whose slot leads to no
/// address.
fn add_slotted(store: &mut MemStore, alloc: Global) -> Result<(), Fail> {
    let dynamic = [3, 0x1_0000, 23, 0x1_0014, 2, 8, 20, 17, 0, 0];
    add_object(store, alloc, b"f.so", &[], &[3, 0x1_0000, 0, 0])?;
    add_object(store, alloc, b"e.so", &[0x300, 0, 0x1_000c, 164], &dynamic)?;
    add_object(
        store,
        alloc,
        b"lost.so",
        &[0x1_0000, 0, 0x1_000c, 164],
        &dynamic,
    )
}

/// One with the slot on symbol 1, a local function at 0x300, and with the file word 0.
fn add_slotted_on_symbol(store: &mut MemStore, alloc: Global) -> Result<(), Fail> {
    let tables = [
        0, 0, 0x1_000c, 0x1a4, // the slot and its relocation
        1, 2, 1, 0, 0, // the hash table
        0, 0, 0, 0, 1, 0x300, 0, 0x1_0002, // the symbols
        0x6600, // the strings
    ];
    let dynamic = [
        3, 0x1_0000, 23, 0x1_0014, 2, 8, 20, 17, // the GOT and the slots
        4, 0x1_001c, 6, 0x1_0030, 5, 0x1_0050, 10, 4, 0, 0, // symbols and strings
    ];
    add_object(store, alloc, b"local.so", &tables, &dynamic)
}

/// A library as a linker writes it, whose text is a function `foo`: `mov r0, #7` and `bx lr`.
fn add_library(store: &mut MemStore, alloc: Global) -> Result<(), Fail> {
    let mut image = Image::new(alloc);
    put_library(&mut image)?;
    add(store, alloc, b"foo.so", &image.bytes)
}

fn put_library(image: &mut Image) -> Result<(), Fail> {
    image.header(0, 4)?;
    image.segment(1, [192, 0], [8, 8], 5)?;
    image.segment(1, [208, 0x1_0000], [12, 12], 6)?;
    image.segment(1, [224, 0x1_1000], [132, 132], 4)?;
    image.segment(2, [292, 0x1_1044], [64, 64], 4)?;
    image.words(&[0, 0, 0])?;
    image.words(&[0xe3a0_0007, 0xe12f_ff1e, 0, 0])?;
    image.words(&[0, 0, 0, 0])?;
    image.words(&[2, 2, 0, 1, 0, 0])?;
    image.words(&[0, 0, 0, 0, 1, 0, 0, 0x1_0012])?;
    image.bytes.extend_from_slice(b"\0foo\0foo.so\0")?;
    image.words(&[14, 5, 4, 0x1_1000, 5, 0x1_1038, 10, 12])?;
    image.words(&[6, 0x1_1018, 11, 16, 3, 0x1_0000, 0, 0])
}

/// An object that needs the library of a name, with a slot at 0x1000c on symbol 1, an undefined function. The strings
/// are a zero byte, the function's name and the library's.
fn add_needing(
    store: &mut MemStore,
    alloc: Global,
    name: &[u8],
    strings: [u32; 3],
) -> Result<(), Fail> {
    let [function, library, end] = strings;
    let tables = [
        0, 0, 0x1_000c, 0x1a4, // the slot and its relocation
        1, 2, 1, 0, 0, // the hash table
        0, 0, 0, 0, 1, 0, 0, 0x12, // the symbols
        function, library, end, // the strings
    ];
    let dynamic = [
        1, 5, 3, 0x1_0000, 23, 0x1_0014, 2, 8, 20, 17, // the library, the GOT and the slots
        4, 0x1_001c, 6, 0x1_0030, 5, 0x1_0050, 10, 12, 0, 0, // symbols and strings
    ];
    add_object(store, alloc, name, &tables, &dynamic)
}

/// One with the slot on symbol 1, an object of the data.
fn add_slotted_on_data(store: &mut MemStore, alloc: Global) -> Result<(), Fail> {
    let tables = [
        0,
        0,
        0x1_000c,
        0x1a4, // the slot and its relocation
        1,
        2,
        1,
        0,
        0, // the hash table
        0,
        0,
        0,
        0,
        1,
        0x1_0000,
        0,
        0x1_0011, // the symbols
        0x6f6f_6600,
        0, // the strings
    ];
    let dynamic = [
        3, 0x1_0000, 23, 0x1_0014, 2, 8, 20, 17, // the GOT and the slots
        4, 0x1_001c, 6, 0x1_0030, 5, 0x1_0050, 10, 8, 0, 0, // symbols and strings
    ];
    add_object(store, alloc, b"data.so", &tables, &dynamic)
}

/// A library that exports a function `foo` at a link address, by the last word of its symbol.
fn add_exporting(
    store: &mut MemStore,
    alloc: Global,
    name: &[u8],
    value: u32,
    place: u32,
) -> Result<(), Fail> {
    let tables = [
        1,
        2,
        1,
        0,
        0, // the hash table
        0,
        0,
        0,
        0,
        1,
        value,
        0,
        place, // the symbols
        0x6f6f_6600,
        0, // the strings
    ];
    let dynamic = [
        3, 0x1_0000, 4, 0x1_000c, 6, 0x1_0020, 5, 0x1_0040, 10, 8, 0, 0,
    ];
    add_object(store, alloc, name, &tables, &dynamic)
}

/// An object that needs `weak.so` and then `strong.so`, with a slot at 0x1000c on an undefined function `foo`.
fn add_needing_two(store: &mut MemStore, alloc: Global) -> Result<(), Fail> {
    let tables = [
        0,
        0,
        0x1_000c,
        0x1a4, // the slot and its relocation
        1,
        2,
        1,
        0,
        0, // the hash table
        0,
        0,
        0,
        0,
        1,
        0,
        0,
        0x12, // the symbols
        0x6f6f_6600,
        0x6165_7700,
        0x6f73_2e6b,
        0x7274_7300,
        0x2e67_6e6f,
        0x6f73, // the strings
    ];
    let dynamic = [
        1, 5, 1, 13, 3, 0x1_0000, 23, 0x1_0014, 2, 8, 20, 17, // the libraries, the GOT and the slots
        4, 0x1_001c, 6, 0x1_0030, 5, 0x1_0050, 10, 24, 0, 0, // symbols and strings
    ];
    add_object(store, alloc, b"two.so", &tables, &dynamic)
}

/// An object with the addresses of the descriptors of two functions of its own.
fn add_asking(store: &mut MemStore, alloc: Global) -> Result<(), Fail> {
    let tables = [
        0,
        0,
        0x1_000c,
        0x1a3,
        0x1_0010,
        0x2a3, // two words and their relocations
        1,
        3,
        1,
        0,
        2,
        0, // the hash table
        0,
        0,
        0,
        0,
        1,
        0x300,
        0,
        0x1_0012,
        5,
        0x340,
        0,
        0x1_0012, // the symbols
        0x6f6f_6600,
        0x7261_6200,
        0, // the strings
    ];
    let dynamic = [
        3, 0x1_0000, 17, 0x1_0014, 18, 16, 19, 8, // the GOT and the relocations
        4, 0x1_0024, 6, 0x1_003c, 5, 0x1_006c, 10, 12, 0, 0, // symbols and strings
    ];
    add_object(store, alloc, b"asks.so", &tables, &dynamic)
}

/// The digits of a number below 100.
fn digits(n: u32) -> [u8; 2]
    requires { n < 100 }
{
    [b'0' + (n / 10) as u8, b'0' + (n % 10) as u8]
}

/// Objects `c00.so` to `c63.so`, each of which needs the next, and the last one `c64.so`.
pub fn add_chain(store: &mut MemStore, alloc: Global) -> Result<(), Fail> {
    for i in 0..64 {
        let [tens, ones] = digits(i);
        let [next_tens, next_ones] = digits(i + 1);
        let needed = u32::from_le_bytes([0, b'c', next_tens, next_ones]);
        let dynamic = [1, 1, 3, 0x1_0000, 5, 0x1_000c, 10, 8, 0, 0];
        let name = [b'c', tens, ones, b'.', b's', b'o'];
        add_object(store, alloc, &name, &[needed, 0x006f_732e], &dynamic)?;
    }
    Ok(())
}

/// Objects that need others, and those that they need.
fn add_linked(store: &mut MemStore, alloc: Global) -> Result<(), Fail> {
    for (name, strings) in [
        (
            b"main.so".as_slice(),
            [0x6f6f_6600, 0x6f6f_6600, 0x006f_732e],
        ),
        (b"gone.so", [0x6f6f_6600, 0x6f6f_6600, 0x0078_782e]),
        (b"bar.so", [0x7261_6200, 0x6f6f_6600, 0x006f_732e]),
    ] {
        add_needing(store, alloc, name, strings)?;
    }
    add_needing_two(store, alloc)?;
    add_exporting(store, alloc, b"weak.so", 0x300, 0x1_0022)?;
    add_exporting(store, alloc, b"strong.so", 0x340, 0x1_0012)
}

/// Files that are no objects: of no bytes, of 51, and with relocations that have addends of their own at offset 496.
fn add_refused(store: &mut MemStore, alloc: Global) -> Result<(), Fail> {
    let rela = object(alloc, 484, &[], &[7, 0, 0, 0])?;
    add(store, alloc, b"rela.so", &rela)?;
    add(store, alloc, b"empty.so", &[])?;
    add(store, alloc, b"short.so", &[0; 51])
}

/// Jobs, and texts that are none: with another first line, a memory of no whole pages and no program.
const JOBS: [(&[u8], &[u8]); 10] = [
    (
        b"two.job",
        b"fdpic-job 1\nprogram two.so\nplace two.so 0x20000 0x80000\nplace weak.so 0x40000 0x50000\n",
    ),
    (
        b"full.job",
        b"fdpic-job 1\ndescriptors 1\nprogram asks.so\n",
    ),
    (
        b"slot.job",
        b"fdpic-job 1\nprogram e.so\nplace e.so 0x20000 0x80000\n",
    ),
    (
        b"needing.job",
        b"fdpic-job 1\nmode lazy\nprogram main.so\nplace main.so 0x20000 0x80000\n",
    ),
    (b"second.job", b"fdpic-job 2\nprogram e.so\n"),
    (b"range.job", b"fdpic-job 1\nmemory 70000\n"),
    (b"none.job", b"fdpic-job 1\n"),
    (b"gone.job", b"fdpic-job 1\nprogram gone\n"),
    (b"short.job", b"fdpic-job 1\nprogram short.so\n"),
    (
        b"own.job",
        b"fdpic-job 1\nprogram own.job\n# a text of more bytes than an ELF header\n",
    ),
];

fn add_jobs(store: &mut MemStore, alloc: Global) -> Result<(), Fail> {
    for (name, text) in JOBS {
        add(store, alloc, name, text)?;
    }
    Ok(())
}

/// A folder of objects and jobs, and of files that are none.
pub fn folder(alloc: Global) -> Result<MemStore, Fail> {
    let mut store = MemStore::new(alloc);
    fill(&mut store, alloc)?;
    Ok(store)
}

fn fill(store: &mut MemStore, alloc: Global) -> Result<(), Fail> {
    add_slotted(store, alloc)?;
    add_slotted_on_symbol(store, alloc)?;
    add_slotted_on_data(store, alloc)?;
    add_asking(store, alloc)?;
    add_library(store, alloc)?;
    add_linked(store, alloc)?;
    add_refused(store, alloc)?;
    add_jobs(store, alloc)
}
