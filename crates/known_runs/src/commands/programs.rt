//! Programs that run, with their libraries and jobs.

ghost use Rattle.std.specs.Prelude.{◌<◌, length};

use crate::files::{Image, add};
use fd_base::MemStore;
use std::alloc::Global;
use std::test::Fail;

/// An object that is entered here, with this code at link address 0 and data at 0x10000: the header of the GOT, these words and
/// then the dynamic section.
fn entered(
    alloc: Global,
    entry: u32,
    code: &[u32],
    tables: &[u32],
    dynamic: &[u32],
) -> Result<Vec<u8>, Fail>
    requires code { length code.now < 64 }
    requires tables { length tables.now < 64 }
    requires dynamic { length dynamic.now < 64 }
{
    let mut image = Image::new(alloc);
    put_entered(&mut image, entry, code, tables, dynamic)?;
    Ok(image.bytes)
}

fn put_entered(
    image: &mut Image,
    entry: u32,
    code: &[u32],
    tables: &[u32],
    dynamic: &[u32],
) -> Result<(), Fail>
    requires code { length code.now < 64 }
    requires tables { length tables.now < 64 }
    requires dynamic { length dynamic.now < 64 }
{
    let text = 4 * code.len() as u32;
    let at = 12 + 4 * tables.len() as u32;
    let size = 4 * dynamic.len() as u32;
    image.header(entry, 3)?;
    image.segment(1, [148, 0], [text, text], 5)?;
    image.segment(1, [148 + text, 0x1_0000], [at + size, at + size], 6)?;
    image.segment(2, [148 + text + at, 0x1_0000 + at], [size, size], 4)?;
    image.words(code)?;
    image.words(&[0, 0, 0])?;
    image.words(tables)?;
    image.words(dynamic)
}

/// Adds such an object whose data is the header of the GOT and this dynamic section.
fn add_plain(
    store: &mut MemStore,
    alloc: Global,
    name: &[u8],
    entry: u32,
    code: &[u32],
) -> Result<(), Fail>
    requires { length code.now < 64 }
{
    let bytes = entered(alloc, entry, code, &[], &[3, 0x1_0000, 0, 0])?;
    add(store, alloc, name, &bytes)
}

/// A call of the entry behind it, the end of the process, and the entry of the slot at 0x1000c.
const CALLING: [u32; 12] = [
    0xeb00_0000,
    0xef00_0000,
    0xe59f_c008,
    0xe08c_c009,
    0xe59c_9004,
    0xe59c_f000,
    0x0000_000c,
    0,
    0xe51f_c00c,
    0xe92d_1000,
    0xe599_c004,
    0xe599_f000,
];

/// A program that calls a function `foo` through its slot. The last word of the symbol tells how it is bound.
fn add_calling(
    store: &mut MemStore,
    alloc: Global,
    name: &[u8],
    place: u32,
    dynamic: &[u32],
) -> Result<(), Fail>
    requires { length dynamic.now < 64 }
{
    let tables = [
        0x20,
        0,
        0x1_000c,
        0x1a4, // the slot and its relocation
        1,
        2,
        1,
        0,
        0, // the hash table
        0,
        0,
        0,
        0,
        1,
        0,
        0,
        place, // the symbols
        0x6f6f_6600,
        0x6f6f_6600,
        0x006f_732e, // the strings
    ];
    let bytes = entered(alloc, 0, &CALLING, &tables, dynamic)?;
    add(store, alloc, name, &bytes)
}

/// A library whose text is a function `foo`: `mov r0, #7` and `bx lr`.
fn add_returning(store: &mut MemStore, alloc: Global) -> Result<(), Fail> {
    let tables = [
        1,
        2,
        1,
        0,
        0, // the hash table
        0,
        0,
        0,
        0,
        1,
        0,
        0,
        0x1_0012, // the symbols
        0x6f6f_6600,
        0, // the strings
    ];
    let dynamic = [
        3, 0x1_0000, 4, 0x1_000c, 6, 0x1_0020, 5, 0x1_0040, 10, 8, 0, 0,
    ];
    let bytes = entered(alloc, 0, &[0xe3a0_0007, 0xe12f_ff1e], &tables, &dynamic)?;
    add(store, alloc, b"foo.so", &bytes)
}

/// A program with all that is passed over: headers of the interpreter, of the program headers and of the stack, an alignment
/// of 0x10000, flags of the calling standard, a section, a word for debuggers, and a function that should be called first.
fn add_tolerated(store: &mut MemStore, alloc: Global) -> Result<(), Fail> {
    let mut image = Image::new(alloc);
    put_tolerated(&mut image)?;
    add(store, alloc, b"tolerated", &image.bytes)
}

fn put_tolerated(image: &mut Image) -> Result<(), Fail> {
    image
        .bytes
        .extend_from_slice(b"\x7fELF\x01\x01\x01\x41\0\0\0\0\0\0\0\0")?;
    image.halves(&[3, 40])?;
    image.words(&[1, 0, 52, 296, 0x0500_0200])?;
    image.halves(&[52, 32, 6, 40, 1, 0])?;
    image.segment(6, [52, 0x52], [192, 192], 4)?;
    image.segment(3, [244, 0xf4], [1, 1], 4)?;
    image.words(&[1, 248, 0, 0, 4, 4, 5, 0x1_0000])?;
    image.words(&[1, 252, 0x1_0000, 0x1_0000, 44, 44, 6, 0x1_0000])?;
    image.segment(2, [264, 0x1_000c], [32, 32], 4)?;
    image.segment(0x6474_e551, [0, 0], [0, 0], 6)?;
    image.words(&[0, 0xef00_0000, 0, 0, 0])?;
    image.words(&[3, 0x1_0000, 21, 0, 12, 0, 0, 0])?;
    image.words(&[0; 10])
}

/// Programs by the words of their code, which call nothing.
const PLAIN: [(&[u8], &[u32]); 14] = [
    (b"service", &[0xef00_0063]),
    (b"data", &[0xe1a0_f009]),
    (b"null", &[0xe3a0_f000]),
    (b"skewed", &[0xe3a0_f002]),
    (b"header", &[0xe589_0000]),
    (b"text", &[0xe50f_0008]),
    (b"stack", &[0xe3a0_d000, 0xe92d_1000]),
    (b"word", &[0xffff_ffff]),
    (b"odd", &[0xe599_0001]),
    (b"beyond", &[0xe3a0_0001]),
    (
        b"puts",
        &[0xe1a0_0009, 0xe3a0_1004, 0xef00_0001, 0xef00_0000],
    ),
    (
        b"much",
        &[0xe3a0_1a02, 0xef00_0001, 0xef00_0008, 0xef00_0000],
    ),
    (b"turns", &[0xef00_0007, 0xe3a0_0001, 0xef00_0006]),
    (b"endless", &[0xeaff_fffe]),
];

/// Adds the job of a program whose first two segments are placed at 0x20000 and 0x30000, with further lines.
fn add_job(
    store: &mut MemStore,
    alloc: Global,
    program: &[u8],
    name: &[u8],
    lines: &[u8],
) -> Result<(), Fail> {
    let mut text = Vec::new(alloc);
    put_job(&mut text, program, lines)?;
    add(store, alloc, name, &text)
}

fn put_job(text: &mut Vec<u8>, program: &[u8], lines: &[u8]) -> Result<(), Fail> {
    for part in [
        b"fdpic-job 1\nprogram ".as_slice(),
        program,
        b"\nplace ",
        program,
        b" 0x20000 0x30000\n",
        lines,
    ] {
        text.extend_from_slice(part)?;
    }
    Ok(())
}

/// Jobs of programs by their further lines, under names of their own.
const JOBS: [(&[u8], &[u8], &[u8]); 13] = [
    (
        b"eager.job",
        b"prog",
        b"mode eager\nplace foo.so 0x40000 0x50000\n",
    ),
    (
        b"turns.job",
        b"prog",
        b"mode eager\nplace foo.so 0x40000 0x50000\nturn 3 9\nturn 0 3\nturn 0 4\n",
    ),
    (
        b"limit.job",
        b"prog",
        b"mode eager\nsteps 7\nplace foo.so 0x40000 0x50000\n",
    ),
    (b"lazy.job", b"prog", b"mode lazy\n"),
    (b"unsaid.job", b"prog", b""),
    (b"lost.job", b"nowhere", b"mode lazy\n"),
    (b"gone.job", b"nowhere", b"mode eager\n"),
    (b"own.job", b"own.job", b"mode eager\n"),
    (b"weak.job", b"weak", b"mode eager\n"),
    (b"strong.job", b"strong", b"mode eager\n"),
    (b"data.job", b"entered.data", b"mode eager\n"),
    (b"skewed.job", b"entered.skewed", b"mode eager\n"),
    (b"tolerated.job", b"tolerated", b"mode eager\n"),
];

/// Texts that are no jobs: with another first line, a memory of no whole pages, and no program.
const NO_JOBS: [(&[u8], &[u8]); 3] = [
    (b"second.job", b"fdpic-job 2\nprogram prog\n"),
    (b"range.job", b"fdpic-job 1\nmemory 70000\n"),
    (b"none.job", b"fdpic-job 1\nmode eager\n"),
];

/// The programs with a library, with a function that is called and nowhere defined, and with other entries than code.
fn add_programs(store: &mut MemStore, alloc: Global) -> Result<(), Fail> {
    let needing = [
        1, 5, 3, 0x1_0000, 23, 0x1_0014, 2, 8, 20, 17, 4, 0x1_001c, 6, 0x1_0030, 5, 0x1_0050, 10,
        12, 0, 0,
    ];
    let alone = [
        3, 0x1_0000, 23, 0x1_0014, 2, 8, 20, 17, 4, 0x1_001c, 6, 0x1_0030, 5, 0x1_0050, 10, 12, 0,
        0,
    ];
    let ending = [0xef00_0000];
    add_calling(store, alloc, b"prog", 0x12, &needing)?;
    add_calling(store, alloc, b"weak", 0x22, &alone)?;
    add_calling(store, alloc, b"strong", 0x12, &alone)?;
    add_returning(store, alloc)?;
    add_tolerated(store, alloc)?;
    add_plain(store, alloc, b"entered.data", 0x1_0000, &ending)?;
    add_plain(store, alloc, b"entered.skewed", 2, &ending)
}

fn add_jobs(store: &mut MemStore, alloc: Global) -> Result<(), Fail> {
    for (name, program, lines) in JOBS {
        add_job(store, alloc, program, name, lines)?;
    }
    for (name, text) in NO_JOBS {
        add(store, alloc, name, text)?;
    }
    Ok(())
}

/// A folder of programs, libraries and jobs.
pub fn folder(alloc: Global) -> Result<MemStore, Fail> {
    let mut store = MemStore::new(alloc);
    add_programs(&mut store, alloc)?;
    add_jobs(&mut store, alloc)?;
    Ok(store)
}

fn add_plain_job(store: &mut MemStore, alloc: Global, program: &[u8]) -> Result<(), Fail> {
    let mut name = Vec::from_slice(alloc, program)?;
    name.extend_from_slice(b".job")?;
    let lines = b"mode eager\nsteps 1000\n";
    add_job(store, alloc, program, &name, lines)
}

fn add_all_plain(store: &mut MemStore, alloc: Global) -> Result<(), Fail> {
    for (program, code) in PLAIN {
        add_plain(store, alloc, program, 0, code)?;
        add_plain_job(store, alloc, program)?;
    }
    Ok(())
}

/// A folder of the programs that call nothing. The job of each has the program's name, and `.job` behind it.
pub fn plain_folder(alloc: Global) -> Result<MemStore, Fail> {
    let mut store = MemStore::new(alloc);
    add_all_plain(&mut store, alloc)?;
    Ok(store)
}
