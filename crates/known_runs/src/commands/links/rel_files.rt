//! Relocatable files that no text comes to, as bytes. Section 1 has the symbols and section 2 the strings; behind them come
//! the sections of a row, from number 3 on, and then the relocations of each.

use crate::files::Image;
use std::alloc::Global;
use std::test::Fail;

/// A section: its words, and the site and the rest of each relocation.
#[derive(Clone, Copy)]
pub enum Part {
    /// Code.
    Code(&'static [u32], &'static [[u32; 2]]),
    /// What a program writes to.
    Data(&'static [u32], &'static [[u32; 2]]),
    /// Words of a section of this kind, these flags and this alignment.
    Other([u32; 3], &'static [u32]),
    /// Code of so many bytes, of which the file has none.
    Zeros(u32),
}

impl Part {
    fn head(self) -> [u32; 3] {
        match self {
            Part::Code(..) => [1, 6, 4],
            Part::Data(..) => [1, 3, 4],
            Part::Other(head, _) => head,
            Part::Zeros(_) => [8, 6, 4],
        }
    }

    fn words(self) -> &'static [u32] {
        match self {
            Part::Code(words, _) | Part::Data(words, _) | Part::Other(_, words) => words,
            Part::Zeros(_) => &[],
        }
    }

    fn rels(self) -> &'static [[u32; 2]] {
        match self {
            Part::Code(_, rels) | Part::Data(_, rels) => rels,
            Part::Other(..) | Part::Zeros(_) => &[],
        }
    }
}

/// Code that ends at once.
pub const ENDING: Part = Part::Code(&[0xef00_0000], &[]);

/// A program that ends with the first word behind the header of its GOT.
pub const TELLING: Part = Part::Code(&[0xe599_000c, 0xef00_0000], &[]);

/// Code that ends at once, and a word behind it.
pub const WORDED: &[u32] = &[0xef00_0000, 0];

/// A symbol.
#[derive(Clone, Copy)]
pub enum Mark {
    /// Where a program begins, in the first section.
    Start(u32),
    /// `x`, with a value and a word of its section, visibility, binding and type.
    At(u32, u32),
    /// `x` as a common block of an alignment and a size.
    Block(u32, u32),
}

impl Mark {
    fn name(self) -> &'static [u8] {
        match self {
            Mark::Start(_) => b"_start",
            Mark::At(..) | Mark::Block(..) => b"x",
        }
    }

    /// Its value, its size and the word of the rest.
    fn words(self) -> [u32; 3] {
        match self {
            Mark::Start(value) => [value, 0, 0x3_0010],
            Mark::At(value, place) => [value, 0, place],
            Mark::Block(align, size) => [align, size, 0xfff2_0011],
        }
    }
}

/// Contents behind 52 bytes of a header, and headers of sections.
#[derive(Drop)]
struct File {
    body: Image,
    heads: Image,
}

fn size_of(image: &Image) -> Result<u32, Fail> {
    Ok(u32::try_from(image.bytes.len())?)
}

fn words_of(alloc: Global, words: &[u32]) -> Result<Image, Fail> {
    let mut image = Image::new(alloc);
    image.words(words)?;
    Ok(image)
}

impl File {
    fn new(alloc: Global) -> Result<File, Fail> {
        Ok(File {
            body: words_of(alloc, &[0; 13])?,
            heads: words_of(alloc, &[0; 10])?,
        })
    }

    /// The header of a section whose bytes come next: its kind, flags and alignment, its size, and the sections that it
    /// belongs to.
    fn head(&mut self, head: [u32; 3], size: u32, links: [u32; 2]) -> Result<(), Fail> {
        let at = size_of(&self.body)?;
        self.heads.words(&[
            0, head[0], head[1], 0, at, size, links[0], links[1], head[2], 0,
        ])
    }

    fn section(&mut self, head: [u32; 3], bytes: &Image, links: [u32; 2]) -> Result<(), Fail> {
        self.head(head, size_of(bytes)?, links)?;
        self.body.bytes.extend_from_slice(&bytes.bytes)?;
        Ok(())
    }

    fn part(&mut self, alloc: Global, part: Part) -> Result<(), Fail> {
        if let Part::Zeros(size) = part {
            return self.head(part.head(), size, [0, 0]);
        }
        let bytes = words_of(alloc, part.words())?;
        self.section(part.head(), &bytes, [0, 0])
    }

    fn rels(&mut self, alloc: Global, number: u32, rels: &[[u32; 2]]) -> Result<(), Fail> {
        let mut bytes = Image::new(alloc);
        for rel in rels {
            bytes.words(rel)?;
        }
        self.section([9, 0, 4], &bytes, [1, number])
    }

    fn symbols(&mut self, alloc: Global, marks: &[Mark]) -> Result<(), Fail> {
        let mut table = words_of(alloc, &[0; 4])?;
        let mut strings = Image::new(alloc);
        strings.bytes.push(0)?;
        for mark in marks {
            let at = size_of(&strings)?;
            table.words(&[at])?;
            table.words(&mark.words())?;
            strings.bytes.extend_from_slice(mark.name())?;
            strings.bytes.push(0)?;
        }
        self.tables(&table, &strings)
    }

    /// The sections of the symbols and of the strings.
    fn tables(&mut self, symbols: &Image, strings: &Image) -> Result<(), Fail> {
        self.section([2, 0, 4], symbols, [2, 0])?;
        self.section([3, 0, 1], strings, [0, 0])
    }

    /// The whole file.
    fn finish(self, alloc: Global) -> Result<Vec<u8>, Fail> {
        let mut image = Image::new(alloc);
        let count = u16::try_from(self.heads.bytes.len() / 40)?;
        image
            .bytes
            .extend_from_slice(b"\x7fELF\x01\x01\x01\x41\0\0\0\0\0\0\0\0")?;
        image.halves(&[1, 40])?;
        image.words(&[1, 0, 0, size_of(&self.body)?, 0x0500_0000])?;
        image.halves(&[52, 0, 0, 40, count, 2])?;
        image
            .bytes
            .extend_from_slice(self.body.bytes.get(52..).ok_or("no header")?)?;
        image.bytes.extend_from_slice(&self.heads.bytes)?;
        Ok(image.bytes)
    }
}

/// The bytes of a relocatable file of these sections and symbols.
pub fn rel_file(alloc: Global, parts: &[Part], marks: &[Mark]) -> Result<Vec<u8>, Fail> {
    let mut file = File::new(alloc)?;
    file.symbols(alloc, marks)?;
    for part in parts {
        file.part(alloc, *part)?;
    }
    for (part, number) in parts.iter().zip(3..100) {
        file.rels(alloc, number, part.rels())?;
    }
    file.finish(alloc)
}

/// The bytes of a program with so many words of data, each the address of its begin.
pub fn pointing_file(alloc: Global, count: u32) -> Result<Vec<u8>, Fail> {
    let mut words = Image::new(alloc);
    let mut rels = Image::new(alloc);
    for _ in 0..count {
        rels.words(&[size_of(&words)?, 0x102])?;
        words.words(&[0])?;
    }
    let mut file = File::new(alloc)?;
    file.symbols(alloc, &[Mark::Start(0)])?;
    file.part(alloc, ENDING)?;
    file.section([1, 3, 4], &words, [0, 0])?;
    file.section([9, 0, 4], &rels, [1, 4])?;
    file.finish(alloc)
}

/// The bytes of a file of so many numbers with names.
pub fn naming_file(alloc: Global, count: u32) -> Result<Vec<u8>, Fail> {
    let mut table = words_of(alloc, &[0; 4])?;
    let mut strings = Image::new(alloc);
    strings.bytes.push(0)?;
    for number in 0..count {
        let [low, high, _, _] = number.to_le_bytes();
        table.words(&[size_of(&strings)?, 0, 0, 0xfff1_0010])?;
        strings.bytes.extend_from_slice(&[
            b'a' + low % 16,
            b'a' + low / 16,
            b'a' + high % 16,
            b'a' + high / 16,
            0,
        ])?;
    }
    let mut file = File::new(alloc)?;
    file.tables(&table, &strings)?;
    file.finish(alloc)
}

/// The bytes of a file of so many local symbols, each with a word of the GOT.
pub fn using_file(alloc: Global, count: u32) -> Result<Vec<u8>, Fail> {
    let mut table = words_of(alloc, &[0; 4])?;
    let mut words = Image::new(alloc);
    let mut rels = Image::new(alloc);
    for number in 0..count {
        table.words(&[0, 0, 0, 0x3_0000])?;
        rels.words(&[size_of(&words)?, number.wrapping_add(1) << 8 | 0x1a])?;
        words.words(&[0])?;
    }
    let mut file = File::new(alloc)?;
    file.tables(
        &table,
        &Image {
            bytes: Vec::from_slice(alloc, &[0])?,
        },
    )?;
    file.section([1, 6, 4], &words, [0, 0])?;
    file.section([9, 0, 4], &rels, [1, 3])?;
    file.finish(alloc)
}
