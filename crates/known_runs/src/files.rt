//! Files of the tests, as bytes, and the store that has them.

use fd_base::{MemStore, Name, Store};
use std::alloc::Global;
use std::test::Fail;

/// Little-endian bytes, put one after the other.
#[derive(Drop)]
pub struct Image {
    pub bytes: Vec<u8>,
}

impl Image {
    pub fn new(alloc: Global) -> Image {
        Image {
            bytes: Vec::new(alloc),
        }
    }

    pub fn words(&mut self, words: &[u32]) -> Result<(), Fail> {
        for word in words {
            self.bytes.extend_from_slice(&word.to_le_bytes())?;
        }
        Ok(())
    }

    pub fn halves(&mut self, halves: &[u16]) -> Result<(), Fail> {
        for half in halves {
            self.bytes.extend_from_slice(&half.to_le_bytes())?;
        }
        Ok(())
    }

    /// The ELF header of a shared object that is entered here, with so many program headers and no sections.
    pub fn header(&mut self, entry: u32, phnum: u16) -> Result<(), Fail> {
        self.header_of_sections(entry, phnum, [0, 0], 0)
    }

    /// The same with sections: how many, which of them has their names, and where their headers are.
    pub fn header_of_sections(
        &mut self,
        entry: u32,
        phnum: u16,
        sections: [u16; 2],
        at: u32,
    ) -> Result<(), Fail> {
        self.bytes
            .extend_from_slice(b"\x7fELF\x01\x01\x01\x41\0\0\0\0\0\0\0\0")?;
        self.halves(&[3, 40])?;
        self.words(&[1, entry, 52, at, 0x0500_0000])?;
        self.halves(&[52, 32, phnum, 40, sections[0], sections[1]])
    }

    /// A program header of a segment aligned to 16 bytes.
    pub fn segment(
        &mut self,
        kind: u32,
        place: [u32; 2],
        sizes: [u32; 2],
        flags: u32,
    ) -> Result<(), Fail> {
        self.words(&[
            kind, place[0], place[1], place[1], sizes[0], sizes[1], flags, 16,
        ])
    }
}

/// A file of a store.
pub fn add(store: &mut MemStore, alloc: Global, name: &[u8], bytes: &[u8]) -> Result<(), Fail> {
    let name = Name::new(alloc, name)?;
    store.add(&name, bytes)?;
    Ok(())
}

/// The bytes of a file of a store.
pub fn file_of(store: &mut MemStore, alloc: Global, name: &[u8]) -> Result<Vec<u8>, Fail> {
    match store.fetch(alloc, &Name::new(alloc, name)?)? {
        Some(bytes) => Ok(bytes.into_vec()),
        None => Err("no file")?,
    }
}

/// Changes bytes of a file of a store.
pub fn change(
    store: &mut MemStore,
    alloc: Global,
    name: &[u8],
    changes: &[(usize, u8)],
) -> Result<(), Fail> {
    let mut bytes = file_of(store, alloc, name)?;
    for (at, byte) in changes {
        *bytes.get_mut(*at).ok_or("short")? = *byte;
    }
    add(store, alloc, name, &bytes)
}
