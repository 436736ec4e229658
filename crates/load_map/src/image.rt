//! The bytes of a load map, as the module reads them.

ghost use Rattle.std.specs.Prelude.{◌≡◌, ◌+◌, ◌*◌, ◌^◌, ◌<◌, ◌≤◌, ◌++◌, length};
ghost use Rattle.byteorder.specs.Endian.{little_bytes};
ghost use Rattle.load_map.specs.Image.{bytes_of_map, entry_bytes};

use crate::entry::MapEntry;
use crate::map::MAX_ENTRIES;
use fd_base::put_word;
use std::marker::Model;

/// The size of the fields before the entries, in bytes.
const HEAD_SIZE: usize = 4;
/// The size of an entry, in bytes.
const ENTRY_SIZE: usize = 12;
/// The size of the longest image, in bytes.
const MAX_SIZE: usize = 100;

const _: () = prove!(HEAD_SIZE + ENTRY_SIZE * MAX_ENTRIES == MAX_SIZE);

/// The bytes of a load map, at most 100.
#[derive(Drop)]
pub struct MapImage {
    bytes: [u8; 100],
    len: usize,
}

impl Model for MapImage {
    ghost use Rattle.std.specs.Prelude.{List, ℕ, take, ◌≤◌};

    ghost Value = { List ℕ };

    ghost view = { λ m. take m.len m.bytes };

    ghost invariant = { λ m. m.len ≤ 100 };
}

impl MapImage {
    /// The bytes of a load map with these entries.
    pub fn of(entries: &[MapEntry]) -> MapImage
        requires { length entries.now ≤ MAX_ENTRIES }
        ensures bytes { result ≡ bytes_of_map entries.now }
        ensures size { length result ≡ HEAD_SIZE + ENTRY_SIZE * length entries.now }
    {
        let mut image = MapImage::head(entries.len() as u32);
        for entry in entries {
            image.push_entry(entry);
        }
        image
    }

    /// The two halfwords before the entries, of which the first is 0, as one word.
    fn head(count: u32) -> MapImage
        requires { count < 2 ^ 16 }
        ensures bytes { result ≡ little_bytes 2 0 ++ little_bytes 2 count }
    {
        let mut image = MapImage {
            bytes: [0; 100],
            len: 0,
        };
        image.push_word(count << 16);
        image
    }

    fn push_entry(&mut self, entry: &MapEntry)
        requires { length self.old + ENTRY_SIZE ≤ MAX_SIZE }
        ensures bytes { self.new ≡ self.old ++ entry_bytes entry.now }
        ensures size { length self.new ≡ length self.old + ENTRY_SIZE }
    {
        self.push_word(entry.addr);
        self.push_word(entry.vaddr);
        self.push_word(entry.memsz);
    }

    fn push_word(&mut self, word: u32)
        requires { length self.old + 4 ≤ MAX_SIZE }
        ensures bytes { self.new ≡ self.old ++ little_bytes 4 word }
        ensures size { length self.new ≡ length self.old + 4 }
    {
        put_word(&mut self.bytes, self.len as u32, word);
        self.len += 4;
    }

    /// The bytes.
    pub fn as_slice(&self) -> &[u8]
        ensures { result.now ≡ self.now }
    {
        &self.bytes[..self.len]
    }
}
