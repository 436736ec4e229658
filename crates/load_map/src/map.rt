//! Load maps that own their entries.

ghost use Rattle.std.specs.Prelude.{◌≡◌, ◌+◌, ◌*◌, length, IfOk};
ghost use Rattle.load_map.specs.Image.{bytes_of_map};
ghost use Rattle.load_map.specs.parts.IsLoadMap.{IsLoadMap};
ghost use Rattle.load_map.specs.Translation.{address_of};

use crate::entry::MapEntry;
use crate::image::MapImage;
use crate::translation;
use fd_base::Memory;
use std::alloc::Global;
use std::marker::Model;

/// The most entries of a load map.
pub const MAX_ENTRIES: usize = 8;

/// Where the segments of one module lie.
#[derive(Drop)]
pub struct LoadMap {
    entries: Vec<MapEntry>,
}

impl Model for LoadMap {
    ghost use Rattle.std.specs.Prelude.{List};
    ghost use Rattle.load_map.specs.declared.entry.MapEntry.{MapEntry};
    ghost use Rattle.load_map.specs.parts.IsLoadMap.{IsLoadMap};

    ghost Value = { List MapEntry };

    ghost view = { λ m. m.entries.items };

    ghost invariant = { λ m. IsLoadMap m.entries.items };
}

impl LoadMap {
    /// The load map with these entries: at most `MAX_ENTRIES`, none of which ends past the last address,
    /// neither where it is linked nor where it is placed.
    pub fn new(alloc: Global, entries: &[MapEntry]) -> Result<LoadMap, Memory>
        requires { IsLoadMap entries.now }
        ensures { IfOk result (λ map. map ≡ entries.now) }
    {
        let entries = Vec::from_slice(alloc, entries)?;
        Ok(LoadMap { entries })
    }

    /// The entries.
    pub fn as_slice(&self) -> &[MapEntry]
        ensures entries { result.now ≡ self.now }
        ensures is_map { IsLoadMap result.now }
    {
        &self.entries
    }

    /// The placed address of a link address, by the first entry that holds it, else by the first that ends
    /// at it. None where there is no such entry.
    pub fn translate(&self, v: u32) -> Option<u32>
        ensures { result ≡ address_of self.now v }
    {
        translation::address_of(&self.entries, v)
    }

    /// The bytes by which the module learns its load map.
    pub fn image(&self) -> MapImage
        ensures bytes { result ≡ bytes_of_map self.now }
        ensures size { length result ≡ 4 + 12 * length self.now }
    {
        MapImage::of(&self.entries)
    }
}
