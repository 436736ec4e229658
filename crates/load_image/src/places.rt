//! Where modules are placed.

ghost use Rattle.std.specs.Prelude.{◌≡◌, All};
ghost use Rattle.load_map.specs.parts.IsLoadMap.{EndsBelow};
ghost use Rattle.load_image.specs.Places.{got_in};
ghost use Rattle.load_map.specs.Maps.{map_at};

use crate::descriptors::Descriptors;
use elf_model::Func;
use load_map::{MapEntry, map_at, placed};
use load_model::{MapEntries, Value};
use std::marker::Model;

/// The load map of each module and the link address of its GOT, by module number, and the address of each function's
/// descriptor.
#[derive(Drop)]
pub struct Places<'a> {
    /// The load map of each module number.
    maps: &'a [MapEntries],
    /// The link address of the GOT of each module number.
    gots: &'a [Option<u32>],
    descriptors: &'a Descriptors<'a>,
}

impl<'a> Model for Places<'a> {
    ghost use Rattle.std.specs.Prelude.{All};
    ghost use Rattle.load_map.specs.parts.IsLoadMap.{EndsBelow};
    ghost use Rattle.load_image.specs.Places.{PlaceTables, tables_code};

    ghost Value = { PlaceTables };

    ghost coded = { tables_code };

    ghost view = { λ p. record { maps = p.maps.now; gots = p.gots.now; descriptors = p.descriptors.now } };

    ghost invariant = { λ p. All (All EndsBelow) p.maps.now };
}

impl<'a> Places<'a> {
    ghost use Rattle.std.specs.Prelude.{◌≡◌, All};
    ghost use Rattle.load_model.specs.Image.{place_of, got_of, number_of_value};
    ghost use Rattle.load_map.specs.Maps.{map_at};
    ghost use Rattle.load_map.specs.parts.IsLoadMap.{EndsBelow};
    ghost use Rattle.load_image.specs.Addresses.{addr_in};
    ghost use Rattle.load_image.specs.Places.{placing_in};
    ghost use Rattle.load_map.specs.Maps.{map_at};

    /// By tables with a place for each module number. Segments end below 2^32 where they are placed.
    pub fn new(
        maps: &'a [MapEntries],
        gots: &'a [Option<u32>],
        descriptors: &'a Descriptors<'a>,
    ) -> Places<'a>
        requires { All (All EndsBelow) maps.now }
        ensures { result ≡ record { maps = maps.now; gots = gots.now; descriptors = descriptors.now } }
    {
        Places {
            maps,
            gots,
            descriptors,
        }
    }

    /// The load map of a module, and no entry for a number that has none.
    pub fn map(&self, m: u32) -> &'a [MapEntry]
        ensures entries { result.now ≡ map_at self.now.maps m }
        ensures ends { All EndsBelow result.now }
    {
        map_at(self.maps, m)
    }

    /// The placed address of a function, or of another link address.
    pub fn place_of(&self, f: &Func) -> u32
        ensures { result ≡ place_of (placing_in self.now) f.now }
    {
        placed(self.map(f.module), f.value)
    }

    /// The placed address of the GOT of a module.
    pub fn got_of(&self, m: u32) -> u32
        ensures { result ≡ got_of (placing_in self.now) m }
    {
        match got_in(self.gots, m) {
            Some(got) => placed(self.map(m), got),
            None => 0,
        }
    }

    /// The number of a value: the placed address of one that has a place.
    pub fn number_of(&self, value: &Value) -> u32
        ensures { result ≡ number_of_value (placing_in self.now) value.now }
    {
        match value {
            Value::Address(f) => self.place_of(f),
            Value::Number(n) => *n,
        }
    }

    /// The address of a function's descriptor.
    pub fn descriptor_of(&self, f: &Func) -> Option<u32>
        ensures { result ≡ addr_in self.now.descriptors f.now }
    {
        self.descriptors.get(f)
    }
}

fn got_in(gots: &[Option<u32>], m: u32) -> Option<u32>
    ensures { result ≡ got_in gots.now m }
{
    gots.get(m as usize).copied().flatten()
}
