//! The placed bytes of a module.

ghost use Rattle.std.specs.Prelude.{◌≡◌, ◌+◌, ◌<◌, ◌≤◌, ℕ, length, slice_index, All, IfOk};
ghost use Rattle.elf_model.specs.Places.{file_byte};
ghost use Rattle.elf_model.specs.Sound.{IsSound, IsSized};
ghost use Rattle.load_model.specs.Definition.{Linkage};
ghost use Rattle.load_model.specs.Image.{byte_over, IsImage};
ghost use Rattle.load_map.specs.Maps.{map_at};
ghost use Rattle.load_image.specs.parts.Bounds.{IsWordWhole, IsMapOf};
ghost use Rattle.load_image.specs.Places.{placing_in};
ghost use Rattle.load_map.specs.Maps.{map_at};
ghost use Rattle.load_image.specs.parts.Words.{HasValues, FitSites};

use crate::filling::words;
use crate::places::Places;
use crate::write::write_over;
use elf_model::{Object, Segment};
use fd_base::{Bytes, Memory, Seq};
use load_model::{LinkWord, MAX_MODULES, SiteValue};
use std::alloc::Global;

/// The bytes of each placed segment of a module.
pub type Image = Seq<Bytes>;

/// The file's bytes of a segment, and zeros behind them.
fn own_bytes(alloc: Global, segment: &Segment) -> Result<Vec<u8>, Memory>
    requires { length segment.now.filled ≤ segment.now.memsz }
    ensures len { IfOk result (λ bytes. length bytes.items ≡ segment.now.memsz) }
    ensures bytes { IfOk result (λ bytes. (i : ℕ) → slice_index bytes.items i ≡ slice_index segment.now.filled i) }
{
    let mut bytes = Vec::from_slice(alloc, segment.filled.as_slice())?;
    bytes.resize(segment.memsz as usize, 0)?;
    Ok(bytes)
}

/// A segment's bytes with the words over them.
fn part(
    alloc: Global,
    object: &Object,
    segment: &Segment,
    words: &[LinkWord],
) -> Result<Bytes, Memory>
    requires sized { IsSized segment.now }
    requires whole { All (IsWordWhole segment.now.vaddr segment.now.memsz) words.now }
    requires own { (i : ℕ) → i < segment.now.memsz
        → file_byte object.now.segments (segment.now.vaddr + i) ≡ slice_index segment.now.filled i }
    ensures len { IfOk result (λ bytes. length bytes ≡ segment.now.memsz) }
    ensures bytes { IfOk result (λ bytes. (i : ℕ) → i < segment.now.memsz
        → slice_index bytes i ≡ byte_over words.now (file_byte object.entry.now.segments) (segment.now.vaddr + i)) }
{
    let mut bytes = own_bytes(alloc, segment)?;
    write_over(&mut bytes, segment.vaddr, words);
    Ok(Seq::from_vec(bytes))
}

/// The bytes of each placed segment of module `m`, whose sites have these values, while slots with these flags are
/// unbound.
pub fn image(
    alloc: Global,
    places: &Places,
    m: u32,
    object: &Object,
    unbound: &[bool],
    values: &[SiteValue],
) -> Result<Image, Memory>
    requires sound { IsSound object.now }
    requires mapped { IsMapOf object.now.segments (map_at places.now.maps m) }
    requires number { m < MAX_MODULES }
    requires values { FitSites object.now values.now }
    ensures { IfOk result (λ parts. (l : Linkage) → HasValues l m object.entry.now values.now
        → IsImage l (placing_in places.now) m object.entry.now unbound.now (map_at places.now.maps m) parts) }
{
    let words = words(alloc, places, m, object, unbound, values)?;
    let mut image = Seq::new(alloc);
    for segment in object.segments.as_slice() {
        image.push(part(alloc, object, segment, &words)?)?;
    }
    Ok(image)
}
