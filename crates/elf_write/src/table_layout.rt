//! Where the tables of a written object stand.

ghost use Rattle.std.specs.Prelude.{◌≡◌, ◌+◌, ◌*◌, ◌^◌, ◌≤◌, ◌<◌, All, IfSome, Some, length, map};
ghost use Rattle.std.specs.List.{flat_map};
ghost use Rattle.elf_model.specs.declared.constants.TheConstants.{MAX_NEEDED};
ghost use Rattle.elf_model.specs.RelSound.{IsNameText};
ghost use Rattle.elf_write.specs.Strings.{name_bytes};
ghost use Rattle.elf_write.specs.TableSegment as spec;
ghost use Rattle.elf_write.specs.parts.SmallObject.{IsObjectSmall};
ghost use Rattle.elf_write.specs.parts.ObjectSizes.{IsTableOrder};

use crate::hash_table::bucket_count;
use crate::rows::aligned;
use crate::strings::{name_size, symbol_strings_size, text_size};
use elf_model::constants::{REL_SIZE, SYM_SIZE};
use elf_model::{Object, Segment};
use fd_base::Name;

/// The link addresses of the tables.
#[derive(Clone, Copy)]
pub struct TableLayout {
    /// That of the hash table, with which their segment begins.
    pub hash: u64,
    /// That of the symbols.
    pub symbols: u64,
    /// That of the strings.
    pub strings: u64,
    /// That of the relocations of DT_REL.
    pub rels: u64,
    /// That of the relocations of the slots.
    pub jmprels: u64,
    /// That of the fixups.
    pub fixups: u64,
    /// That of the dynamic section.
    pub dynamic: u64,
}

/// Where the memory of segments ends.
fn memory_end(segments: &[Segment]) -> u64
    ensures end { result ≡ spec.memory_end segments.now }
    ensures near { result < 2 ^ 33 }
{
    let mut end = 0;
    for segment in segments {
        end = end.max(u64::from(segment.vaddr) + u64::from(segment.memsz));
    }
    end
}

/// The link address of the tables: the first multiple of 4,096 above the segments.
fn tables_vaddr(object: &Object) -> u64
    ensures vaddr { result ≡ spec.tables_vaddr object.entry.now }
    ensures near { result ≤ 2 ^ 34 }
{
    4096 * (memory_end(object.segments.as_slice()) / 4096 + 1)
}

/// Where the needed names begin among the strings.
pub fn needed_place(object: &Object) -> u32
    requires { IsObjectSmall object.now }
    ensures place { result ≡ spec.needed_place object.entry.now }
    ensures near { result ≤ 2 ^ 26 }
{
    symbol_strings_size(object.symbols.as_slice()) + name_size(&object.soname)
}

/// How many bytes the needed names have among strings.
fn needed_size(needed: &[Name]) -> u32
    requires few { length needed.now ≤ MAX_NEEDED }
    requires named { All IsNameText needed.now }
    ensures size { result ≡ length (flat_map name_bytes (map Some needed.now)) }
    ensures near { result ≤ 2 ^ 25 }
{
    let mut size = 0;
    for name in needed {
        size += text_size(name);
    }
    size
}

/// How many bytes the strings have.
#[tactic(auto, using(crate::proofs::TableSizes::strings_length))]
pub fn strings_size(object: &Object) -> u32
    requires { IsObjectSmall object.now }
    ensures size { result ≡ length (spec.name_strings object.entry.now) }
    ensures near { result ≤ 2 ^ 27 }
{
    needed_place(object) + needed_size(object.needed.as_slice())
}

/// How many words the fixups have, with the GOT.
fn fixup_word_count(object: &Object) -> u64
    requires { IfSome object.now.fixups (λ fixups. length fixups < 2 ^ 32) }
    ensures count { result ≡ length (spec.fixup_words object.entry.now) }
    ensures near { result ≤ 2 ^ 33 }
{
    match &object.fixups {
        Some(fixups) => fixups.len() as u64 + 1,
        None => 0,
    }
}

/// Where the tables stand.
pub fn layout_of(object: &Object) -> TableLayout
    requires { IsObjectSmall object.now }
    ensures layout { result ≡ spec.layout_of object.entry.now }
    ensures order { IsTableOrder result }
{
    let symbols = object.symbols.len() as u64;
    let buckets = u64::from(bucket_count(object.symbols.as_slice()));
    let hash_at = tables_vaddr(object);
    let symbols_at = hash_at + 4 * (2 + buckets + symbols);
    let strings_at = symbols_at + u64::from(SYM_SIZE) * symbols;
    let rels_at = strings_at + aligned(4, u64::from(strings_size(object)));
    let jmprels_at = rels_at + u64::from(REL_SIZE) * object.rels.len() as u64;
    let fixups_at = jmprels_at + u64::from(REL_SIZE) * object.jmprels.len() as u64;
    TableLayout {
        hash: hash_at,
        symbols: symbols_at,
        strings: strings_at,
        rels: rels_at,
        jmprels: jmprels_at,
        fixups: fixups_at,
        dynamic: fixups_at + 4 * fixup_word_count(object),
    }
}
