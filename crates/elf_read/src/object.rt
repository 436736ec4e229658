//! The reader: each stage makes the next tests of the format and hands on what it read.

ghost use Rattle.std.specs.Prelude.{◌≡◌, ◌≤◌, ◌<◌, ◌^◌, ◌+◌, ◌-◌, Some, Ok, Err, ℕ, length, All, IfOk, IfSome, true};
ghost use Rattle.elf_model.specs.Segments as segment;
ghost use Rattle.elf_model.specs.Sections as section;
ghost use Rattle.elf_model.specs.Relocations as rel;
ghost use Rattle.elf_model.specs.Fields as field;
ghost use Rattle.elf_model.specs.Object as spec;
ghost use Rattle.elf_read.specs.parts.HeaderTables.{HasLoads, HasProgramTable, IsFixupList};
ghost use Rattle.elf_model.specs.declared.object.Object.{Object};
ghost use Rattle.elf_model.specs.declared.refusal.ElfRefusal.{ElfRefusal};
ghost use Rattle.elf_model.specs.Object.{IsObject};
ghost use Rattle.elf_model.specs.Sound.{IsSound};
ghost use Rattle.elf_read.specs.declared.error.ReadErr.TheVariants.{Refused};
ghost use Rattle.elf_read.specs.parts.Reads.{IsReadAs, IsAnswer};
ghost use Rattle.elf_read.specs.parts.Passes.{Reads};
ghost use Rattle.elf_read.specs.parts.Stages.{ReadsDynamic, ReadsNames, ReadsTables, ReadsRelocations};

use crate::dynamic::{check_entries, dynamic_entries, dynamic_offset_or};
use crate::error::ReadErr;
use crate::fields::e_entry;
use crate::fixups::read_fixups;
use crate::flags::{inits_of, is_now, is_symbolic};
use crate::got::{check_got, got_of};
use crate::header::{check_header, kind_of};
use crate::names::{read_needed, read_soname};
use crate::relocations::{check_relocations, rels_of};
use crate::sections::read_rofixup;
use crate::segments::{read_loads, segments_of};
use crate::strings::read_strings;
use crate::symbols::{read_symbol_table, read_symbols};
use crate::tables::RelTables;
use elf_model::constants::{E_PHOFF, EHDR_SIZE};
use elf_model::{DynEntry, Object, ProgramHeader, RelEntry, Rels, Symbols};
use fd_base::{Name, Names, Words};
use std::alloc::Global;

/// The GOT, which is in its place.
#[tactic(auto, unfolding(elf_model::specs::Fields::got_tests, elf_model::specs::Fields::got))]
fn read_got(
    bytes: &[u8],
    loads: &[ProgramHeader],
    entries: &[DynEntry],
    list: Option<u16>,
) -> Result<u32, ReadErr>
    requires small { length bytes.now < 2 ^ 32 }
    requires long { EHDR_SIZE ≤ length bytes.now }
    requires table { HasProgramTable bytes.now }
    requires list { IfSome list (IsFixupList bytes.now) }
    requires are_loads { loads.now ≡ segment.loads bytes.now }
    requires are_entries { entries.now ≡ field.entries bytes.now }
    requires is_list { list ≡ section.rofixup bytes.now }
    ensures tests { Reads (λ g. g) result (field.got_tests bytes.now) (field.got_or_zero bytes.now) }
    ensures in_place { IfOk result (λ g. rel.is_in_place loads.now (rel.got_header g) ≡ true) }
{
    check_got(
        loads,
        got_of(bytes, entries, list),
        dynamic_offset_or(bytes, E_PHOFF),
    )
}

/// What the dynamic section says, and the sections.
#[derive(Drop)]
pub struct Dynamic {
    /// The entries of the dynamic section before its NULL.
    entries: Vec<DynEntry>,
    /// Which section lists the fixups.
    list: Option<u16>,
    /// The link address of the GOT.
    got: u32,
}

/// The dynamic section, the list of fixups and the GOT.
#[tactic(auto, using(elf_model::proofs::Tests::passed_over, elf_model::proofs::Tests::fails_first), unfolding(elf_model::specs::Object::dynamic_tests, elf_model::specs::Fields::entries))]
fn read_dynamic(alloc: Global, bytes: &[u8], loads: &[ProgramHeader]) -> Result<Dynamic, ReadErr>
    requires loads { HasLoads bytes.now loads.now }
    ensures tests { ReadsDynamic bytes.now result }
    ensures list { IfOk result (λ d. IfSome d.list (IsFixupList bytes.now)) }
    ensures in_place { IfOk result (λ d. rel.is_in_place loads.now (rel.got_header d.got) ≡ true) }
{
    let entries = dynamic_entries(alloc, bytes, loads)?;
    check_entries(&entries)?;
    let list = read_rofixup(bytes)?;
    let got = read_got(bytes, loads, &entries, list)?;
    Ok(Dynamic { entries, list, got })
}

/// The symbols and the names of objects.
#[derive(Drop)]
pub struct Named {
    /// How many symbols there are, symbol 0 included.
    symbol_count: u32,
    symbols: Symbols,
    /// The names of the objects that it needs.
    needed: Names,
    /// The name that it gives itself.
    soname: Option<Name>,
}

/// The strings, the symbols and the names of objects.
#[tactic(auto, using(elf_model::proofs::Tests::passed_over, elf_model::proofs::Tests::fails_first), unfolding(elf_model::specs::Object::name_tests, elf_model::specs::Fields::strings, elf_model::specs::Fields::symbol_count, elf_model::specs::Fields::symbols_offset, elf_model::specs::Fields::symbols))]
fn read_names(
    alloc: Global,
    bytes: &[u8],
    loads: &[ProgramHeader],
    entries: &[DynEntry],
) -> Result<Named, ReadErr>
    requires loads { HasLoads bytes.now loads.now }
    requires are_entries { entries.now ≡ field.entries bytes.now }
    ensures { ReadsNames bytes.now result }
{
    let strings = read_strings(bytes, loads, entries)?;
    let table = read_symbol_table(bytes, loads, entries, dynamic_offset_or(bytes, E_PHOFF))?;
    let symbols = read_symbols(alloc, bytes, loads, strings, &table)?;
    let needed = read_needed(alloc, strings, entries)?;
    let soname = read_soname(alloc, strings, entries)?;
    Ok(Named {
        symbol_count: table.count,
        symbols,
        needed,
        soname,
    })
}

/// The entries of the two tables of relocations.
#[derive(Drop)]
pub struct Tables {
    /// The entries of DT_REL that are its own.
    own: Vec<RelEntry>,
    /// The entries of DT_JMPREL.
    slots: Vec<RelEntry>,
}

/// Both tables of relocations.
#[tactic(auto, using(elf_model::proofs::Tests::passed_over, elf_model::proofs::Tests::fails_first), unfolding(elf_model::specs::Relocations::both_table_tests))]
fn read_tables(
    alloc: Global,
    bytes: &[u8],
    loads: &[ProgramHeader],
    entries: &[DynEntry],
) -> Result<Tables, ReadErr>
    requires small { length bytes.now < 2 ^ 32 }
    requires in_file { All (segment.InFile (length bytes.now)) loads.now }
    ensures { ReadsTables bytes.now loads.now entries.now result }
{
    let tables = RelTables {
        bytes,
        loads,
        entries,
    };
    let own = tables.own(alloc)?;
    let slots = tables.slots(alloc)?;
    Ok(Tables { own, slots })
}

/// The relocations and the fixups.
#[derive(Drop)]
pub struct Relocations {
    /// Those of DT_REL.
    rels: Rels,
    /// Those of DT_JMPREL.
    jmprels: Rels,
    /// The link addresses that the list of fixups names.
    fixups: Option<Words>,
}

/// The relocations and the fixups, none of which meets another.
#[tactic(auto, using(elf_model::proofs::Tests::passed_over, elf_model::proofs::Tests::fails_first, crate::proofs::Listed::fixup_tests_are), unfolding(elf_model::specs::Object::relocation_tests, elf_model::specs::Fields::rel_entries, elf_model::specs::Fields::jmprel_entries, elf_model::specs::Fields::all_rel_entries, elf_model::specs::Fields::fixups))]
fn read_relocations(
    alloc: Global,
    bytes: &[u8],
    loads: &[ProgramHeader],
    dynamic: &Dynamic,
    symbol_count: u32,
) -> Result<Relocations, ReadErr>
    requires small { length bytes.now < 2 ^ 32 }
    requires long { EHDR_SIZE ≤ length bytes.now }
    requires in_file { All (segment.InFile (length bytes.now)) loads.now }
    requires below { All (λ h. h.vaddr + h.memsz < 2 ^ 32) loads.now }
    requires list { IfSome dynamic.now.list (IsFixupList bytes.now) }
    requires in_place { rel.is_in_place loads.now (rel.got_header dynamic.now.got) ≡ true }
    requires are_loads { loads.now ≡ segment.loads bytes.now }
    requires are_entries { dynamic.now.entries.items ≡ field.entries bytes.now }
    requires is_list { dynamic.now.list ≡ section.rofixup bytes.now }
    requires is_got { dynamic.now.got ≡ field.got_or_zero bytes.now }
    requires is_count { symbol_count ≡ field.symbol_count bytes.now }
    ensures { ReadsRelocations bytes.now result }
{
    let tables = read_tables(alloc, bytes, loads, &dynamic.entries)?;
    let rels = rels_of(alloc, &tables.own)?;
    let jmprels = rels_of(alloc, &tables.slots)?;
    let Tables {
        own: mut all,
        slots,
    } = tables;
    all.extend_from_slice(&slots)?;
    let mut taken = check_relocations(alloc, loads, symbol_count, dynamic.got, &all)?;
    let fixups = read_fixups(alloc, bytes, loads, &mut taken, dynamic.list)?;
    Ok(Relocations {
        rels,
        jmprels,
        fixups,
    })
}

/// The object that the bytes are.
#[tactic(auto, using(elf_model::proofs::Tests::passed_over, elf_model::proofs::Tests::fails_first), unfolding(elf_model::specs::Object::tests, elf_model::specs::Object::object_of))]
fn object(alloc: Global, bytes: &[u8]) -> Result<Object, ReadErr>
    requires { length bytes.now < 2 ^ 32 }
    ensures { Reads (λ o. o) result (spec.tests bytes.now) (spec.object_of bytes.now) }
{
    check_header(bytes)?;
    let loads = read_loads(alloc, bytes)?;
    let dynamic = read_dynamic(alloc, bytes, &loads)?;
    let named = read_names(alloc, bytes, &loads, &dynamic.entries)?;
    let relocations = read_relocations(alloc, bytes, &loads, &dynamic, named.symbol_count)?;
    let segments = segments_of(alloc, bytes, &loads)?;
    let Dynamic {
        entries,
        list: _,
        got,
    } = dynamic;
    let Named {
        symbol_count: _,
        symbols,
        needed,
        soname,
    } = named;
    let Relocations {
        rels,
        jmprels,
        fixups,
    } = relocations;
    Ok(Object {
        kind: kind_of(bytes),
        entry: e_entry(bytes),
        segments,
        got,
        needed,
        soname,
        symbols,
        rels,
        jmprels,
        fixups,
        symbolic: is_symbolic(&entries),
        now: is_now(&entries),
        inits: inits_of(&entries),
    })
}

/// Reads an object from the bytes of its file. `Refused` comes exactly where the bytes are no object, with the first
/// test that they fail.
pub fn read_object(alloc: Global, bytes: &[u8]) -> Result<Object, ReadErr>
    requires { length bytes.now < 2 ^ 32 - 1 }
    ensures read { IsReadAs bytes.now result }

    // Both answers are the only ones, unless memory is wanted.
    ensures only { (o : Object) → IsObject bytes.now o → IsAnswer result (Ok o) }
    ensures first { (r : ElfRefusal) → spec.refusal_of bytes.now ≡ Some r
        → IsAnswer result (Err (Refused r)) }

    ensures sound { IfOk result IsSound }
{
    object(alloc, bytes)
}
