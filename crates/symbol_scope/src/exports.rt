//! The exported names of one object.

ghost use Rattle.std.specs.Prelude.{◌≡◌, ◌++◌, ◌∷◌, [], ◌≤◌, ◌^◌, length, option_to_list, IfOk, OnOk};
ghost use Rattle.std.specs.Str.{bytes_eq};
ghost use Rattle.std.specs.FinMap.{get};
ghost use Rattle.symbol_scope.specs.Exported.{is_exported};
ghost use Rattle.symbol_scope.specs.Exports.{export_entry, export_map, exports_of};

use elf_model::constants::{
    STB_GLOBAL, STB_WEAK, STT_FILE, STT_SECTION, STV_DEFAULT, STV_PROTECTED,
};
use elf_model::{Place, Symbol};
use fd_base::{Memory, Name};
use indexmap::IndexMap;
use std::alloc::Global;
use std::marker::Model;

/// Whether other objects can refer to the symbol by its name.
#[tactic(auto, unfolding(crate::specs::Exported::is_exported))]
pub fn is_exported(symbol: &Symbol) -> bool
    ensures { result ≡ is_exported symbol.now }
{
    symbol.name.is_some()
        && matches!(symbol.binding, STB_GLOBAL | STB_WEAK)
        && matches!(symbol.place, Place::Here | Place::Absolute)
        && matches!(symbol.visibility, STV_DEFAULT | STV_PROTECTED)
        && !matches!(symbol.kind, STT_SECTION | STT_FILE)
}

/// Whether two names are one.
pub(crate) fn is_same(a: &Name, b: &Name) -> bool
    ensures { result ≡ bytes_eq a.now b.now }
{
    a.as_slice() == b.as_slice()
}

/// Names with numbers.
type Index = IndexMap<Name, u32>;

/// The exported names of an object, each with the number of its first definition.
#[derive(Drop)]
pub struct Exports {
    index: Index,
}

impl Model for Exports {
    ghost use Rattle.symbol_scope.specs.Exports.{ExportMap, export_map_code, export_map};

    ghost Value = { ExportMap };

    ghost coded = { export_map_code };

    ghost view = { λ e. export_map e.index.entries };
}

impl Exports {
    /// The exported names among an object's symbols.
    pub fn of(alloc: Global, symbols: &[Symbol]) -> Result<Exports, Memory>
        requires { length symbols.now ≤ 2 ^ 32 }
        ensures { IfOk result (λ e. e ≡ exports_of symbols.now) }
    {
        let index = indexed(alloc, symbols)?;
        Ok(Exports { index })
    }

    /// The number of the first exported definition of a name.
    pub fn get(&self, name: &Name) -> Option<u32>
        ensures { result ≡ get self.now name.now }
    {
        self.index.get(name).copied()
    }
}

/// Enters a name. One that is there keeps its number.
fn enter(alloc: Global, index: &mut Index, name: &Name, number: u32) -> Result<(), Memory>
    ensures { OnOk result (export_map index.new.entries ≡ export_map (index.old.entries ++ (name.now, number) ∷ [])) }
{
    if index.contains_key(name) {
        return Ok(());
    }
    let name = name.copy(alloc)?;
    index.insert(name, number)?;
    Ok(())
}

fn add_entry(alloc: Global, index: &mut Index, number: u32, symbol: &Symbol) -> Result<(), Memory>
    ensures { OnOk result (export_map index.new.entries ≡ export_map (index.old.entries ++ option_to_list (export_entry (number, symbol.now)))) }
{
    if !is_exported(symbol) {
        return Ok(());
    }
    match &symbol.name {
        Some(name) => enter(alloc, index, name, number),
        None => Ok(()),
    }
}

fn indexed(alloc: Global, symbols: &[Symbol]) -> Result<Index, Memory>
    requires { length symbols.now ≤ 2 ^ 32 }
    ensures { IfOk result (λ index. export_map index.entries ≡ exports_of symbols.now) }
{
    let mut index = IndexMap::new(alloc);
    for (i, symbol) in symbols.iter().enumerate() {
        add_entry(alloc, &mut index, i as u32, symbol)?;
    }
    Ok(index)
}
