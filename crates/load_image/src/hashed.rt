//! Addresses of functions in a hashed table.

ghost use Rattle.std.specs.Prelude.{◌≡◌, Some, None, OnOk, if◌then◌else◌};
ghost use Rattle.std.specs.Option.{option_or};
ghost use Rattle.elf_model.specs.declared.func.Func.{Func};
ghost use Rattle.load_model.specs.Descriptors.{is_same_func, listed_addr};
ghost use Rattle.load_image.specs.parts.Table.{hashed_addr};

use elf_model::Func;
use fd_base::Memory;
use std::alloc::AllocError;
use std::collections::HashMap;

/// Addresses by module number and link address.
pub type Hashed = HashMap<(u32, u32), u32>;

/// The address of a function.
pub fn addr_of(table: &Hashed, f: &Func) -> Option<u32>
    ensures { result ≡ hashed_addr table.now f.now }
{
    table.get(&(f.module, f.value)).copied()
}

/// Enters the address of a function that has none.
fn enter(table: &mut Hashed, f: &Func, addr: u32) -> Result<(), Memory>
    ensures { OnOk result ((q : Func) → hashed_addr table.new q
        ≡ option_or (hashed_addr table.old q) (if is_same_func q f.now then Some addr else None)) }
{
    if addr_of(table, f).is_some() {
        return Ok(());
    }
    match table.insert((f.module, f.value), addr) {
        Ok(_) => Ok(()),
        Err(_) => Err(AllocError),
    }
}

/// Enters the addresses of functions that have none. Of several entries of one function the first counts.
pub fn enter_all(table: &mut Hashed, entries: &[(Func, u32)]) -> Result<(), Memory>
    ensures { OnOk result ((q : Func) → hashed_addr table.new q
        ≡ option_or (hashed_addr table.old q) (listed_addr entries.now q)) }
{
    for entry in entries {
        enter(table, &entry.0, entry.1)?;
    }
    Ok(())
}
