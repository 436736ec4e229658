//! The tables in which names are looked up.

ghost use Rattle.std.specs.Prelude.{◌≡◌, ◌<◌, ◌≤◌, ◌^◌, ℕ, List, None, length, slice_set, All, IfOk, OnOk};
ghost use Rattle.elf_model.specs.declared.constants.TheConstants.{MAX_ENTRIES};
ghost use Rattle.symbol_scope.specs.declared.tables.TheConstants.{MAX_MODULES};
ghost use Rattle.load_model.specs.Process.{object_at};
ghost use Rattle.load_model.specs.Linkage.{linkage_with};
ghost use Rattle.load_laws.specs.parts.Premises.{HaveOwnNumbers, HasFreeNumber};
ghost use Rattle.symbol_scope.specs.Table.{table_of};
ghost use Rattle.load_state.specs.Accepted.{tables_of};
ghost use Rattle.load_plan.specs.parts.Tables.{AreTables, HasTable, HasTables};

use fd_base::{Memory, Seq};
use load_model::{Joining, MAX_MODULES, SymbolicProcess};
use std::alloc::Global;
use symbol_scope::{Table, Tables};

/// Takes out the tables that an earlier plan left behind.
pub fn drop_others(tables: &mut Tables, process: &SymbolicProcess)
    requires live { HasTables process.now tables.old.slots }
    requires sizes { length process.now.modules ≤ MAX_MODULES }
    ensures dropped { AreTables (object_at process.now) tables.new.slots }
    ensures room { tables.new.room ≡ tables.old.room }
{
    for m in 0..MAX_MODULES {
        if !process.is_live(m) {
            tables.remove(m);
        }
    }
}

/// Adds the tables of new modules.
pub fn add_all(
    tables: &mut Tables,
    process: &SymbolicProcess,
    joining: &[Joining],
) -> Result<(), Memory>
    requires tables { AreTables (object_at process.now) tables.old.slots }
    requires numbers { HaveOwnNumbers joining.now }
    requires free { All (HasFreeNumber process.now) joining.now }
    requires few { All (λ j. length j.object.symbols ≤ MAX_ENTRIES) joining.now }
    ensures added { OnOk result ((scope : List ℕ) → AreTables (linkage_with process.now joining.now scope).objects tables.new.slots) }
    ensures each { OnOk result (All (HasTable tables.new.slots) joining.now) }
    ensures room { OnOk result (All (λ j. j.number < tables.new.room) joining.now) }
    ensures live { HasTables process.now tables.new.slots }
    ensures grows { tables.old.room ≤ tables.new.room }
{
    for new in joining {
        tables.add(new.number, &new.name, &new.object)?;
    }
    Ok(())
}

/// Takes the table of a new module out.
fn take_of(tables: &mut Tables, new: &Joining) -> Table
    requires { HasTable tables.old.slots new.now }
    ensures table { result ≡ table_of new.now.name new.now.object }
    ensures left { tables.new.slots ≡ slice_set tables.old.slots new.now.number None }
    ensures room { tables.new.room ≡ tables.old.room }
{
    let Some(table) = tables.take(new.number) else {
        unreachable!();
    };
    table
}

/// Takes the tables of new modules out, in order. Those of live modules stay, and so do the places. Without memory some
/// tables of new modules may be left.
pub fn take_all(
    alloc: Global,
    tables: &mut Tables,
    process: &SymbolicProcess,
    joining: &[Joining],
) -> Result<Seq<Table>, Memory>
    requires numbers { HaveOwnNumbers joining.now }
    requires free { All (HasFreeNumber process.now) joining.now }
    requires each { All (HasTable tables.old.slots) joining.now }
    requires live { HasTables process.now tables.old.slots }
    ensures taken { IfOk result (λ taken. taken ≡ tables_of joining.now) }
    ensures live { HasTables process.now tables.new.slots }
    ensures room { tables.new.room ≡ tables.old.room }
{
    let mut taken = Seq::new(alloc);
    for new in joining {
        taken.push(take_of(tables, new))?;
    }
    Ok(taken)
}
