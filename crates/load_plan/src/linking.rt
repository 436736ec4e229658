//! What is linked in a load.

ghost use Rattle.std.specs.Prelude.{◌≡◌, ◌<◌, ◌≤◌, ℕ, List, length, slice_get, Some, None, All, IfOk, IfErr};
ghost use Rattle.elf_model.specs.Sound.{IsSound};
ghost use Rattle.symbol_scope.specs.declared.tables.TheConstants.{MAX_MODULES};
ghost use Rattle.load_model.specs.Explains.{Explains};
ghost use Rattle.load_model.specs.Linkage.{linkage_with, members_of, closure_of};
ghost use Rattle.load_model.specs.Walk.{IsWalk, IsWalkRefused, number_among};
ghost use Rattle.load_model.specs.Descriptors as spec;
ghost use Rattle.load_model.specs.Sites.{first_refusal};
ghost use Rattle.std.specs.FinMap.{get};
ghost use Rattle.load_plan.specs.parts.Tables.{AreTables, HasTable, HasTables};
ghost use Rattle.load_sites.specs.parts.Linker.{IsReady, linkage};
ghost use Rattle.load_sites.specs.parts.Answers.{Tells};
ghost use Rattle.load_sites.specs.parts.Values.{IsValues};
ghost use Rattle.load_plan.specs.parts.LinkedLoad.{AreNew, HasFewSymbols, IsLinked, IsUnlinked};

use crate::tables::{add_all, drop_others};
use elf_model::Func;
use fd_base::{Name, Numbers, Seq, Store};
use func_desc::DescPool;
use load_model::{Joining, LoadErr, SymbolicProcess};
use load_process::{Walk, scope_with, walk};
use load_sites::{Linker, Privates, Values};
use std::alloc::Global;
use symbol_scope::Tables;

/// What a load links.
#[derive(Drop)]
pub struct Linked {
    /// The number of the module that is asked for.
    pub root: u32,
    /// The new modules in the order in which they were found.
    pub joining: Seq<Joining>,
    /// Their scope.
    pub scope: Numbers,
    /// What is written at their sites.
    pub values: Seq<Values>,
    /// Their own descriptors.
    pub privates: Privates,
    /// The functions that need a slot.
    pub wanted: Seq<Func>,
}

/// What is written at the sites of new modules, and which descriptors they have and need.
#[derive(Drop)]
struct Resolved {
    values: Seq<Values>,
    privates: Privates,
    wanted: Seq<Func>,
}

fn resolve(alloc: Global, linker: &Linker, pool: &DescPool) -> Result<Resolved, LoadErr>
    requires ready { IsReady linker.now }
    requires sound { All (λ j. IsSound j.object) linker.now.joining.now }
    ensures values { IfOk result (λ r. IsValues (linkage linker.now) linker.now.joining.now r.values) }
    ensures filled { IfOk result (λ r. first_refusal (linkage linker.now) (members_of linker.now.joining.now) ≡ None) }
    ensures privates { IfOk result (λ r. r.privates ≡ spec.privates (linkage linker.now) (members_of linker.now.joining.now)) }
    ensures wanted { IfOk result (λ r. r.wanted ≡ spec.wanted (linkage linker.now) (get pool.now.addrs) (members_of linker.now.joining.now)) }
    ensures error { IfErr result (Tells (λ x. first_refusal (linkage linker.now) (members_of linker.now.joining.now) ≡ Some x)) }
{
    let values = linker.values(alloc)?;
    let privates = linker.privates(alloc, values.as_slice())?;
    let wanted = linker.wanted(alloc, pool, privates.as_slice(), values.as_slice())?;
    Ok(Resolved {
        values,
        privates,
        wanted,
    })
}

/// The modules that a load adds, with their exported names entered.
fn enter<S: Store>(
    alloc: Global,
    process: &SymbolicProcess,
    tables: &mut Tables,
    store: &mut S,
    root: &Name,
) -> Result<Walk, LoadErr>
    requires sizes { length process.now.modules ≡ MAX_MODULES }
    requires tables { HasTables process.now tables.old.slots }
    ensures walk { IfOk result (λ w. (names : List (List ℕ)) × IsWalk process.now (S.files store.old) root.now w.joining names
        × (w.members ≡ closure_of process.now w.joining names)) }
    ensures root { IfOk result (λ w. slice_get w.members 0 ≡ number_among process.now w.joining root.now) }
    ensures some { IfOk result (λ w. 1 ≤ length w.members) }
    ensures new { IfOk result (λ w. AreNew process.now w.joining) }
    ensures entered { IfOk result (λ w. (scope : List ℕ) → AreTables (linkage_with process.now w.joining scope).objects tables.new.slots) }
    ensures each { IfOk result (λ w. All (HasTable tables.new.slots) w.joining) }
    ensures room { IfOk result (λ w. All (λ j. j.number < tables.new.room) w.joining) }
    ensures tables { HasTables process.now tables.new.slots }
    ensures grows { tables.old.room ≤ tables.new.room }
    ensures error { IfErr result (Explains (IsWalkRefused process.now (S.files store.old) root.now) (S.faults store.old) (S.faults store.new)) }
    ensures files { S.files store.new ≡ S.files store.old }
    ensures count { S.faults store.old ≤ S.faults store.new }
{
    drop_others(tables, process);
    let found = walk(alloc, process, store, root)?;
    add_all(tables, process, found.joining.as_slice())?;
    Ok(found)
}

/// Links the module of this name and all that it needs to the modules of a process. Each new module has a number, a
/// scope, and a value for each site; nothing is placed. The process stays, its modules keep their tables, and each new one
/// has its own.
pub fn link<S: Store>(
    alloc: Global,
    process: &SymbolicProcess,
    tables: &mut Tables,
    pool: &DescPool,
    store: &mut S,
    root: &Name,
) -> Result<Linked, LoadErr>
    requires sizes { length process.now.modules ≡ MAX_MODULES }
    requires tables { HasTables process.now tables.old.slots }
    requires few { HasFewSymbols process.now }
    ensures linked { IfOk result (IsLinked process.now pool.now.addrs (S.files store.old) root.now) }
    ensures each { IfOk result (λ l. All (HasTable tables.new.slots) l.joining) }
    ensures room { IfOk result (λ l. All (λ j. j.number < tables.new.room) l.joining) }
    ensures tables { HasTables process.now tables.new.slots }
    ensures grows { tables.old.room ≤ tables.new.room }
    ensures error { IfErr result (Explains (IsUnlinked process.now (S.files store.old) root.now) (S.faults store.old) (S.faults store.new)) }
    ensures files { S.files store.new ≡ S.files store.old }
    ensures count { S.faults store.old ≤ S.faults store.new }
{
    let Walk { joining, members } = enter(alloc, process, tables, store, root)?;
    let scope = scope_with(alloc, process, members.as_slice())?;
    let linker = Linker {
        process,
        joining: joining.as_slice(),
        scope: &scope,
        tables,
    };
    let Resolved {
        values,
        privates,
        wanted,
    } = resolve(alloc, &linker, pool)?;
    Ok(Linked {
        root: members.as_slice()[0],
        joining,
        scope,
        values,
        privates,
        wanted,
    })
}
