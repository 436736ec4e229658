//! The walk over the modules that a load adds.

ghost use Rattle.std.specs.Prelude.{◌≡◌, ◌≢◌, ◌≤◌, ◌<◌, ◌+◌, ◌^◌, ◌⊎◌, ℕ, true, map, Contains, slice_get, List, [], ◌∷◌, length, Some, All, AllPairs, IfOk, IfErr, OnOk, None, false};
ghost use Rattle.std.specs.List.{filter_map};
ghost use Rattle.load_process.specs.parts.TakenObjects.{IsTaken};
ghost use Rattle.symbol_scope.specs.declared.tables.TheConstants.{MAX_MODULES};
ghost use Rattle.load_model.specs.Explains.{Explains};
ghost use Rattle.load_model.specs.Process.{free_numbers, is_live, number_of};
ghost use Rattle.load_model.specs.Walk.{number_among, IsWalk, IsWalkRefused};
ghost use Rattle.load_process.specs.parts.WalkSteps.{IsNumbered};

use crate::added::Walk;
use crate::found::{add_new, add_one};
use crate::numbers::{free_numbers, needed_by};
use crate::step::look_at;
use fd_base::{Memory, Name, Numbers, Seq, Store};
use indexmap::IndexSet;
use load_model::{Joining, LoadErr, SymbolicProcess};
use std::alloc::Global;

/// The name of the root alone.
fn first(alloc: Global, root: &Name) -> Result<IndexSet<Name>, Memory>
    ensures { IfOk result (λ names. names.keys ≡ root.now ∷ []) }
{
    let mut names = IndexSet::new(alloc);
    add_one(alloc, &mut names, root)?;
    Ok(names)
}

fn name_at(names: &IndexSet<Name>, place: usize) -> &Name
    requires { place < length names.now.keys }
    ensures { slice_get names.now.keys place ≡ Some result.now }
{
    &names.as_slice()[place]
}

/// How far a walk has come.
#[derive(Drop)]
struct Steps {
    /// The names that were found, each once, in the order of the walk.
    names: IndexSet<Name>,
    /// How many of them were looked at.
    next: usize,
    /// The new modules among those, in order.
    joining: Seq<Joining>,
    /// The module numbers of all of those, in order.
    members: Numbers,
}

/// Looks at one more name.
fn advance<S: Store>(
    alloc: Global,
    process: &SymbolicProcess,
    store: &mut S,
    free: &[u32],
    steps: &mut Steps,
) -> Result<(), LoadErr>
    requires sizes { length process.now.modules ≤ MAX_MODULES }
    requires free { free.now ≡ free_numbers process.now }
    requires within { steps.old.next < length steps.old.names.keys }
    requires small { steps.old.next < 2 ^ 63 }
    requires sound { All (λ j. IsTaken j.object) steps.old.joining }
    ensures numbered { OnOk result ((root : List ℕ)
        → IsNumbered process.now (S.files store.old) root steps.old.next steps.old.joining steps.old.names.keys steps.old.members
        → IsNumbered process.now (S.files store.old) root (steps.old.next + 1) steps.new.joining steps.new.names.keys steps.new.members) }
    ensures next { OnOk result (steps.new.next ≡ steps.old.next + 1) }
    ensures sound { OnOk result (All (λ j. IsTaken j.object) steps.new.joining) }
    ensures error { IfErr result (λ e. (root : List ℕ)
        → IsNumbered process.now (S.files store.old) root steps.old.next steps.old.joining steps.old.names.keys steps.old.members
        → Explains (IsWalkRefused process.now (S.files store.old) root) (S.faults store.old) (S.faults store.new) e) }
    ensures files { S.files store.new ≡ S.files store.old }
    ensures count { S.faults store.old ≤ S.faults store.new }
{
    let next = steps.next;
    let number = look_at(
        alloc,
        process,
        store,
        free,
        name_at(&steps.names, next),
        &mut steps.joining,
    )?;
    steps.members.push(number)?;
    let name = name_at(&steps.names, next);
    let needed = needed_by(process, steps.joining.as_slice(), name);
    add_new(alloc, &mut steps.names, needed)?;
    steps.next = next + 1;
    Ok(())
}

/// The whole walk, whose names are as many as its members.
fn walked<S: Store>(
    alloc: Global,
    process: &SymbolicProcess,
    store: &mut S,
    root: &Name,
) -> Result<Walk, LoadErr>
    requires sizes { length process.now.modules ≤ MAX_MODULES }
    ensures walk { IfOk result (λ w. (names : List (List ℕ)) × IsNumbered process.now (S.files store.old) root.now (length names) w.joining names w.members) }
    ensures sound { IfOk result (λ w. All (λ j. IsTaken j.object) w.joining) }
    ensures error { IfErr result (Explains (IsWalkRefused process.now (S.files store.old) root.now) (S.faults store.old) (S.faults store.new)) }
    ensures files { S.files store.new ≡ S.files store.old }
    ensures count { S.faults store.old ≤ S.faults store.new }
{
    let free = free_numbers(alloc, process)?;
    let names = first(alloc, root)?;
    let mut steps = Steps {
        names,
        next: 0,
        joining: Seq::new(alloc),
        members: Seq::new(alloc),
    };
    while steps.next < steps.names.len() {
        advance(alloc, process, store, free.as_slice(), &mut steps)?;
    }
    Ok(Walk {
        joining: steps.joining,
        members: steps.members,
    })
}

/// The modules that a load of the root adds, breadth first over the names that each needs in table order, each once.
/// New modules get the lowest free numbers in this order. Only the files of new modules are fetched. The walk is refused
/// at its first new name that has no number (`TooManyModules`), or whose file is too long (`TooLong`), isn't there
/// (`NoFile`) or is no object (`Elf`).
pub fn walk<S: Store>(
    alloc: Global,
    process: &SymbolicProcess,
    store: &mut S,
    root: &Name,
) -> Result<Walk, LoadErr>
    requires sizes { length process.now.modules ≤ MAX_MODULES }
    ensures walk { IfOk result (λ w. (names : List (List ℕ)) × IsWalk process.now (S.files store.old) root.now w.joining names
        × (w.members ≡ filter_map (number_among process.now w.joining) names) × (length w.members ≡ length names)) }
    ensures sound { IfOk result (λ w. All (λ j. IsTaken j.object) w.joining) }
    ensures some { IfOk result (λ w. 1 ≤ length w.members) }
    ensures root { IfOk result (λ w. slice_get w.members 0 ≡ number_among process.now w.joining root.now) }
    ensures known { IfOk result (λ w. All (λ m. (is_live process.now m ≡ true) ⊎ Contains (map (λ j. j.number) w.joining) m) w.members) }
    ensures members { IfOk result (λ w. All (λ m. m < MAX_MODULES) w.members) }
    ensures members_once { IfOk result (λ w. AllPairs (λ m n. m ≢ n) w.members) }
    ensures numbers { IfOk result (λ w. All (λ j. j.number < MAX_MODULES) w.joining) }
    ensures numbers_once { IfOk result (λ w. AllPairs (λ j k. j.number ≢ k.number) w.joining) }
    ensures free { IfOk result (λ w. All (λ j. is_live process.now j.number ≡ false) w.joining) }
    ensures names_once { IfOk result (λ w. AllPairs (λ j k. j.name ≢ k.name) w.joining) }
    ensures new { IfOk result (λ w. All (λ j. number_of process.now j.name ≡ None) w.joining) }
    ensures error { IfErr result (Explains (IsWalkRefused process.now (S.files store.old) root.now) (S.faults store.old) (S.faults store.new)) }
    ensures files { S.files store.new ≡ S.files store.old }
    ensures count { S.faults store.old ≤ S.faults store.new }
{
    walked(alloc, process, store, root)
}
