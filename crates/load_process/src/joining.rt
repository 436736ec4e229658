//! Processes before the first load and after each.

ghost use Rattle.std.specs.Prelude.{◌≡◌, ◌<◌, ℕ, Bool, true, [], length, replicate, set, Some, None, All, IfOk};
ghost use Rattle.symbol_scope.specs.declared.tables.TheConstants.{MAX_MODULES};
ghost use Rattle.load_model.specs.Joined.{flags_of, is_empty, live_from, modules_after, group_of, groups_after, process_after};
ghost use Rattle.load_model.specs.Unbound.{unbound_at_first};
ghost use Rattle.load_model.specs.Validity.{IsValid};

use fd_base::{Memory, Numbers, Seq};
use load_model::{Flags, Group, Groups, Joining, Live, MAX_MODULES, Modules, SymbolicProcess};
use std::alloc::Global;
use std::mem;

/// A place for each number, with nothing in it.
fn places<T: Drop>(alloc: Global) -> Result<Seq<Option<T>>, Memory>
    ensures { IfOk result (λ places. places ≡ replicate MAX_MODULES None) }
{
    let mut places = Seq::new(alloc);
    for _ in 0..MAX_MODULES {
        places.push(None)?;
    }
    Ok(places)
}

/// A process without modules.
pub fn new_process(alloc: Global) -> Result<SymbolicProcess, Memory>
    ensures valid { IfOk result (λ p. IsValid p) }
    ensures empty { IfOk result (λ p. is_empty p ≡ true) }
    ensures global { IfOk result (λ p. p.global ≡ []) }
{
    Ok(SymbolicProcess {
        modules: places(alloc)?,
        groups: places(alloc)?,
        global: Seq::new(alloc),
    })
}

fn group_of(joining: &[Joining]) -> u32
    ensures { result ≡ group_of joining.now }
{
    match joining.first() {
        Some(first) => first.number,
        None => 0,
    }
}

/// Puts a new module of a group into its place, with the flags of its slots.
fn put_module(modules: &mut Vec<Option<Live>>, group: u32, new: Joining, unbound: Flags)
    requires { new.number < length modules.old.items }
    ensures count { length modules.new.items ≡ length modules.old.items }
    ensures put { (lazy : Bool) → unbound ≡ unbound_at_first lazy new.object
        → modules.new.items ≡ set modules.old.items new.number (Some (live_from lazy group new)) }
{
    let Joining {
        number,
        name,
        object,
    } = new;
    modules[number as usize] = Some(Live {
        name,
        object,
        group,
        opens: 0,
        unbound,
    });
}

/// Puts new modules of a group into their places, in order, each with the flags of its slots.
fn put_modules(
    modules: &mut Vec<Option<Live>>,
    group: u32,
    joining: Vec<Joining>,
    unbound: Vec<Flags>,
)
    requires numbers { All (λ j. j.number < length modules.old.items) joining.items }
    requires flags { length unbound.items ≡ length joining.items }
    ensures { (lazy : Bool) → unbound.items ≡ flags_of lazy joining.items
        → modules.new.items ≡ modules_after modules.old.items lazy group joining.items }
{
    let mut flags = unbound.into_iter();
    for new in joining {
        let Some(own) = flags.next() else {
            unreachable!();
        };
        put_module(modules, group, new, own);
    }
}

/// Puts the group of new modules into the place of the first one.
fn put_group(groups: &mut Vec<Option<Group>>, joining: &[Joining], scope: Numbers)
    requires { All (λ j. j.number < length groups.old.items) joining.now }
    ensures { groups.new.items ≡ groups_after groups.old.items joining.now scope }
{
    if let Some(first) = joining.first() {
        groups[first.number as usize] = Some(Group { scope });
    }
}

/// Puts new modules with the flags of their slots into the places of their numbers, as one group of this scope, and sets
/// the global list. Where a place has a module already, that one is dropped. Takes no memory.
pub fn join(
    process: &mut SymbolicProcess,
    joining: Seq<Joining>,
    unbound: Seq<Flags>,
    scope: Numbers,
    global: Numbers,
)
    requires modules { length process.old.modules ≡ MAX_MODULES }
    requires groups { length process.old.groups ≡ MAX_MODULES }
    requires numbers { All (λ j. j.number < MAX_MODULES) joining }
    requires flags { length unbound ≡ length joining }
    ensures { (lazy : Bool) → unbound ≡ flags_of lazy joining
        → process.new ≡ process_after process.old lazy joining scope global }
{
    let joining = joining.into_vec();
    let alloc = *joining.allocator();
    let group = group_of(&joining);
    let mut groups = mem::replace(&mut process.groups, Seq::new(alloc)).into_vec();
    put_group(&mut groups, &joining, scope);
    process.groups = Seq::from_vec(groups);
    let mut modules = mem::replace(&mut process.modules, Seq::new(alloc)).into_vec();
    put_modules(&mut modules, group, joining, unbound.into_vec());
    process.modules = Seq::from_vec(modules);
    process.global = global;
}
