//! The loader.

ghost use Rattle.std.specs.Prelude.{◌≡◌, [], replicate, IfOk};
ghost use Rattle.symbol_scope.specs.declared.tables.TheConstants.{MAX_MODULES};

use crate::descriptors::{adopt_all, give_all};
use crate::slots::slot_pair;
use crate::tables::put_tables;
use crate::targets::put_targets;
use fd_base::{Memory, Name, Seq, Store};
use func_desc::DescPool;
use guest_mem::Guest;
use load_memory::new_memory;
use load_model::{LoadErr, MAX_MODULES, Maps, MemPlan, SlotPair, SymbolicProcess};
use load_places::{put_descriptors, put_modules};
use load_plan::{Request, Standing, plan_group};
use load_process::{join, new_process};
use load_state::{GroupPlan, Targets};
use placement::Ranges;
use std::alloc::Global;
use std::marker::Model;
use symbol_scope::Tables;

/// One process: its memory plan, its modules, where they are placed, and their memory.
#[derive(Drop)]
pub struct Loader {
    alloc: Global,
    pub(crate) plan: MemPlan,
    pub(crate) process: SymbolicProcess,
    pub(crate) maps: Maps,
    pub(crate) ranges: Ranges,
    pub(crate) pool: DescPool,
    /// The exported names of the live modules. Those of new modules that a refused load read may stand beside them.
    tables: Tables,
    /// The function of each slot, by the number of its module.
    pub(crate) targets: Vec<Targets>,
    pub(crate) guest: Guest,
}

impl Model for Loader {
    ghost use Rattle.std.specs.Coded.{codes};
    ghost use Rattle.func_desc.specs.Functions.{addr_map_code};
    ghost use Rattle.load_state.specs.Loaded.{LoaderState};
    ghost use Rattle.mod_load.specs.parts.Fit.{IsFit};

    ghost Value = { LoaderState };

    ghost coded = { Prim.hlevel (codes, addr_map_code) };

    ghost view = { λ l. record {
      loaded = record {
        modules = record { plan = l.plan; process = l.process; maps = l.maps; held = l.ranges.held; addrs = l.pool.addrs };
        memory = l.guest;
      };
      range_room = l.ranges.room;
      descriptor_room = l.pool.room;
      table_room = l.tables.room;
    } };

    ghost invariant = { λ l. IsFit l.plan l.process l.ranges l.pool l.tables l.targets.items };
}

impl Loader {
    ghost use Rattle.std.specs.Prelude.{◌≡◌, ◌≤◌, false, IfErr, IfOk, option_map};
    ghost use Rattle.load_model.specs.Explains.{Explains};
    ghost use Rattle.load_model.specs.Plan.{Fits};
    ghost use Rattle.load_model.specs.Process.{live_at};
    ghost use Rattle.load_state.specs.Accepted.{IsPlan};
    ghost use Rattle.load_state.specs.Committed.{IsCommitted};
    ghost use Rattle.load_state.specs.Consistent.{IsConsistent};
    ghost use Rattle.load_state.specs.Loaded.{IsUnchanged};
    ghost use Rattle.load_state.specs.declared.plan.GroupPlan.{GroupPlan};
    ghost use Rattle.load_state.specs.ProgramLoad.{IsNew};
    ghost use Rattle.load_state.specs.Refused.{IsRefused};
    ghost use Rattle.load_state.specs.Slots.{slot_pair_of};
    ghost use Rattle.mod_load.specs.parts.ReadyPlans.{MayCommit};

    /// A process without modules over a memory plan that fits. All of the guest's memory is taken here.
    pub fn new(alloc: Global, plan: &MemPlan) -> Result<Loader, Memory>
        requires { Fits plan.now }
        ensures { IfOk result (λ l. IsNew plan.now l.loaded) }
    {
        let process = new_process(alloc)?;
        let maps: Maps = empty_lists(alloc)?;
        let ranges = Ranges::new(alloc, plan.low(), plan.high())?;
        let pool = DescPool::new(alloc, plan.descriptors_at(), plan.descriptors)?;
        let tables = Tables::new(alloc);
        let targets: Seq<Targets> = empty_lists(alloc)?;
        let guest = new_memory(alloc, plan)?;
        Ok(Loader {
            alloc,
            plan: plan.copy(alloc)?,
            process,
            maps,
            ranges,
            pool,
            tables,
            targets: targets.into_vec(),
            guest,
        })
    }

    /// Plans the load of the module of this name and of all that it needs. Nothing is loaded before `commit`: the
    /// process stays, whatever the answer, and so each earlier plan that may be committed still may. With `global` the
    /// global list is to gain the new modules. With `lazy` slots are left unbound until their first calls; that these
    /// are then bound is not built yet.
    pub fn plan_group<S: Store>(
        &mut self,
        store: &mut S,
        root: &Name,
        lazy: bool,
        global: bool,
    ) -> Result<GroupPlan, LoadErr>
        requires consistent { IsConsistent self.old.loaded }
        requires eager { lazy ≡ false }
        ensures plan { IfOk result (IsPlan self.old.loaded.modules (S.files store.old) root.now (record { global = global; lazy = lazy })) }
        ensures ready { IfOk result (MayCommit self.new) }
        ensures earlier { (plan : GroupPlan) → MayCommit self.old plan → MayCommit self.new plan }
        ensures error { IfErr result (Explains (IsRefused self.old.loaded.modules (S.files store.old) root.now)
            (S.faults store.old) (S.faults store.new)) }
        ensures stays { IsUnchanged self.old self.new }
        ensures consistent { IsConsistent self.new.loaded }
        ensures files { S.files store.new ≡ S.files store.old }
        ensures count { S.faults store.old ≤ S.faults store.new }
    {
        self.guest.whole();
        let standing = Standing {
            alloc: self.alloc,
            plan: &self.plan,
            process: &self.process,
            maps: self.maps.as_slice(),
        };
        plan_group(
            &standing,
            &mut self.ranges,
            &mut self.tables,
            &mut self.pool,
            store,
            &Request { root, global, lazy },
        )
    }

    /// Does a load as it was planned, and answers the number of the module that was asked for. Takes no memory, and
    /// can't fail.
    pub fn commit(&mut self, plan: GroupPlan) -> u32
        requires consistent { IsConsistent self.old.loaded }
        requires ready { MayCommit self.old plan }
        ensures number { result ≡ plan.root }
        ensures committed { IsCommitted self.old.loaded plan self.new.loaded }
        ensures consistent { IsConsistent self.new.loaded }
    {
        let GroupPlan {
            root,
            joining,
            lazy: _,
            unbound,
            targets,
            tables,
            scope,
            global,
            items,
            addrs,
            maps,
            adopted,
            given,
            parts,
        } = plan;
        self.guest.whole();
        put_modules(
            &mut self.guest,
            joining.as_slice(),
            maps.as_slice(),
            parts.as_slice(),
        );
        put_tables(&mut self.tables, joining.as_slice(), tables);
        put_targets(&mut self.targets, joining.as_slice(), targets);
        join(&mut self.process, joining, unbound, scope, global);
        put_descriptors(
            &mut self.guest,
            &self.process,
            maps.as_slice(),
            given.as_slice(),
        );
        self.ranges.take(&items, &addrs);
        adopt_all(&mut self.pool, adopted.as_slice());
        give_all(&mut self.pool, given.as_slice());
        self.maps = maps;
        root
    }

    /// What slot `k` of module `m` holds, both counted from 0. None exactly where there is no such module or slot.
    pub fn slot_pair(&self, m: u32, k: u32) -> Option<SlotPair>
        requires { IsConsistent self.now.loaded }
        ensures { result ≡ slot_pair_of self.now.loaded.modules.process self.now.loaded.modules.maps m k }
    {
        self.guest.whole();
        slot_pair(&self.process, self.maps.as_slice(), &self.guest, m, k)
    }

    /// The name of a live module.
    pub fn module_name(&self, m: u32) -> Option<&Name>
        ensures { option_map (λ name. name.now) result
            ≡ option_map (λ live. live.name) (live_at self.now.loaded.modules.process m) }
    {
        self.process.name_at(m)
    }
}

/// A list without values for each number.
fn empty_lists<T: Drop>(alloc: Global) -> Result<Seq<Seq<T>>, Memory>
    ensures { IfOk result (λ lists. lists ≡ replicate MAX_MODULES []) }
{
    let mut lists = Seq::new(alloc);
    for _ in 0..MAX_MODULES {
        lists.push(Seq::new(alloc))?;
    }
    Ok(lists)
}
