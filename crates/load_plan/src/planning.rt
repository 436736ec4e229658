//! The plan of a load.

ghost use Rattle.std.specs.Prelude.{◌≡◌, ◌<◌, ◌≤◌, Bool, length, All, IfOk, IfErr, OnOk};
ghost use Rattle.symbol_scope.specs.declared.tables.TheConstants.{MAX_MODULES};
ghost use Rattle.load_model.specs.Joined.{flags_of};
ghost use Rattle.load_model.specs.Linkage.{linkage_with};
ghost use Rattle.load_process.specs.parts.TakenObjects.{IsTaken};
ghost use Rattle.load_sites.specs.parts.Values.{IsValues};
ghost use Rattle.load_image.specs.parts.Bounds.{IsMapOf};
ghost use Rattle.load_map.specs.parts.IsLoadMap.{EndsBelow};
ghost use Rattle.load_model.specs.Explains.{Explains};
ghost use Rattle.load_state.specs.Accepted.{AreFinished, IsPlan, placing_by};
ghost use Rattle.load_state.specs.Refused.{IsRefused};
ghost use Rattle.load_map.specs.Maps.{map_at};
ghost use Rattle.load_plan.specs.parts.Tables.{HasTables};
ghost use Rattle.load_plan.specs.parts.Layout.{IsPlannable, loaded_by};
ghost use Rattle.load_plan.specs.parts.LinkedLoad.{AreNew};

use crate::filling::{flags, gots, parts};
use crate::layout::{Layout, Standing, lay_out};
use crate::linking::{Linked, link};
use crate::tables::take_all;
use crate::targets::targets;
use fd_base::{Memory, Name, Store};
use func_desc::DescPool;
use load_image::{Descriptors, Places};
use load_model::{Flags, LoadErr};
use load_process::global_after;
use load_state::{GroupPlan, Parts};
use placement::Ranges;
use std::alloc::AllocError;
use symbol_scope::Tables;

/// The finished bytes of new modules, which are linked and laid out, and whose slots have these flags.
fn finished(
    standing: &Standing,
    pool: &DescPool,
    linked: &Linked,
    layout: &Layout,
    unbound: &[Flags],
) -> Result<Parts, Memory>
    requires modules { length standing.now.process.now.modules ≡ MAX_MODULES }
    requires new { AreNew standing.now.process.now linked.now.joining }
    requires ends { All (All EndsBelow) layout.now.maps }
    requires mapped { All (λ j. IsMapOf j.object.segments (map_at layout.now.maps j.number)) linked.now.joining }
    requires values { IsValues (linkage_with standing.now.process.now linked.now.joining linked.now.scope) linked.now.joining linked.now.values }
    requires flags { length unbound.now ≡ length linked.now.joining }
    ensures { IfOk result (λ parts. (lazy : Bool) → unbound.now ≡ flags_of lazy linked.entry.now.joining
        → AreFinished (linkage_with standing.now.process.now linked.entry.now.joining linked.entry.now.scope)
        (placing_by standing.now.process.now pool.now.addrs linked.entry.now.joining layout.entry.now.maps layout.entry.now.adopted layout.entry.now.given)
        lazy linked.entry.now.joining layout.entry.now.maps parts) }
{
    let alloc = standing.alloc;
    let joining = linked.joining.as_slice();
    let gots = gots(alloc, standing.process, joining)?;
    let adopted = layout.adopted.as_slice();
    let descriptors = Descriptors::new(alloc, pool, adopted, layout.given.as_slice())?;
    let places = Places::new(layout.maps.as_slice(), &gots, &descriptors);
    parts(alloc, &places, joining, unbound, linked.values.as_slice())
}

/// Makes room for so many adoptions. There is never room for 2^32 of them.
fn reserve(pool: &mut DescPool, n: usize) -> Result<(), Memory>
    ensures room { OnOk result (n ≤ pool.new.room) }
    ensures grows { pool.old.room ≤ pool.new.room }
    ensures stays { pool.new ≡ record pool.old { room = pool.new.room } }
{
    match u32::try_from(n) {
        Ok(n) => pool.reserve(n),
        Err(_) => Err(AllocError),
    }
}

/// Which load is asked for.
#[derive(Drop)]
pub struct Request<'a> {
    /// The name of the module.
    pub root: &'a Name,
    /// Whether the global list is to gain the new modules.
    pub global: bool,
    /// Whether slots of the new modules may stay unbound until they are called.
    pub lazy: bool,
}

/// Plans a load: links the module that is asked for and all that it needs, lays it out, and makes the bytes of each new
/// segment. Nothing is loaded: the ranges and the descriptors stay, with room for what the plan adds and never with less
/// than before, and so do the tables of live modules. The plan has those of the new ones, for which there are places.
pub fn plan_group<S: Store>(
    standing: &Standing,
    ranges: &mut Ranges,
    tables: &mut Tables,
    pool: &mut DescPool,
    store: &mut S,
    request: &Request,
) -> Result<GroupPlan, LoadErr>
    requires standing { IsPlannable standing.now ranges.old tables.old pool.old }
    ensures plan { IfOk result (IsPlan (loaded_by standing.now ranges.old pool.old)
        (S.files store.old) request.now.root.now (record { global = request.now.global; lazy = request.now.lazy })) }
    ensures taken { IfOk result (λ p. All (λ j. IsTaken j.object) p.joining) }
    ensures ranges_room { IfOk result (λ p. length p.items ≤ ranges.new.room) }
    ensures pool_room { IfOk result (λ p. length p.adopted ≤ pool.new.room) }
    ensures tables_room { IfOk result (λ p. All (λ j. j.number < tables.new.room) p.joining) }
    ensures error { IfErr result (Explains (IsRefused (loaded_by standing.now ranges.old pool.old)
        (S.files store.old) request.now.root.now) (S.faults store.old) (S.faults store.new)) }
    ensures ranges_grow { ranges.old.room ≤ ranges.new.room }
    ensures pool_grows { pool.old.room ≤ pool.new.room }
    ensures tables_grow { tables.old.room ≤ tables.new.room }
    ensures ranges { ranges.new ≡ record ranges.old { room = ranges.new.room } }
    ensures pool { pool.new ≡ record pool.old { room = pool.new.room } }
    ensures tables { HasTables standing.now.process.now tables.new.slots }
    ensures files { S.files store.new ≡ S.files store.old }
    ensures count { S.faults store.old ≤ S.faults store.new }
{
    let alloc = standing.alloc;
    let linked = link(alloc, standing.process, tables, pool, store, request.root)?;
    let layout = lay_out(standing, ranges, pool, &linked)?;
    let unbound = flags(alloc, request.lazy, linked.joining.as_slice())?;
    let parts = finished(standing, pool, &linked, &layout, unbound.as_slice())?;
    let global = global_after(
        alloc,
        standing.process,
        request.global,
        linked.scope.as_slice(),
    )?;
    let targets = targets(alloc, linked.joining.as_slice(), linked.values.as_slice())?;
    reserve(pool, layout.adopted.len())?;
    let exported = take_all(alloc, tables, standing.process, linked.joining.as_slice())?;
    Ok(GroupPlan {
        root: linked.root,
        joining: linked.joining,
        lazy: request.lazy,
        unbound,
        targets,
        tables: exported,
        scope: linked.scope,
        global,
        items: layout.items,
        addrs: layout.addrs,
        maps: layout.maps,
        adopted: layout.adopted,
        given: layout.given,
        parts,
    })
}
