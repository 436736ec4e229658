//! The slots that functions get, and the finished bytes of new modules.

ghost use Rattle.std.specs.Prelude.{◌≡◌, ◌≤◌, ◌<◌, ◌++◌, ◌∷◌, [], ℕ, Bool, length, map, Some, All, IfErr, IfOk, OnOk};
ghost use Rattle.std.specs.List.{AllZip, zip, range_with_len};
ghost use Rattle.symbol_scope.specs.declared.tables.TheConstants.{MAX_MODULES};
ghost use Rattle.func_desc.specs.Pool.{free_slots};
ghost use Rattle.load_model.specs.Definition.{Linkage};
ghost use Rattle.load_model.specs.Image.{IsImage};
ghost use Rattle.load_model.specs.Joined.{flags_of};
ghost use Rattle.load_map.specs.Maps.{map_at};
ghost use Rattle.load_model.specs.declared.module.Joining.{Joining};
ghost use Rattle.load_sites.specs.parts.Values.{IsValues};
ghost use Rattle.load_process.specs.parts.TakenObjects.{IsTaken};
ghost use Rattle.load_image.specs.parts.Bounds.{IsMapOf};
ghost use Rattle.load_image.specs.Places.{placing_in};
ghost use Rattle.load_map.specs.Maps.{map_at};
ghost use Rattle.load_image.specs.parts.Words.{FitSites};
ghost use Rattle.load_plan.specs.parts.FinishedBytes.{AreImages, HasNoSlots};
ghost use Rattle.load_state.specs.Accepted.{gots_of};

use elf_model::Func;
use fd_base::{Bytes, Memory, Seq};
use func_desc::DescPool;
use load_image::{Places, image};
use load_model::{
    Flags, Joining, LoadErr, LoadRefusal, MAX_MODULES, SymbolicProcess, unbound_at_first,
};
use load_sites::Values;
use load_state::{Descriptors, Parts};
use std::alloc::Global;

/// The free slots in order for these functions, as far as there are any.
fn given(alloc: Global, pool: &DescPool, wanted: &[Func]) -> Result<Descriptors, Memory>
    ensures { IfOk result (λ given. given ≡ zip wanted.now (free_slots pool.now)) }
{
    let mut given = Seq::new(alloc);
    for i in 0..pool.free() {
        let (Some(f), Some(addr)) = (wanted.get(i as usize), pool.free_at(i)) else {
            return Ok(given);
        };
        given.push((*f, addr))?;
    }
    Ok(given)
}

/// A slot for each of these functions, the free ones in order, or DescriptorsFull.
pub fn slots_for(alloc: Global, pool: &DescPool, wanted: &[Func]) -> Result<Descriptors, LoadErr>
    ensures given { IfOk result (λ given. given ≡ zip wanted.now (free_slots pool.now)) }
    ensures enough { OnOk result (length wanted.now ≤ length (free_slots pool.now)) }
    ensures error { IfErr result (HasNoSlots (length (free_slots pool.now)) (length wanted.now)) }
{
    let free = pool.free();
    if wanted.len() > free as usize {
        return Err(LoadErr::Refused(LoadRefusal::DescriptorsFull(free)));
    }
    Ok(given(alloc, pool, wanted)?)
}

/// The link address of a module's GOT, new or live.
fn got_of(process: &SymbolicProcess, joining: &[Joining], m: u32) -> Option<u32>
    ensures { result ≡ gots_of process.now joining.now m }
{
    for new in joining {
        if new.number == m {
            return Some(new.object.got);
        }
    }
    Some(process.object_at(m)?.got)
}

/// The link address of each module's GOT, by module number.
pub fn gots(
    alloc: Global,
    process: &SymbolicProcess,
    joining: &[Joining],
) -> Result<Vec<Option<u32>>, Memory>
    ensures { IfOk result (λ gots. gots.items ≡ map (gots_of process.now joining.now) (range_with_len 0 MAX_MODULES)) }
{
    let mut gots = Vec::new(alloc);
    for m in 0..MAX_MODULES {
        gots.push(got_of(process, joining, m))?;
    }
    Ok(gots)
}

/// The flags of new modules: with `lazy` the slots that may wait are unbound, and otherwise none.
pub fn flags(alloc: Global, lazy: bool, joining: &[Joining]) -> Result<Seq<Flags>, Memory>
    requires { All (λ j. IsTaken j.object) joining.now }
    ensures { IfOk result (λ flags. flags ≡ flags_of lazy joining.now) }
{
    let mut flags = Seq::new(alloc);
    for new in joining {
        let own = unbound_at_first(alloc, lazy, &new.object)?;
        flags.push(own)?;
    }
    Ok(flags)
}

/// The finished bytes of new modules, whose sites have these values, and whose slots these flags.
pub fn parts(
    alloc: Global,
    places: &Places,
    joining: &[Joining],
    unbound: &[Flags],
    values: &[Values],
) -> Result<Parts, Memory>
    requires taken { All (λ j. IsTaken j.object) joining.now }
    requires numbers { All (λ j. j.number < MAX_MODULES) joining.now }
    requires placed { All (λ j. IsMapOf j.object.segments (map_at places.now.maps j.number)) joining.now }
    requires count { length values.now ≡ length joining.now }
    requires flags { length unbound.now ≡ length joining.now }
    requires fit { AllZip (λ j v. FitSites j.object v) joining.now values.now }
    ensures { IfOk result (λ parts. (l : Linkage) (lazy : Bool) → IsValues l joining.now values.now → unbound.now ≡ flags_of lazy joining.now
        → AllZip (AreImages l (placing_in places.now) lazy (map_at places.now.maps)) joining.now parts) }
{
    let mut parts = Seq::new(alloc);
    for i in 0..joining.len() {
        let new = &joining[i];
        let part = image(
            alloc,
            places,
            new.number,
            &new.object,
            unbound[i].as_slice(),
            values[i].as_slice(),
        )?;
        parts.push(part)?;
    }
    Ok(parts)
}
