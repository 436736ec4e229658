//! The functions to which the slots of new modules lead.

ghost use Rattle.std.specs.Prelude.{◌≡◌, ◌+◌, ◌≤◌, length, map, All, IfOk};
ghost use Rattle.std.specs.List.{AllZip};
ghost use Rattle.elf_model.specs.Sound.{IsSound};
ghost use Rattle.load_model.specs.Definition.{Linkage};
ghost use Rattle.load_model.specs.declared.module.Joining.{Joining};
ghost use Rattle.load_sites.specs.parts.Values.{IsValues};
ghost use Rattle.load_image.specs.parts.Words.{FitSites};
ghost use Rattle.load_state.specs.Slots.{targets_of};
ghost use Rattle.load_plan.specs.parts.Targets.{functions_of, targets_by};

use elf_model::Object;
use fd_base::{Memory, Seq};
use load_model::{Joining, SiteValue};
use load_sites::{Values, pair_of};
use load_state::Targets;
use std::alloc::Global;

/// The functions of these pairs.
fn functions_of(alloc: Global, pairs: &[SiteValue]) -> Result<Targets, Memory>
    ensures { IfOk result (λ functions. functions ≡ functions_of pairs.now) }
{
    let mut functions = Seq::new(alloc);
    for value in pairs {
        functions.push(pair_of(*value))?;
    }
    Ok(functions)
}

/// The function of each slot of a module, whose sites have these values.
fn own_targets(alloc: Global, o: &Object, values: &[SiteValue]) -> Result<Targets, Memory>
    requires { length o.now.rels + length o.now.jmprels ≤ length values.now }
    ensures { IfOk result (λ targets. targets ≡ targets_by o.entry.now values.now) }
{
    let from = o.rels.len();
    functions_of(alloc, &values[from..from + o.jmprels.len()])
}

/// The function of each slot of each new module, whose sites have these values.
pub fn targets(
    alloc: Global,
    joining: &[Joining],
    values: &[Values],
) -> Result<Seq<Targets>, Memory>
    requires sound { All (λ j. IsSound j.object) joining.now }
    requires count { length values.now ≡ length joining.now }
    requires fit { AllZip (λ j v. FitSites j.object v) joining.now values.now }
    ensures { IfOk result (λ targets. (l : Linkage) → IsValues l joining.now values.now
        → targets ≡ map (λ j. targets_of l j.number j.object) joining.now) }
{
    let mut all = Seq::new(alloc);
    for i in 0..joining.len() {
        let new = &joining[i];
        let own = own_targets(alloc, &new.object, values[i].as_slice())?;
        all.push(own)?;
    }
    Ok(all)
}
