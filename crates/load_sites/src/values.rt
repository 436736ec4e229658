//! What loading writes at all sites of new modules.

ghost use Rattle.std.specs.Prelude.{◌≡◌, ◌+◌, ◌^◌, ◌≤◌, [], map, slice_get, All, Some, None, IfOk, IfErr, OnOk};
ghost use Rattle.std.specs.List.{filter_map};
ghost use Rattle.std.specs.Result.{result_err};
ghost use Rattle.elf_model.specs.Sound.{IsSound};
ghost use Rattle.load_model.specs.Linkage.{members_of};
ghost use Rattle.load_model.specs.Sites as spec;
ghost use Rattle.load_sites.specs.parts.Answers.{Tells};
ghost use Rattle.load_sites.specs.parts.Linker.{linkage, IsReady};
ghost use Rattle.load_sites.specs.parts.Values.{AreValuesOf, IsValues};

use crate::linker::Linker;
use elf_model::{Object, Rel};
use fd_base::Seq;
use load_model::{LoadErr, SiteValue};
use std::alloc::Global;

/// What is written at each site of a module, in the order of its sites.
pub type Values = Seq<SiteValue>;

impl<'a> Linker<'a> {
    /// What is written at these sites, or why the first of them that can't be filled can't.
    fn values_at(&self, alloc: Global, m: u32, o: &Object, sites: &[Rel]) -> Result<Values, LoadErr>
        requires ready { IsReady self.now }
        requires ends { All (λ r. r.site + 4 ≤ 2 ^ 32) sites.now }
        ensures values { IfOk result (λ values. map (spec.site_value (linkage self.now) m o.entry.now) sites.now ≡ map Ok values) }
        ensures none { OnOk result (filter_map (λ r. result_err (spec.site_value (linkage self.now) m o.entry.now r)) sites.now ≡ []) }
        ensures error { IfErr result (Tells (λ x. slice_get (filter_map (λ r. result_err (spec.site_value (linkage self.now) m o.entry.now r)) sites.now) 0 ≡ Some x)) }
    {
        let mut values = Seq::new(alloc);
        for r in sites {
            let value = self.site_value(alloc, m, o, r)?;
            values.push(value)?;
        }
        Ok(values)
    }

    /// What is written at the sites of a module.
    fn values_of(&self, alloc: Global, m: u32, o: &Object) -> Result<Values, LoadErr>
        requires ready { IsReady self.now }
        requires sound { IsSound o.now }
        ensures values { IfOk result (AreValuesOf (linkage self.now) (m, o.entry.now)) }
        ensures none { OnOk result (spec.refusals_of (linkage self.now) m o.entry.now ≡ []) }
        ensures error { IfErr result (Tells (λ x. slice_get (spec.refusals_of (linkage self.now) m o.entry.now) 0 ≡ Some x)) }
    {
        let sites = o.site_relocations(alloc)?;
        self.values_at(alloc, m, o, sites.as_slice())
    }

    /// What is written at the sites of each new module, in order. Of the sites that can't be filled the first
    /// is given: over the modules in order, and in each over its sites in order.
    pub fn values(&self, alloc: Global) -> Result<Seq<Values>, LoadErr>
        requires ready { IsReady self.now }
        requires sound { All (λ j. IsSound j.object) self.now.joining.now }
        ensures values { IfOk result (IsValues (linkage self.now) self.now.joining.now) }
        ensures none { OnOk result (spec.first_refusal (linkage self.now) (members_of self.now.joining.now) ≡ None) }
        ensures error { IfErr result (Tells (λ x. spec.first_refusal (linkage self.now) (members_of self.now.joining.now) ≡ Some x)) }
    {
        let mut all = Seq::new(alloc);
        for new in self.joining {
            let values = self.values_of(alloc, new.number, &new.object)?;
            all.push(values)?;
        }
        Ok(all)
    }
}
