//! The descriptors that modules have of their own functions.

ghost use Rattle.std.specs.Prelude.{◌≡◌, ◌≤◌, ◌++◌, length, option_to_list, Ok, IfOk, OnOk};
ghost use Rattle.load_model.specs.Descriptors as spec;
ghost use Rattle.load_model.specs.Linkage.{members_of};
ghost use Rattle.load_sites.specs.parts.Descriptors.{private_by, privates_by};
ghost use Rattle.load_sites.specs.parts.Linker.{linkage};
ghost use Rattle.load_sites.specs.parts.Values.{AreValuesOf, IsValues};

use crate::definition::is_own;
use crate::linker::Linker;
use crate::values::Values;
use elf_model::constants::R_ARM_FUNCDESC_VALUE;
use elf_model::{Func, Object, Rel};
use fd_base::{Memory, Seq};
use load_model::{Joining, SiteValue};
use std::alloc::Global;

/// Functions of modules, each with the link address in its module at which the module has a descriptor of it.
pub type Privates = Seq<(Func, u32)>;

/// Whether the relocation fills a descriptor of a function of the module itself.
fn is_private(o: &Object, r: &Rel) -> bool
    ensures { result ≡ spec.is_private o.entry.now r.now }
{
    if r.kind != R_ARM_FUNCDESC_VALUE {
        return false;
    }
    if r.symbol == 0 {
        return true;
    }
    match o.symbols.as_slice().get(r.symbol as usize) {
        Some(symbol) => is_own(symbol),
        None => false,
    }
}

/// The function of a descriptor or a slot.
pub fn pair_of(value: SiteValue) -> Option<Func>
    ensures { result ≡ spec.pair_of (Ok value) }
{
    match value {
        SiteValue::Pair(f) => f,
        _ => None,
    }
}

/// The private descriptor at a site, if any.
fn private_by(o: &Object, r: &Rel, value: SiteValue) -> Option<(Func, u32)>
    ensures { result ≡ private_by o.entry.now (r.now, value) }
{
    if !is_private(o, r) {
        return None;
    }
    let f = pair_of(value)?;
    Some((f, r.site))
}

fn add_private(found: &mut Privates, o: &Object, r: &Rel, value: SiteValue) -> Result<(), Memory>
    ensures { OnOk result (found.new ≡ found.old ++ option_to_list (private_by o.entry.now (r.now, value))) }
{
    match private_by(o, r, value) {
        Some(entry) => found.push(entry),
        None => Ok(()),
    }
}

fn add_privates(found: &mut Privates, o: &Object, values: &[SiteValue]) -> Result<(), Memory>
    requires { length o.now.rels ≤ length values.now }
    ensures { OnOk result (found.new ≡ found.old ++ privates_by o.entry.now values.now) }
{
    for (i, r) in o.rels.as_slice().iter().enumerate() {
        add_private(found, o, r, values[i])?;
    }
    Ok(())
}

impl<'a> Linker<'a> {
    /// Puts those of a new module behind the others.
    fn add_privates_of(
        &self,
        found: &mut Privates,
        new: &Joining,
        values: &Values,
    ) -> Result<(), Memory>
        requires { AreValuesOf (linkage self.now) (new.now.number, new.now.object) values.now }
        ensures { OnOk result (found.new ≡ found.old ++ spec.privates_of (linkage self.now) (new.now.number, new.now.object)) }
    {
        add_privates(found, &new.object, values.as_slice())
    }

    /// The functions of new modules that have a private descriptor, each with its site, in table order over the
    /// modules in order. Of several descriptors of one function the first is the function's.
    pub fn privates(&self, alloc: Global, values: &[Values]) -> Result<Privates, Memory>
        requires { IsValues (linkage self.now) self.now.joining.now values.now }
        ensures { IfOk result (λ found. found ≡ spec.privates (linkage self.now) (members_of self.now.joining.now)) }
    {
        let mut found = Seq::new(alloc);
        for (i, new) in self.joining.iter().enumerate() {
            self.add_privates_of(&mut found, new, &values[i])?;
        }
        Ok(found)
    }
}
