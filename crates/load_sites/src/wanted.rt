//! The functions that need a slot for their descriptor.

ghost use Rattle.std.specs.Prelude.{◌≡◌, ◌≤◌, ◌++◌, not, ◌||◌, is_some, filter, length, option_to_list, Ok, IfOk, OnOk, if◌then◌else◌};
ghost use Rattle.std.specs.FinMap.{get};
ghost use Rattle.elf_model.specs.declared.func.Func.{Func};
ghost use Rattle.symbol_scope.specs.Closure.{has, with_one, firsts};
ghost use Rattle.std.specs.List.{filter_map, flat_map};
ghost use Rattle.load_model.specs.Descriptors as spec;
ghost use Rattle.load_model.specs.Linkage.{members_of};
ghost use Rattle.load_sites.specs.parts.Descriptors.{all_asked_by};
ghost use Rattle.load_sites.specs.parts.Linker.{linkage};
ghost use Rattle.load_sites.specs.parts.Values.{AreValuesOf, IsValues};

use crate::funcs::Funcs;
use crate::linker::Linker;
use crate::values::Values;
use elf_model::{Func, Object};
use fd_base::{Memory, Seq};
use func_desc::DescPool;
use load_model::{Joining, SiteValue};
use std::alloc::Global;

/// The function whose descriptor's address is written.
fn descriptor_of(value: SiteValue) -> Option<Func>
    ensures { result ≡ spec.descriptor_of (Ok value) }
{
    match value {
        SiteValue::Descriptor(f) => f,
        _ => None,
    }
}

fn add_asked_by(asked: &mut Seq<Func>, value: SiteValue) -> Result<(), Memory>
    ensures { OnOk result (asked.new ≡ asked.old ++ option_to_list (spec.descriptor_of (Ok value))) }
{
    match descriptor_of(value) {
        Some(f) => asked.push(f),
        None => Ok(()),
    }
}

fn add_all_asked_by(asked: &mut Seq<Func>, values: &[SiteValue]) -> Result<(), Memory>
    ensures { OnOk result (asked.new ≡ asked.old ++ filter_map (λ v. spec.descriptor_of (Ok v)) values.now) }
{
    for value in values {
        add_asked_by(asked, *value)?;
    }
    Ok(())
}

fn add_asked_in(asked: &mut Seq<Func>, o: &Object, values: &[SiteValue]) -> Result<(), Memory>
    requires { length o.now.rels ≤ length values.now }
    ensures { OnOk result (asked.new ≡ asked.old ++ all_asked_by o.entry.now values.now) }
{
    add_all_asked_by(asked, &values[..o.rels.len()])
}

fn add_listed(funcs: &mut Funcs, entry: &(Func, u32)) -> Result<(), Memory>
    ensures { OnOk result (funcs.new ≡ with_one spec.is_same_func funcs.old entry.now.0) }
{
    funcs.insert(&entry.0)
}

/// The functions of these entries.
fn listed(alloc: Global, entries: &[(Func, u32)]) -> Result<Funcs, Memory>
    ensures { IfOk result (λ funcs. (f : Func) → has spec.is_same_func funcs f ≡ spec.is_listed entries.now f) }
{
    let mut funcs = Funcs::new(alloc);
    for entry in entries {
        add_listed(&mut funcs, entry)?;
    }
    Ok(funcs)
}

fn has_descriptor(had: &DescPool, listed: &Funcs, f: &Func) -> bool
    ensures { result ≡ (is_some (get had.now.addrs f.now) || has spec.is_same_func listed.now f.now) }
{
    had.get(f).is_some() || listed.contains(f)
}

fn add_wanted(wanted: &mut Funcs, had: &DescPool, listed: &Funcs, f: &Func) -> Result<(), Memory>
    ensures { OnOk result (wanted.new
        ≡ (if not (is_some (get had.now.addrs f.now) || has spec.is_same_func listed.now f.now) then with_one spec.is_same_func wanted.old f.now else wanted.old)) }
{
    if has_descriptor(had, listed, f) {
        return Ok(());
    }
    wanted.insert(f)
}

/// Those that have no descriptor, each once.
fn without_descriptor(
    alloc: Global,
    had: &DescPool,
    listed: &Funcs,
    asked: &[Func],
) -> Result<Funcs, Memory>
    ensures { IfOk result (λ funcs. funcs
        ≡ firsts spec.is_same_func (filter (λ f. not (is_some (get had.now.addrs f) || has spec.is_same_func listed.now f)) asked.now)) }
{
    let mut wanted = Funcs::new(alloc);
    for f in asked {
        add_wanted(&mut wanted, had, listed, f)?;
    }
    Ok(wanted)
}

impl<'a> Linker<'a> {
    /// Puts those that a new module asks for behind the others.
    fn add_asked_of(
        &self,
        asked: &mut Seq<Func>,
        new: &Joining,
        values: &Values,
    ) -> Result<(), Memory>
        requires { AreValuesOf (linkage self.now) (new.now.number, new.now.object) values.now }
        ensures { OnOk result (asked.new ≡ asked.old ++ spec.asked_of (linkage self.now) (new.now.number, new.now.object)) }
    {
        add_asked_in(asked, &new.object, values.as_slice())
    }

    /// The functions whose descriptor's address sites of new modules ask for, as often as they do.
    fn asked(&self, alloc: Global, values: &[Values]) -> Result<Seq<Func>, Memory>
        requires { IsValues (linkage self.now) self.now.joining.now values.now }
        ensures { IfOk result (λ asked. asked ≡ flat_map (spec.asked_of (linkage self.now)) (members_of self.now.joining.now)) }
    {
        let mut asked = Seq::new(alloc);
        for (i, new) in self.joining.iter().enumerate() {
            self.add_asked_of(&mut asked, new, &values[i])?;
        }
        Ok(asked)
    }

    /// The functions that need a slot, each once, in the order in which sites of new modules ask for them: those
    /// that have no descriptor's address yet, and no private descriptor.
    pub fn wanted(
        &self,
        alloc: Global,
        had: &DescPool,
        privates: &[(Func, u32)],
        values: &[Values],
    ) -> Result<Seq<Func>, Memory>
        requires values { IsValues (linkage self.now) self.now.joining.now values.now }
        requires privates { privates.now ≡ spec.privates (linkage self.now) (members_of self.now.joining.now) }
        ensures { IfOk result (λ wanted. wanted ≡ spec.wanted (linkage self.now) (get had.now.addrs) (members_of self.now.joining.now)) }
    {
        let asked = self.asked(alloc, values)?;
        let listed = listed(alloc, privates)?;
        let wanted = without_descriptor(alloc, had, &listed, asked.as_slice())?;
        wanted.listed(alloc)
    }
}
