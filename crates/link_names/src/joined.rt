//! The symbols of all inputs, joined.

ghost use Rattle.std.specs.Prelude.{◌≡◌, ◌<◌, ◌≤◌, ◌^◌, length, map, find, All, Contains, IfOk, IfErr, slice_get, option_map};
ghost use Rattle.std.specs.Str.{bytes_eq};
ghost use Rattle.elf_model.specs.RelSound.{IsRelSound};
ghost use Rattle.link_model.specs.declared.error.LinkErr.TheVariants.{Memory};
ghost use Rattle.link_model.specs.Inputs as numbered;
ghost use Rattle.link_model.specs.Joined.{names_of};
ghost use Rattle.link_model.specs.Targets as spec;
ghost use Rattle.link_model.specs.parts.Passes.{Gives};
ghost use Rattle.link_names.specs.parts.Grouped.{group_targets};
ghost use Rattle.link_names.specs.parts.Joining.{HasInput, IsKey};

use crate::groups::Groups;
use crate::mention::{Mention, is_joined};
use crate::numbering::Inputs;
use crate::refusals::test_names;
use crate::target::{joined_target, own_target};
use elf_model::{RelObject, RelObjects};
use fd_base::Seq;
use indexmap::IndexSet;
use link_model::{Key, LinkErr, Mode, Target};
use std::alloc::Global;
use std::marker::Model;

/// The symbols of all inputs, joined by name.
#[derive(Drop)]
pub struct Joined<'a> {
    mode: Mode,
    inputs: Inputs<'a>,
    names: IndexSet<&'a [u8]>,
    targets: Seq<Target>,
}

impl<'a> Model for Joined<'a> {
    ghost use Rattle.std.specs.Prelude.{map};
    ghost use Rattle.link_names.specs.parts.Joining.{Joining, AreJoined};

    ghost Value = { Joining };

    ghost view = { λ s. record { mode = s.mode; inputs = s.inputs } };

    ghost invariant = { λ s. AreJoined (record { mode = s.mode; inputs = s.inputs }) (map (λ n. n.now) s.names.keys) s.targets };
}

/// What the symbols of each name are together.
fn targets_of(
    alloc: Global,
    mode: Mode,
    inputs: &Inputs,
    groups: &Groups,
) -> Result<Seq<Target>, LinkErr>
    requires few { length groups.now.groups < 2 ^ 32 }
    requires known { All (All (Contains (numbered.symbols_of inputs.now))) groups.now.groups }
    ensures targets { IfOk result (λ targets. targets ≡ group_targets mode inputs.now groups.now) }
    ensures memory { IfErr result (λ e. e ≡ Memory) }
{
    let mut targets = Seq::new(alloc);
    for (k, group) in groups.groups().iter().enumerate() {
        targets.push(joined_target(mode, inputs, k as u32, group.as_slice()))?;
    }
    Ok(targets)
}

/// `Memory` where so many names have no numbers of 32 bits.
fn check_count(names: usize) -> Result<(), LinkErr>
    ensures small { IfOk result (λ _. names < 2 ^ 32) }
    ensures memory { IfErr result (λ e. e ≡ Memory) }
{
    match u32::try_from(names) {
        Ok(_) => Ok(()),
        Err(_) => Err(LinkErr::Memory),
    }
}

/// Joins the symbols of accepted files. Refuses by `Twice` and `Undefined`, by the first name in order of appearance
/// that fails a test. `Memory` also where inputs, names or sections have no numbers of 32 bits.
pub fn join<'a>(alloc: Global, mode: Mode, inputs: &'a RelObjects) -> Result<Joined<'a>, LinkErr>
    requires sound { All IsRelSound inputs.now }
    ensures { Gives result (spec.all_name_tests mode inputs.now) (λ joined. joined ≡ record { mode = mode; inputs = inputs.now }) }
{
    let inputs = Inputs::of(alloc, inputs.as_slice())?;
    let groups = Groups::of(alloc, inputs.objects())?;
    check_count(groups.len())?;
    test_names(alloc, mode, &groups)?;
    let targets = targets_of(alloc, mode, &inputs, &groups)?;
    Ok(Joined {
        mode,
        inputs,
        names: groups.into_names(),
        targets,
    })
}

impl<'a> Joined<'a> {
    /// What symbol `symbol` of input `input` is.
    pub fn target(&self, input: u32, symbol: u32) -> Target
        requires { HasInput self.now.inputs input (λ o. symbol < length o.symbols) }
        ensures { result ≡ spec.target_of self.now.mode self.now.inputs input symbol }
    {
        let object = &self.inputs.objects()[input as usize];
        let x = Mention {
            input,
            number: symbol,
            symbol: &object.symbols.as_slice()[symbol as usize],
        };
        if !is_joined(x.symbol) {
            return own_target(&self.inputs, &x);
        }
        self.target_of_name(x.name())
    }

    /// What the symbols of a name of the inputs are together.
    fn target_of_name(&self, name: &[u8]) -> Target
        requires { Contains (names_of self.now.inputs) name.now }
        ensures { result ≡ spec.target_of_name self.now.mode self.now.inputs name.now }
    {
        let k = self.names.get_index_of(&name).unwrap_or(0);
        self.targets.as_slice()[k]
    }

    /// What the symbols of a name are together, where an input has one.
    pub fn find(&self, name: &[u8]) -> Option<Target>
        ensures { result ≡ option_map (spec.target_of_name self.now.mode self.now.inputs) (find (bytes_eq name.now) (names_of self.now.inputs)) }
    {
        let k = self.names.get_index_of(&name)?;
        Some(self.targets.as_slice()[k])
    }

    /// What a key stands for.
    pub fn target_of_key(&self, key: Key) -> Target
        requires { IsKey self.now.inputs key }
        ensures { result ≡ spec.target_of_key self.now.mode self.now.inputs key }
    {
        match key {
            Key::Name(k) => self.targets.as_slice()[k as usize],
            Key::Own(input, symbol) => self.target(input, symbol),
        }
    }

    /// The name of a key: none of a symbol that is joined with no other.
    pub fn name_of_key(&self, key: Key) -> Option<&'a [u8]>
        ensures { option_map (λ n. n.now) result ≡ spec.name_of_key self.now.inputs key }
    {
        match key {
            Key::Name(k) => self.name(k),
            Key::Own(_, _) => None,
        }
    }

    /// The name of a number.
    pub fn name(&self, k: u32) -> Option<&'a [u8]>
        ensures { option_map (λ n. n.now) result ≡ slice_get (names_of self.now.inputs) k }
    {
        self.names.get_index(k as usize).copied()
    }

    /// How many names there are.
    pub fn name_count(&self) -> u32
        ensures { result ≡ length (names_of self.now.inputs) }
    {
        self.names.len() as u32
    }

    /// What the symbols of each name are together, by the numbers of the names.
    pub fn targets(&self) -> &[Target]
        ensures targets { result.now ≡ spec.targets_of self.now.mode self.now.inputs }
        ensures few { length result.now < 2 ^ 32 }
    {
        self.targets.as_slice()
    }

    /// The number of a section of an input among those of all.
    pub fn section_number(&self, input: u32, number: u32) -> u32
        requires { HasInput self.now.inputs input (λ o. number ≤ length o.sections) }
        ensures { result ≡ numbered.section_number self.now.inputs input number }
    {
        self.inputs.section_number(input, number)
    }

    /// The files.
    pub fn inputs(&self) -> &'a [RelObject]
        ensures { result.now ≡ self.now.inputs }
    {
        self.inputs.objects()
    }

    /// What is linked.
    pub fn mode(&self) -> Mode
        ensures { result ≡ self.now.mode }
    {
        self.mode
    }
}
