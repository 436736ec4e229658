//! The inputs, and the numbers of their sections among those of all.

ghost use Rattle.std.specs.Prelude.{◌≡◌, ◌<◌, ◌≤◌, ◌^◌, ◌+◌, length, All, Contains, IfOk, IfErr};
ghost use Rattle.std.specs.List.{sum_by};
ghost use Rattle.elf_model.specs.RelSound.{IsRelSound};
ghost use Rattle.link_model.specs.declared.error.LinkErr.TheVariants.{Memory};
ghost use Rattle.link_model.specs.Inputs as spec;
ghost use Rattle.link_model.specs.Targets.{spot_of};
ghost use Rattle.link_names.specs.parts.Joining.{section_starts, HasInput};

use crate::mention::Mention;
use elf_model::{Place, RelObject};
use fd_base::Seq;
use link_model::{LinkErr, Spot};
use std::alloc::Global;
use std::marker::Model;

/// Accepted files in order, with the number of sections before those of each.
#[derive(Drop)]
pub(crate) struct Inputs<'a> {
    objects: &'a [RelObject],
    starts: Seq<u32>,
}

impl<'a> Model for Inputs<'a> {
    ghost use Rattle.std.specs.Prelude.{List, ◌≡◌};
    ghost use Rattle.elf_model.specs.declared.relocatable.RelObject.{RelObject};
    ghost use Rattle.link_names.specs.parts.Joining.{section_starts, AreInputs};

    ghost Value = { List RelObject };

    ghost view = { λ s. s.objects.now };

    ghost invariant = { λ s. (s.starts ≡ section_starts s.objects.now) × AreInputs s.objects.now };
}

/// A count of sections with those of one more input.
fn counted(count: u32, object: &RelObject) -> Result<u32, LinkErr>
    ensures count { IfOk result (λ n. n ≡ count + length object.now.sections) }
    ensures small { IfOk result (λ n. n < 2 ^ 32) }
    ensures memory { IfErr result (λ e. e ≡ Memory) }
{
    match u32::try_from(object.sections.len()) {
        Ok(more) => count.checked_add(more).ok_or(LinkErr::Memory),
        Err(_) => Err(LinkErr::Memory),
    }
}

/// How many sections come before those of each input. `Memory` where there are 2^32 sections or more.
fn section_starts(alloc: Global, inputs: &[RelObject]) -> Result<Seq<u32>, LinkErr>
    ensures starts { IfOk result (λ starts. starts ≡ section_starts inputs.now) }
    ensures few { IfOk result (λ _. sum_by (λ o. length o.sections) inputs.now < 2 ^ 32) }
    ensures memory { IfErr result (λ e. e ≡ Memory) }
{
    let mut starts = Seq::new(alloc);
    let mut count: u32 = 0;
    for object in inputs {
        starts.push(count)?;
        count = counted(count, object)?;
    }
    Ok(starts)
}

impl<'a> Inputs<'a> {
    /// `Memory` where inputs or sections have no numbers of 32 bits.
    pub(crate) fn of(alloc: Global, objects: &'a [RelObject]) -> Result<Inputs<'a>, LinkErr>
        requires { All IsRelSound objects.now }
        ensures inputs { IfOk result (λ inputs. inputs ≡ objects.now) }
        ensures few { IfOk result (λ _. length objects.now < 2 ^ 32) }
        ensures memory { IfErr result (λ e. e ≡ Memory) }
    {
        if u32::try_from(objects.len()).is_err() {
            return Err(LinkErr::Memory);
        }
        let starts = section_starts(alloc, objects)?;
        Ok(Inputs { objects, starts })
    }

    /// The files.
    pub(crate) fn objects(&self) -> &'a [RelObject]
        ensures { result.now ≡ self.now }
    {
        self.objects
    }

    /// The number of a section of an input among those of all.
    pub(crate) fn section_number(&self, input: u32, number: u32) -> u32
        requires { HasInput self.now input (λ o. number ≤ length o.sections) }
        ensures { result ≡ spec.section_number self.now input number }
    {
        self.starts.as_slice()[input as usize] + number
    }

    /// Where a symbol is defined.
    pub(crate) fn spot_of(&self, x: &Mention) -> Spot
        requires { Contains (spec.symbols_of self.now) x.now }
        ensures { result ≡ spot_of self.now x.now (x.now.symbol).place }
    {
        match x.symbol.place {
            Place::Absolute => Spot::Absolute(x.symbol.value),
            Place::Section(n) => {
                let start = self.starts.as_slice()[x.input as usize];
                Spot::Section(start + n, x.symbol.value)
            }
            _ => Spot::Nowhere,
        }
    }
}
