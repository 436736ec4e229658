//! The addresses of functions' descriptors after a load.

ghost use Rattle.std.specs.Prelude.{◌≡◌, IfOk};
ghost use Rattle.std.specs.Option.{option_or};
ghost use Rattle.elf_model.specs.declared.func.Func.{Func};
ghost use Rattle.load_model.specs.Descriptors.{listed_addr};
ghost use Rattle.load_image.specs.parts.Table.{hashed_addr};

use crate::hashed::{Hashed, addr_of, enter_all};
use elf_model::Func;
use fd_base::Memory;
use func_desc::DescPool;
use std::alloc::Global;
use std::collections::HashMap;
use std::marker::Model;

/// The address of each function's descriptor: the pool's, or that of its private descriptor, or of the slot that it is
/// given.
#[derive(Drop)]
pub struct Descriptors<'a> {
    /// The functions that have one of the loader's slots already.
    pool: &'a DescPool,
    /// Functions with a private descriptor, each with the placed address of it.
    privates: &'a [(Func, u32)],
    /// Functions that are given a slot, each with the slot's address.
    given: &'a [(Func, u32)],
    /// The addresses in both lists.
    listed: Hashed,
}

impl<'a> Model for Descriptors<'a> {
    ghost use Rattle.std.specs.Prelude.{◌≡◌};
    ghost use Rattle.std.specs.Option.{option_or};
    ghost use Rattle.elf_model.specs.declared.func.Func.{Func};
    ghost use Rattle.load_model.specs.Descriptors.{listed_addr};
    ghost use Rattle.load_image.specs.Addresses.{Addresses, addresses_code};
    ghost use Rattle.load_image.specs.parts.Table.{hashed_addr};

    ghost Value = { Addresses };

    ghost coded = { addresses_code };

    ghost view = { λ d. record { had = d.pool.now.addrs; privates = d.privates.now; given = d.given.now } };

    ghost invariant = { λ d. (f : Func) → hashed_addr d.listed f ≡ option_or (listed_addr d.privates.now f) (listed_addr d.given.now f) };
}

impl<'a> Descriptors<'a> {
    ghost use Rattle.std.specs.Prelude.{◌≡◌, IfOk};
    ghost use Rattle.load_image.specs.Addresses.{addr_in};

    /// With the functions that have a private descriptor, each with its placed address, and those that are given a
    /// slot, each with the slot's. Of several entries of one function the first counts.
    pub fn new(
        alloc: Global,
        pool: &'a DescPool,
        privates: &'a [(Func, u32)],
        given: &'a [(Func, u32)],
    ) -> Result<Descriptors<'a>, Memory>
        ensures { IfOk result (λ d. d ≡ record { had = pool.now.addrs; privates = privates.now; given = given.now }) }
    {
        let listed = hashed(alloc, privates, given)?;
        Ok(Descriptors {
            pool,
            privates,
            given,
            listed,
        })
    }

    /// The address of a function's descriptor.
    pub fn get(&self, f: &Func) -> Option<u32>
        ensures { result ≡ addr_in self.now f.now }
    {
        match self.pool.get(f) {
            Some(addr) => Some(addr),
            None => addr_of(&self.listed, f),
        }
    }
}

/// The addresses in both lists.
fn hashed(alloc: Global, privates: &[(Func, u32)], given: &[(Func, u32)]) -> Result<Hashed, Memory>
    ensures { IfOk result (λ table. (f : Func) → hashed_addr table f ≡ option_or (listed_addr privates.now f) (listed_addr given.now f)) }
{
    let mut table = HashMap::new(alloc);
    enter_all(&mut table, privates)?;
    enter_all(&mut table, given)?;
    Ok(table)
}
