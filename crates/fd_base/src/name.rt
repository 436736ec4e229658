//! The names of files, modules and symbols.

ghost use Rattle.std.specs.Prelude.{◌≡◌, IfOk, nat_eq};
ghost use Rattle.std.specs.Hash as fed;
ghost use Rattle.std.specs.Cmp.Lexicographic.{pointwise, nat_list_eq_equiv};
ghost use Rattle.std.specs.Cmp.{partial_equiv_from_equiv};
ghost use Rattle.std.specs.Cmp.Rules.{hashing};
ghost use Rattle.std.proofs.Common.{rules};
ghost use Rattle.fd_base.specs.Name.{IsNamed, first_zero};

use crate::seq::Memory;
use std::alloc::{AllocError, Global};
use std::hash::{Hash, Hasher};
use std::marker::Model;
use thiserror::Error;

/// 1 to 255 bytes, none of them zero.
#[derive(Drop)]
pub struct Name {
    bytes: Vec<u8>,
}

impl Model for Name {
    ghost use Rattle.std.specs.Prelude.{List, ℕ};
    ghost use Rattle.fd_base.specs.parts.IsName.{IsName};

    ghost Value = { List ℕ };

    ghost view = { λ n. n.bytes.items };

    ghost invariant = { λ n. IsName n.bytes.items };
}

/// Why bytes are no name. Of several causes the first in this order is given.
#[derive(Debug, Drop, Error)]
pub enum NameErr {
    /// There are no bytes.
    #[error("Empty")]
    Empty,
    /// There are more than 255.
    #[error("TooLong")]
    TooLong,
    /// The place of the first zero byte, counted from 0.
    #[error("Zero")]
    Zero(usize),
    /// Memory is wanted.
    #[error("Memory")]
    Memory,
}

impl From<AllocError> for NameErr {
    ghost use Rattle.std.specs.Prelude.{◌≡◌};
    ghost use Rattle.fd_base.specs.declared.name.NameErr.TheVariants.{Memory};

    ghost from_gives = { λ _ e. e ≡ Memory };

    fn from(_error: AllocError) -> Self {
        NameErr::Memory
    }
}

/// The place of the first zero byte.
fn first_zero(bytes: &[u8]) -> Option<usize>
    ensures { result ≡ first_zero bytes.now }
{
    bytes.iter().position(|b| *b == 0)
}

impl Name {
    /// The name of these bytes: 1 to 255 of them, none of them zero. Refuses by `Empty`, `TooLong` and
    /// `Zero`, by the first of these that applies.
    pub fn new(alloc: Global, bytes: &[u8]) -> Result<Name, NameErr>
        ensures { IsNamed bytes.now result }
    {
        if bytes.is_empty() {
            return Err(NameErr::Empty);
        }
        if bytes.len() > 255 {
            return Err(NameErr::TooLong);
        }
        if let Some(at) = first_zero(bytes) {
            return Err(NameErr::Zero(at));
        }
        let bytes = Vec::from_slice(alloc, bytes)?;
        Ok(Name { bytes })
    }

    /// The bytes of the name.
    pub fn as_slice(&self) -> &[u8]
        ensures { result.now ≡ self.now }
    {
        &self.bytes
    }

    /// The same name in memory of its own.
    pub fn copy(&self, alloc: Global) -> Result<Name, Memory>
        ensures { IfOk result (λ name. name ≡ self.now) }
    {
        let bytes = Vec::from_slice(alloc, &self.bytes)?;
        Ok(Name { bytes })
    }
}

/// Names are equal where their bytes are.
impl PartialEq for Name {
    ghost eq = { pointwise nat_eq };

    ghost laws = { partial_equiv_from_equiv nat_list_eq_equiv };

    fn eq(&self, other: &Name) -> bool {
        self.as_slice() == other.as_slice()
    }
}

impl Eq for Name {
    ghost laws = { nat_list_eq_equiv };
}

/// A name is hashed as the slice of its bytes.
impl Hash for Name {
    ghost hash_input = { λ n. fed.slice fed.u8 n };

    ghost respects_eq = { Prim.search (hashing, rules) };

    fn hash<H: Hasher>(&self, state: &mut H) {
        self.as_slice().hash(state);
    }
}
