//! A list of values. Contracts see the list alone, and never the room that a vector reserves.

ghost use Rattle.std.specs.Prelude.{◌≡◌, ◌↔◌, ◌+◌, ◌≤◌, IsTrue, List, [], ◌∷◌, ◌++◌, length, take, IfOk, if◌then◌else◌, is_ok};
ghost use Rattle.fd_base.specs.Words.{with_word};

use crate::name::Name;
use crate::words::put_word;
use std::alloc::{AllocError, Global};
use std::marker::Model;

/// Want of memory. A growth that is refused answers it, and changes nothing.
pub type Memory = AllocError;

/// Values in order.
#[derive(Drop)]
pub struct Seq<T> {
    values: Vec<T>,
}

/// Bytes in order.
pub type Bytes = Seq<u8>;
/// Words of 32 bits in order.
pub type Words = Seq<u32>;
/// Numbers in order, as those of modules.
pub type Numbers = Seq<u32>;
/// Names in order.
pub type Names = Seq<Name>;

impl<T> Model for Seq<T> {
    ghost use Rattle.std.specs.Prelude.{List};

    ghost Value = { List T };

    ghost view = { λ s. s.values.items };
}

impl<T> Seq<T> {
    /// No values. Takes no memory.
    pub fn new(alloc: Global) -> Self
        ensures { result ≡ [] }
    {
        Seq {
            values: Vec::new(alloc),
        }
    }

    /// The values of a vector. Takes no memory.
    pub fn from_vec(values: Vec<T>) -> Self
        ensures { result ≡ values.items }
    {
        Seq { values }
    }

    /// The vector of the values. Takes no memory.
    pub fn into_vec(self) -> Vec<T>
        ensures { result.items ≡ self }
    {
        let Seq { values } = self;
        values
    }

    /// How many values there are.
    pub fn len(&self) -> usize
        ensures { result ≡ length self.now }
    {
        self.values.len()
    }

    /// Whether there is no value.
    pub fn is_empty(&self) -> bool
        ensures { IsTrue result ↔ (length self.now ≡ 0) }
    {
        self.values.is_empty()
    }

    /// The values as a slice.
    pub fn as_slice(&self) -> &[T]
        ensures { result.now ≡ self.now }
    {
        self.values.as_slice()
    }
}

impl<T: Drop> Seq<T> {
    /// Puts a value at the end. Without memory the value is dropped and the list stays.
    pub fn push(&mut self, value: T) -> Result<(), Memory>
        ensures { self.new ≡ (if is_ok result then self.old ++ value ∷ [] else self.old) }
    {
        self.values.push(value)?;
        Ok(())
    }

    /// Keeps the first `len` values, or all where there are fewer.
    pub fn truncate(&mut self, len: usize)
        ensures { self.new ≡ take len self.old }
    {
        self.values.truncate(len)
    }
}

impl<T: Copy> Seq<T> {
    /// A list of these values.
    pub fn from_slice(alloc: Global, values: &[T]) -> Result<Self, Memory>
        ensures { IfOk result (λ s. s ≡ values.now) }
    {
        Ok(Seq {
            values: Vec::from_slice(alloc, values)?,
        })
    }

    /// Puts values at the end. Without memory the list stays.
    pub fn extend_from_slice(&mut self, values: &[T]) -> Result<(), Memory>
        ensures { self.new ≡ (if is_ok result then self.old ++ values.now else self.old) }
    {
        self.values.extend_from_slice(values)
    }
}

impl Seq<u8> {
    /// Puts a word at a place that is known to lie in the bytes. The other bytes stay.
    pub fn put_word(&mut self, at: u32, v: u32)
        requires { at + 4 ≤ length self.old }
        ensures { self.new ≡ with_word self.old at v }
    {
        put_word(&mut self.values, at, v);
    }
}
