//! Stores of files by name.

ghost use Rattle.std.specs.Prelude.{◌≡◌, ℕ, ◌≤◌, ◌↔◌, IsTrue, Option, Some, is_ok, if◌then◌else◌};
ghost use Rattle.std.specs.FinMap as finite;
ghost use Rattle.fd_base.specs.parts.Calls.{no_calls, fails_next, with_call, with_failing};
ghost use Rattle.fd_base.specs.Fetched.{Files, FetchAnswers, StoreAnswers, with_file};
ghost use Rattle.fd_base.specs.parts.Kept.{keeps_file};

use crate::calls::CallCounter;
use crate::name::Name;
use crate::seq::{Bytes, Memory};
use std::alloc::{AllocError, Global};
use std::collections::BTreeMap;
use std::marker::Model;
use thiserror::Error;

/// The most bytes that a fetched file has.
pub const MAX_FILE: u32 = 4_194_304;

/// Why a fetch has no answer.
#[derive(Debug, Drop, Error)]
pub enum FetchErr {
    /// The store's fault, which it has counted.
    #[error("Failed")]
    Failed,
    /// The file is longer than `MAX_FILE`: so many bytes of it were taken.
    #[error("TooLong")]
    TooLong(u32),
    /// Memory is wanted.
    #[error("Memory")]
    Memory,
}

impl From<AllocError> for FetchErr {
    ghost use Rattle.std.specs.Prelude.{◌≡◌};
    ghost use Rattle.fd_base.specs.declared.store.FetchErr.TheVariants.{Memory};

    ghost from_gives = { λ _ e. e ≡ Memory };

    fn from(_error: AllocError) -> Self {
        FetchErr::Memory
    }
}

/// Why a file isn't put.
#[derive(Debug, Drop, Error)]
pub enum PutErr {
    /// The store's fault, which it has counted. That one file may hold anything.
    #[error("Failed")]
    Failed,
    /// Memory is wanted. All files stay.
    #[error("Memory")]
    Memory,
}

impl From<AllocError> for PutErr {
    ghost use Rattle.std.specs.Prelude.{◌≡◌};
    ghost use Rattle.fd_base.specs.declared.store.PutErr.TheVariants.{Memory};

    ghost from_gives = { λ _ e. e ≡ Memory };

    fn from(_error: AllocError) -> Self {
        PutErr::Memory
    }
}

/// Files by name, in a store that may fail and counts its faults.
pub trait Store {
    /// The files, where the store tells them.
    ghost files: { Self → Option Files };

    /// How many faults there were.
    ghost faults: { Self → ℕ };

    /// The bytes of the file with this name: at most `MAX_FILE`. None where there is no such file.
    fn fetch(&mut self, alloc: Global, name: &Name) -> Result<Option<Bytes>, FetchErr>
        ensures files { files self.new ≡ files self.old }
        ensures count { faults self.old ≤ faults self.new }
        ensures answer { FetchAnswers (files self.old) name.now
            (faults self.old) (faults self.new) result };

    /// Makes the file with this name hold these bytes. The other files stay.
    fn put(&mut self, name: &Name, bytes: &[u8]) -> Result<(), PutErr>
        ensures count { faults self.old ≤ faults self.new }
        ensures answer { StoreAnswers (files self.old) (files self.new) name.now bytes.now
            (faults self.old) (faults self.new) result };
}

/// Files in memory. Its calls of `fetch` and `put` are counted, and fail where that was asked for.
#[derive(Drop)]
pub struct MemStore {
    files: BTreeMap<Vec<u8>, Bytes>,
    calls: CallCounter,
    alloc: Global,
}

impl Model for MemStore {
    ghost use Rattle.fd_base.specs.parts.Kept.{KeptFiles, kept_files_code};

    ghost Value = { KeptFiles };

    ghost coded = { kept_files_code };

    ghost use Rattle.fd_base.specs.parts.Entries.{files_of};

    ghost view = { λ s. record { files = files_of s.files.entries; calls = s.calls } };
}

impl MemStore {
    /// No files, and no call that fails. Takes no memory.
    pub fn new(alloc: Global) -> MemStore
        ensures { result ≡ record { files = finite.empty; calls = no_calls } }
    {
        MemStore {
            files: BTreeMap::new(alloc),
            calls: CallCounter::new(alloc),
            alloc,
        }
    }

    /// Makes the file with this name hold these bytes. This is no call, and never fails but for memory.
    #[tactic(auto, using(crate::proofs::Filed::filed))]
    pub fn add(&mut self, name: &Name, bytes: &[u8]) -> Result<(), Memory>
        ensures { self.new ≡ (if is_ok result then keeps_file name.now bytes.now self.old else self.old) }
    {
        let name = Vec::from_slice(self.alloc, name.as_slice())?;
        let bytes = Bytes::from_slice(self.alloc, bytes)?;
        self.files.insert(name, bytes)?;
        Ok(())
    }

    /// Lets the call-th fetch or put fail, counted from 1. A number that has passed, and 0, never comes.
    pub fn fail_at(&mut self, call: u32) -> Result<(), Memory>
        ensures { self.new ≡ (if is_ok result
            then record self.old { calls = with_failing call self.old.calls }
            else self.old) }
    {
        self.calls.fail_at(call)
    }
}

impl Store for MemStore {
    ghost use Rattle.std.specs.Prelude.{Some};

    ghost files = { λ s. Some s.files };

    ghost faults = { λ s. s.calls.faults };

    #[tactic(auto, using(crate::proofs::Filed::filed))]
    fn fetch(&mut self, alloc: Global, name: &Name) -> Result<Option<Bytes>, FetchErr>
        ensures files { Some self.new.files ≡ Some self.old.files }
        ensures count { self.old.calls.faults ≤ self.new.calls.faults }
        ensures answer { FetchAnswers (Some self.old.files) name.now
            self.old.calls.faults self.new.calls.faults result }
        ensures failed { (result ≡ Err FetchErr.Failed) ↔ IsTrue (fails_next self.old.calls) }
        ensures after { self.new ≡ record self.old { calls = with_call self.old.calls } }
    {
        if self.calls.fails() {
            return Err(FetchErr::Failed);
        }
        let Some(bytes) = self.files.get(name.as_slice()) else {
            return Ok(None);
        };
        if bytes.len() > MAX_FILE as usize {
            return Err(FetchErr::TooLong(MAX_FILE + 1));
        }
        Ok(Some(Bytes::from_slice(alloc, bytes.as_slice())?))
    }

    fn put(&mut self, name: &Name, bytes: &[u8]) -> Result<(), PutErr>
        ensures count { self.old.calls.faults ≤ self.new.calls.faults }
        ensures answer { StoreAnswers (Some self.old.files) (Some self.new.files) name.now bytes.now
            self.old.calls.faults self.new.calls.faults result }
        ensures failed { (result ≡ Err PutErr.Failed) ↔ IsTrue (fails_next self.old.calls) }
        ensures after { self.new ≡ record {
          files = if is_ok result then with_file name.now bytes.now self.old.files else self.old.files;
          calls = with_call self.old.calls;
        } }
    {
        if self.calls.fails() {
            return Err(PutErr::Failed);
        }
        self.add(name, bytes)?;
        Ok(())
    }
}
