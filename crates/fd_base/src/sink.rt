//! Sinks of bytes.

ghost use Rattle.std.specs.Prelude.{◌≡◌, ℕ, ◌<◌, ◌≤◌, ◌↔◌, ◌==◌, ◌++◌, [], List, length, IsTrue, IsOk, Option, Some, is_ok, if◌then◌else◌};
ghost use Rattle.fd_base.specs.parts.Calls.{no_calls, fails_next, with_call, with_failing};
ghost use Rattle.fd_base.specs.Grown.{SinkAnswers};

use crate::calls::CallCounter;
use crate::seq::{Bytes, Memory};
use std::alloc::{AllocError, Global};
use std::marker::Model;
use thiserror::Error;

/// Why a piece isn't taken.
#[derive(Debug, Drop, Error)]
pub enum SinkErr {
    /// The sink's fault, which it has counted. It took a prefix of the piece.
    #[error("Failed")]
    Failed,
    /// Memory is wanted. Nothing was taken.
    #[error("Memory")]
    Memory,
}

impl From<AllocError> for SinkErr {
    ghost use Rattle.std.specs.Prelude.{◌≡◌};
    ghost use Rattle.fd_base.specs.declared.sink.SinkErr.TheVariants.{Memory};

    ghost from_gives = { λ _ e. e ≡ Memory };

    fn from(_error: AllocError) -> Self {
        SinkErr::Memory
    }
}

/// What takes bytes in order, may fail, and counts its faults.
pub trait Sink {
    /// The bytes that it took, where the sink tells them.
    ghost bytes: { Self → Option (List ℕ) };

    /// How many faults there were.
    ghost faults: { Self → ℕ };

    /// Puts a piece at the end. An empty piece is always taken.
    fn put(&mut self, piece: &[u8]) -> Result<(), SinkErr>
        ensures count { faults self.old ≤ faults self.new }
        ensures empty { length piece.now ≡ 0 → IsOk result }
        ensures answer { SinkAnswers (bytes self.old) (bytes self.new) piece.now
            (faults self.old) (faults self.new) result };
}

/// Bytes in memory. Its puts of a piece that isn't empty are counted, and fail where that was asked for.
#[derive(Drop)]
pub struct MemSink {
    bytes: Bytes,
    calls: CallCounter,
}

impl Model for MemSink {
    ghost use Rattle.fd_base.specs.parts.Kept.{KeptBytes};

    ghost Value = { KeptBytes };

    ghost view = { λ s. record { bytes = s.bytes; calls = s.calls } };
}

impl MemSink {
    /// No bytes, and no call that fails. Takes no memory.
    pub fn new(alloc: Global) -> MemSink
        ensures { result ≡ record { bytes = []; calls = no_calls } }
    {
        MemSink {
            bytes: Bytes::new(alloc),
            calls: CallCounter::new(alloc),
        }
    }

    /// Lets the call-th put fail and take nothing, counted from 1 over pieces that aren't empty. A number
    /// that has passed, and 0, never comes.
    pub fn fail_at(&mut self, call: u32) -> Result<(), Memory>
        ensures { self.new ≡ (if is_ok result
            then record self.old { calls = with_failing call self.old.calls }
            else self.old) }
    {
        self.calls.fail_at(call)
    }

    /// The bytes that it took.
    pub fn bytes(&self) -> &[u8]
        ensures { result.now ≡ self.now.bytes }
    {
        self.bytes.as_slice()
    }
}

impl Sink for MemSink {
    ghost use Rattle.std.specs.Prelude.{Some};

    ghost bytes = { λ s. Some s.bytes };

    ghost faults = { λ s. s.calls.faults };

    fn put(&mut self, piece: &[u8]) -> Result<(), SinkErr>
        ensures count { self.old.calls.faults ≤ self.new.calls.faults }
        ensures empty { length piece.now ≡ 0 → IsOk result }
        ensures answer { SinkAnswers (Some self.old.bytes) (Some self.new.bytes) piece.now
            self.old.calls.faults self.new.calls.faults result }
        ensures failed { (result ≡ Err SinkErr.Failed)
            ↔ ((0 < length piece.now) × IsTrue (fails_next self.old.calls)) }
        ensures after { self.new ≡ (if length piece.now == 0 then self.old else record {
          bytes = if is_ok result then self.old.bytes ++ piece.now else self.old.bytes;
          calls = with_call self.old.calls;
        }) }
    {
        if piece.is_empty() {
            return Ok(());
        }
        if self.calls.fails() {
            return Err(SinkErr::Failed);
        }
        self.bytes.extend_from_slice(piece)?;
        Ok(())
    }
}
